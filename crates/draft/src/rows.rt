//! What can be wrong with a row, apart from want of room.
ghost use Rattle.std.specs.Prelude.{◌≡◌};
ghost use Rattle.netlist.specs.Domains.{domain_number};
ghost use Rattle.draft.specs.Rules.{domain_of, row_tests};
ghost use Rattle.refusal.specs.Tests.{first_of};
ghost use Rattle.draft.specs.Judging.{node_tests, variable_tests};
ghost use Rattle.refusal.specs.Answers.{Accepts, Tells};

use crate::refusals::{Argument, DraftRefusal};
use crate::settings::Setting;
use netlist::domains::Domain;
use netlist::rows::Row;

/// Judges the nodes and variables that a row names.
pub fn judge_row<G: Setting>(setting: &G, row: Row) -> Result<(), DraftRefusal>
    ensures { Tells (first_of (row_tests (G.Setting.domains setting.now) (G.Setting.variables setting.now)
        (G.Setting.taken setting.now) row)) result }
{
    match row {
        Row::Branch {
            flow,
            across,
            first,
            second,
        } => {
            let first = find_node(setting, first, Argument::First)?;
            let second = find_node(setting, second, Argument::Second)?;
            judge_variables(setting, flow, across)?;
            if first != second {
                return Err(DraftRefusal::Domain {
                    argument: Argument::Second,
                });
            }
            Ok(())
        }
        Row::Earth { flow, across, node } => {
            find_node(setting, node, Argument::Node)?;
            judge_variables(setting, flow, across)
        }
    }
}

// The domain of a node that an argument names, if it is drawn.
fn find_node<G: Setting>(
    setting: &G,
    node: usize,
    argument: Argument,
) -> Result<Domain, DraftRefusal>
    ensures { let domains = G.Setting.domains setting.now in
        Accepts (first_of (node_tests domains node argument))
        (λ domain. domain_of domains node ≡ domain_number domain) result }
{
    setting
        .domain(node)
        .ok_or(DraftRefusal::NoNode { argument })
}

fn judge_variables<G: Setting>(setting: &G, flow: usize, across: usize) -> Result<(), DraftRefusal>
    ensures { Tells (first_of (variable_tests (G.Setting.variables setting.now)
        (G.Setting.taken setting.now) flow across)) result }
{
    let flow_taken = setting.is_taken(flow).ok_or(DraftRefusal::NoVariable {
        argument: Argument::Flow,
    })?;
    let across_taken = setting.is_taken(across).ok_or(DraftRefusal::NoVariable {
        argument: Argument::Across,
    })?;
    if flow_taken {
        return Err(DraftRefusal::Taken {
            argument: Argument::Flow,
        });
    }
    if across_taken || across == flow {
        return Err(DraftRefusal::Taken {
            argument: Argument::Across,
        });
    }
    Ok(())
}
