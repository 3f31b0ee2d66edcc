//! The command of each letter, from the fields after it.
ghost use Rattle.text.specs.Reading.{rest_of};
ghost use Rattle.text.specs.Grammar.{value_kinds, branch_kinds, earth_kinds, repeat_kinds};
ghost use Rattle.commands.specs.Steps.{ReadsCommand, ReadsLaw};

use super::command::Command;
use super::next::{next_coefficient, next_number, next_size, next_term};
use super::terms::Terms;
use netlist::limits::MOST_TERMS;
use netlist::terms::RawTerm;
use text::Fields;

pub(crate) fn node(mut fields: Fields<'_>) -> Command
    ensures { ReadsCommand 78 value_kinds (rest_of fields.entry) result }
{
    let domain = next_number(&mut fields);
    Command::Node { domain }
}

pub(crate) fn variables(mut fields: Fields<'_>) -> Command
    ensures { ReadsCommand 86 value_kinds (rest_of fields.entry) result }
{
    let count = next_size(&mut fields);
    Command::Variables { count }
}

pub(crate) fn branch(mut fields: Fields<'_>) -> Command
    ensures { ReadsCommand 66 branch_kinds (rest_of fields.entry) result }
{
    let flow = next_size(&mut fields);
    let across = next_size(&mut fields);
    let first = next_size(&mut fields);
    let second = next_size(&mut fields);
    Command::Branch {
        flow,
        across,
        first,
        second,
    }
}

pub(crate) fn earth(mut fields: Fields<'_>) -> Command
    ensures { ReadsCommand 69 earth_kinds (rest_of fields.entry) result }
{
    let flow = next_size(&mut fields);
    let across = next_size(&mut fields);
    let node = next_size(&mut fields);
    Command::Earth { flow, across, node }
}

pub(crate) fn repeat(mut fields: Fields<'_>) -> Command
    ensures { ReadsCommand 67 repeat_kinds (rest_of fields.entry) result }
{
    let domain = next_number(&mut fields);
    let c1 = next_coefficient(&mut fields);
    let c2 = next_coefficient(&mut fields);
    let c3 = next_coefficient(&mut fields);
    let c4 = next_coefficient(&mut fields);
    let times = next_size(&mut fields);
    let first = next_size(&mut fields);
    let second = next_size(&mut fields);
    Command::Repeat {
        domain,
        coefficients: [c1, c2, c3, c4],
        times,
        first,
        second,
    }
}

pub(crate) fn law(mut fields: Fields<'_>) -> Terms
    ensures { ReadsLaw (rest_of fields.entry) result }
{
    // A slot without a term is zero.
    let mut terms = Terms {
        slots: [RawTerm::value(0, 0); MOST_TERMS],
        count: 0,
    };
    for _ in 0..MOST_TERMS {
        let Some(term) = next_term(&mut fields) else {
            break;
        };
        terms.push(term);
    }
    terms
}
