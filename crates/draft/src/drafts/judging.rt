//! What a draft judges: a row before it draws it, and a law that its tables do not take.
ghost use Rattle.std.specs.Prelude.{◌≡◌};
ghost use Rattle.netlist.specs.Rows.{taken_by};
ghost use Rattle.refusal.specs.Answers.{Tells};
ghost use Rattle.refusal.specs.Tests.{first_of};
ghost use Rattle.draft.specs.Rules.{judge_row, judge_law, room_law};

use crate::drafts::Draft;
use crate::laws::accept_terms;
use crate::refusals::{DraftRefusal, Table};
use crate::rows;
use crate::settings::Setting;
use netlist::domains::Domain;
use netlist::limits::{MAX_LAWS, MAX_ROWS, MAX_TERMS};
use netlist::rows::Row;
use netlist::terms::RawTerm;

// Rows are judged on what has been drawn.
impl Setting for Draft {
    ghost domains = { λ d. d.domains };

    ghost variables = { λ d. d.variables };

    ghost taken = { λ d. taken_by d.rows };

    fn domain(&self, node: usize) -> Option<Domain> {
        self.tables.domain(node)
    }

    fn is_taken(&self, variable: usize) -> Option<bool> {
        self.tables.is_taken(variable)
    }
}

impl Draft {
    pub(super) fn judge_row(&self, row: Row) -> Result<(), DraftRefusal>
        ensures { Tells (judge_row self.now row) result }
    {
        rows::judge_row(self, row)?;
        if self.counts().rows >= MAX_ROWS {
            return Err(DraftRefusal::Limit { table: Table::Rows });
        }
        Ok(())
    }

    pub(super) fn judge_law(&self, terms: &[RawTerm]) -> Result<(), DraftRefusal>
        ensures { Tells (judge_law self.now terms.now) result }
    {
        accept_terms(self.counts().variables, terms)?;
        self.judge_law_room(terms.len())?;
        Ok(())
    }

    // Whether a law of so many terms finds room.
    #[tactic(auto, using(crate::proofs::Rooms::no_law_left, crate::proofs::Rooms::no_term_left, crate::proofs::Rooms::room_left))]
    fn judge_law_room(&self, count: usize) -> Result<(), DraftRefusal>
        ensures { Tells (first_of (room_law self.now.laws count)) result }
    {
        if self.counts().laws >= MAX_LAWS {
            return Err(DraftRefusal::Limit { table: Table::Laws });
        }
        if count > MAX_TERMS - self.tables.laws().term_count() {
            return Err(DraftRefusal::Limit {
                table: Table::Terms,
            });
        }
        Ok(())
    }
}
