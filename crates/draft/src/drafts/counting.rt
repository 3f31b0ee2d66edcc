//! How much a draft holds, and what it has room for.
ghost use Rattle.std.specs.Prelude.{◌≡◌};
ghost use Rattle.netlist.specs.Sound.{Sound};
ghost use Rattle.refusal.specs.Answers.{Tells};
ghost use Rattle.refusal.specs.Tests.{first_of};
ghost use Rattle.sheet.specs.Counting.{counts_of};
ghost use Rattle.draft.specs.Counting.{room_tests};

use crate::drafts::Draft;
use crate::refusals::Table;
use netlist::limits::{MAX_LAWS, MAX_NODES, MAX_ROWS, MAX_TERMS, MAX_VARIABLES};
use sheet::Counts;

impl Draft {
    /// How much has been drawn, with what every draft keeps to.
    pub fn counts(&self) -> Counts
        ensures value { result ≡ counts_of self.now }
        ensures sound { Sound self.now }
    {
        self.tables.counts()
    }

    /// Whether so much more finds room, with so many terms in its laws: if not, which is the first table
    /// whose limit would be passed.
    pub fn judge_room(&self, more: Counts, terms: usize) -> Result<(), Table>
        ensures { Tells (first_of (room_tests self.now more terms)) result }
    {
        let now = self.tables.counts();
        if more.nodes > MAX_NODES - now.nodes {
            return Err(Table::Nodes);
        }
        if more.variables > MAX_VARIABLES - now.variables {
            return Err(Table::Variables);
        }
        if more.rows > MAX_ROWS - now.rows {
            return Err(Table::Rows);
        }
        if more.laws > MAX_LAWS - now.laws {
            return Err(Table::Laws);
        }
        if terms > MAX_TERMS - self.tables.laws().term_count() {
            return Err(Table::Terms);
        }
        Ok(())
    }
}
