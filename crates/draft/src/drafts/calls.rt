//! The calls that fill a draft. Each answers a number, or the first refusal that applies, and then
//! leaves the draft as it was.
ghost use Rattle.std.specs.Prelude.{◌≡◌, IfOk, OnErr};
ghost use Rattle.netlist.specs.declared.rows.Row.TheVariants.{Branch, Earth};
ghost use Rattle.netlist.specs.Netlist.{empty};
ghost use Rattle.netlist.specs.Sound.{Sound};
ghost use Rattle.draft.specs.Rules.{answer_node, after_node, answer_variables, after_variables};
ghost use Rattle.draft.specs.Rules.{answer_row, after_row, answer_law, after_law};

use crate::drafts::Draft;
use crate::refusals::{Argument, DraftRefusal, Table};
use netlist::domains::Domain;
use netlist::rows::Row;
use netlist::terms::RawTerm;
use sheet::{Sheet, Tables};
use std::alloc::{AllocError, Global};

impl Draft {
    /// An empty draft, with the memory for all that it may come to hold.
    pub fn new(heap: Global) -> Result<Draft, AllocError>
        ensures { IfOk result (λ d. d ≡ empty) }
    {
        Ok(Draft {
            tables: Tables::new(heap)?,
        })
    }

    /// Draws a node of the domain of this number, and answers the node's number. It takes any number, since
    /// to refuse a wrong one is its part. Refused are a number of no domain and a node past the limit.
    pub fn node(&mut self, domain: u32) -> Result<usize, DraftRefusal>
        ensures answer { result ≡ answer_node self.old domain }
        ensures netlist { self.new ≡ after_node self.old domain }
        ensures kept { OnErr result (self.new ≡ self.old) }
    {
        let Ok(domain) = Domain::try_from(domain) else {
            return Err(DraftRefusal::Domain {
                argument: Argument::Domain,
            });
        };
        self.tables.add_node(domain).ok_or(DraftRefusal::Limit {
            table: Table::Nodes,
        })
    }

    /// Draws `count` variables, and answers how many there were: the first new one has that number. Refused is what passes the limit.
    pub fn variables(&mut self, count: usize) -> Result<usize, DraftRefusal>
        ensures answer { result ≡ answer_variables self.old count }
        ensures netlist { self.new ≡ after_variables self.old count }
        ensures kept { OnErr result (self.new ≡ self.old) }
    {
        self.tables.add_variables(count).ok_or(DraftRefusal::Limit {
            table: Table::Variables,
        })
    }

    /// Draws a branch from its first node to its second, and answers its row number. Each variable and node is
    /// an argument of its own, since a refusal tells its place among them. Refused are nodes and variables that
    /// are not drawn, variables that a row has, nodes of two domains, and a row past the limit.
    pub fn branch(
        &mut self,
        flow: usize,
        across: usize,
        first: usize,
        second: usize,
    ) -> Result<usize, DraftRefusal>
        ensures answer { result ≡ answer_row self.old (Branch flow across first second) }
        ensures netlist { self.new ≡ after_row self.old (Branch flow across first second) }
        ensures kept { OnErr result (self.new ≡ self.old) }
    {
        self.row(Row::Branch {
            flow,
            across,
            first,
            second,
        })
    }

    /// Draws an earth at a node, and answers its row number. Refused is what is refused of a branch, at the one
    /// node.
    pub fn earth(&mut self, flow: usize, across: usize, node: usize) -> Result<usize, DraftRefusal>
        ensures answer { result ≡ answer_row self.old (Earth flow across node) }
        ensures netlist { self.new ≡ after_row self.old (Earth flow across node) }
        ensures kept { OnErr result (self.new ≡ self.old) }
    {
        self.row(Row::Earth { flow, across, node })
    }

    // What passes fits the tables.
    #[tactic(auto, using(crate::proofs::Fitting::row_fits_passed))]
    fn row(&mut self, row: Row) -> Result<usize, DraftRefusal>
        ensures answer { result ≡ answer_row self.old row }
        ensures netlist { self.new ≡ after_row self.old row }
        ensures kept { OnErr result (self.new ≡ self.old) }
    {
        self.judge_row(row)?;
        Ok(self.tables.add_row(row).unwrap())
    }

    /// Adds the law that these terms add up to zero, and answers its number. Refused are a wrong number of terms, a
    /// coefficient or an order that no term may have, a variable that is not drawn, and what passes the limit of
    /// the laws or of their terms.
    pub fn law(&mut self, terms: &[RawTerm]) -> Result<usize, DraftRefusal>
        ensures answer { result ≡ answer_law self.old terms.now }
        ensures netlist { self.new ≡ after_law self.old terms.now }
        ensures kept { OnErr result (self.new ≡ self.old) }
    {
        match self.tables.add_raw_law(terms) {
            Some(number) => Ok(number),
            // The tables tell no refusal, so the law is judged for one.
            None => Err(self.judge_law(terms).unwrap_err()),
        }
    }

    /// Ends the draft. It is never refused.
    pub fn issue(self) -> Sheet
        ensures netlist { result ≡ self }
        ensures sound { Sound result }
    {
        // Read for what all tables keep to, which makes a sheet sound.
        let _ = self.tables.rows();
        let Draft { tables } = self;
        Sheet::new(tables)
    }
}
