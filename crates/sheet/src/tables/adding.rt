//! The steps that add. Each is made if it fits, and else changes nothing, so who makes it owes nothing.
ghost use Rattle.std.specs.Prelude.{◌≡◌, [], ◌∷◌, map, length, IfOk};
ghost use Rattle.netlist.specs.Netlist.{empty, term_of, with_variables, with_rows};
ghost use Rattle.netlist.specs.Sound.{joins};
ghost use Rattle.sheet.specs.Steps.{node_fits, variables_fit, row_fits, law_fits, raw_law_fits, is_free, has_free};
ghost use Rattle.sheet.specs.Steps.{number_if, left_if, with_node, with_law};

use crate::laws::{LawTable, keeps_bounds, stand_for_law};
use crate::tables::Tables;
use netlist::domains::Domain;
use netlist::limits::{MAX_NODES, MAX_ROWS, MAX_VARIABLES};
use netlist::rows::Row;
use netlist::terms::{RawTerm, Term};
use std::alloc::{AllocError, Global};

impl Tables {
    /// Empty tables, with the memory for all that they may come to hold.
    pub fn new(heap: Global) -> Result<Tables, AllocError>
        ensures { IfOk result (λ t. t ≡ empty) }
    {
        Ok(Tables {
            domains: Vec::with_capacity(heap, MAX_NODES)?,
            taken: Vec::with_capacity(heap, MAX_VARIABLES)?,
            rows: Vec::with_capacity(heap, MAX_ROWS)?,
            laws: LawTable::new(heap)?,
        })
    }

    /// Draws a node and answers its number, if there is room. Else nothing changes.
    #[tactic(auto, using(crate::proofs::Sizes::node_count))]
    pub fn add_node(&mut self, domain: Domain) -> Option<usize>
        ensures answer { result ≡ number_if (node_fits self.old) (length self.old.domains) }
        ensures netlist { self.new ≡ left_if (node_fits self.old) self.old (with_node self.old domain) }
    {
        let node = self.domains.len();
        if node >= MAX_NODES {
            return None;
        }
        self.domains.push_reserved(domain);
        Some(node)
    }

    /// Draws `count` variables, if there is room, and answers how many there were: the first new one has that number. Else nothing changes.
    pub fn add_variables(&mut self, count: usize) -> Option<usize>
        ensures answer { result ≡ number_if (variables_fit self.old count) self.old.variables }
        ensures netlist { self.new ≡ left_if (variables_fit self.old count) self.old (with_variables self.old count) }
    {
        let first = self.taken.len();
        if count > MAX_VARIABLES - first {
            return None;
        }
        self.taken.resize(first + count, false).unwrap();
        Some(first)
    }

    /// Draws a row and answers its number, if it joins drawn nodes of one domain, its two variables are drawn,
    /// free and not the same, and there is room. Else nothing changes.
    pub fn add_row(&mut self, row: Row) -> Option<usize>
        ensures answer { result ≡ number_if (row_fits self.old row) (length self.old.rows) }
        ensures netlist { self.new ≡ left_if (row_fits self.old row) self.old (with_rows self.old (row ∷ [])) }
    {
        if !self.fits_row(row) {
            return None;
        }
        let number = self.rows.len();
        self.rows.push_reserved(row);
        self.taken[row.flow()] = true;
        self.taken[row.across()] = true;
        Some(number)
    }

    /// Adds the law that these terms add up to zero and answers its number, if it has one to eight terms, each
    /// names a drawn variable with a coefficient that is neither 0 nor too large, and there is room for the law
    /// and its terms. Else nothing changes.
    pub fn add_law(&mut self, terms: &[Term]) -> Option<usize>
        ensures answer { result ≡ number_if (law_fits self.old terms.now) (length self.old.laws) }
        ensures netlist { self.new ≡ left_if (law_fits self.old terms.now) self.old (with_law self.old terms.now) }
    {
        if !self.fits_law(terms) {
            return None;
        }
        let number = self.laws.count();
        self.laws.add(terms);
        Some(number)
    }

    /// Adds the law for which these raw terms stand and answers its number, if each has the order 0 or 1 and the
    /// law is one that `add_law` adds. Else nothing changes.
    pub fn add_raw_law(&mut self, terms: &[RawTerm]) -> Option<usize>
        ensures answer { result ≡ number_if (raw_law_fits self.old terms.now) (length self.old.laws) }
        ensures netlist { self.new ≡ left_if (raw_law_fits self.old terms.now) self.old
            (with_law self.old (map term_of terms.now)) }
    {
        if !self.fits_raw_law(terms) {
            return None;
        }
        let number = self.laws.count();
        self.laws.add_raw(terms);
        Some(number)
    }

    fn fits_row(&self, row: Row) -> bool
        ensures { result ≡ row_fits self.now row }
    {
        self.are_joined(row) && self.has_free(row) && self.rows.len() < MAX_ROWS
    }

    // The row's nodes are drawn, and a branch's are of one domain.
    fn are_joined(&self, row: Row) -> bool
        ensures { result ≡ joins self.now.domains row }
    {
        match row {
            Row::Branch { first, second, .. } => {
                match (self.domains.get(first), self.domains.get(second)) {
                    (Some(one), Some(other)) => u32::from(*one) == u32::from(*other),
                    _ => false,
                }
            }
            Row::Earth { node, .. } => node < self.domains.len(),
        }
    }

    // Both variables of the row are free, and not the same.
    fn has_free(&self, row: Row) -> bool
        ensures { result ≡ has_free self.now row }
    {
        self.is_free(row.flow()) && self.is_free(row.across()) && row.across() != row.flow()
    }

    // The variable is drawn, and no row has it.
    fn is_free(&self, variable: usize) -> bool
        ensures { result ≡ is_free self.now variable }
    {
        match self.taken.get(variable) {
            Some(taken) => !*taken,
            None => false,
        }
    }

    fn fits_law(&self, terms: &[Term]) -> bool
        ensures { result ≡ law_fits self.now terms.now }
    {
        keeps_bounds(terms, self.taken.len()) && self.laws.has_room(terms.len())
    }

    #[tactic(auto, using(crate::proofs::Fitting::raw_law_tested))]
    fn fits_raw_law(&self, terms: &[RawTerm]) -> bool
        ensures { result ≡ raw_law_fits self.now terms.now }
    {
        stand_for_law(terms, self.taken.len()) && self.laws.has_room(terms.len())
    }
}
