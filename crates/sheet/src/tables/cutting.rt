//! The steps that take back what came last.
ghost use Rattle.std.specs.Prelude.{◌≡◌, ◌-◌, length, take};
ghost use Rattle.std.specs.List.{list_all};
ghost use Rattle.netlist.specs.Netlist.{empty};
ghost use Rattle.sheet.specs.Steps.{has_only, no_variable_from, no_node_from, left_variables, left_nodes};
ghost use Rattle.netlist.specs.Rows.{stands_on};

use crate::tables::Tables;
use netlist::rows::Row;

impl Tables {
    /// Takes back the laws from this one on.
    pub fn cut_laws(&mut self, laws: usize)
        ensures { self.new ≡ record self.old { laws = take laws self.old.laws } }
    {
        self.laws.cut(laws);
    }

    /// Takes back the rows from this one on. Their variables are free again.
    pub fn cut_rows(&mut self, rows: usize)
        ensures { self.new ≡ record self.old { rows = take rows self.old.rows } }
    {
        while self.rows().len() > rows {
            self.cut_row();
        }
    }

    /// Takes back the variables from this one on and answers true, if no row and no law has one of them. Else
    /// nothing changes.
    pub fn cut_variables(&mut self, variables: usize) -> bool
        ensures answer { result ≡ no_variable_from self.old variables }
        ensures netlist { self.new ≡ left_variables self.old variables }
    {
        if !self.have_only(variables) {
            return false;
        }
        self.taken.truncate(variables);
        true
    }

    /// Takes back the nodes from this one on and answers true, if no row stands on one of them. Else nothing
    /// changes.
    #[tactic(auto, using(crate::proofs::Cutting::domains_cut))]
    pub fn cut_nodes(&mut self, nodes: usize) -> bool
        ensures answer { result ≡ no_node_from self.old nodes }
        ensures netlist { self.new ≡ left_nodes self.old nodes }
    {
        if !rows_stand_on(&self.rows, nodes) {
            return false;
        }
        self.domains.truncate(nodes);
        true
    }

    // Takes back all that is drawn.
    pub(crate) fn clear(&mut self)
        ensures { self.new ≡ empty }
    {
        self.cut_laws(0);
        self.cut_rows(0);
        self.cut_variables(0);
        self.cut_nodes(0);
    }

    // Takes back the last row, if there is one.
    fn cut_row(&mut self)
        ensures { self.new ≡ record self.old { rows = take (length self.old.rows - 1) self.old.rows } }
    {
        if let Some(row) = self.rows.pop() {
            self.taken[row.flow()] = false;
            self.taken[row.across()] = false;
        }
    }

    // The rows and the laws have variables below this number alone.
    fn have_only(&self, variables: usize) -> bool
        ensures { result ≡ no_variable_from self.now variables }
    {
        rows_have_only(&self.rows, variables) && self.laws.name_drawn(variables)
    }
}

fn rows_have_only(rows: &[Row], variables: usize) -> bool
    ensures { result ≡ list_all (has_only variables) rows.now }
{
    rows.iter().all(|row| has_only(*row, variables))
}

fn rows_stand_on(rows: &[Row], nodes: usize) -> bool
    ensures { result ≡ list_all (stands_on nodes) rows.now }
{
    rows.iter().all(|row| stands_on(*row, nodes))
}

fn has_only(row: Row, variables: usize) -> bool
    ensures { result ≡ has_only variables row }
{
    row.flow() < variables && row.across() < variables
}

fn stands_on(row: Row, nodes: usize) -> bool
    ensures { result ≡ stands_on nodes row }
{
    match row {
        Row::Branch { first, second, .. } => first < nodes && second < nodes,
        Row::Earth { node, .. } => node < nodes,
    }
}
