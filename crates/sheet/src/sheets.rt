//! A sheet: tables that can only be read.
ghost use Rattle.std.specs.Prelude.{◌≡◌, length};
ghost use Rattle.netlist.specs.Netlist.{empty};
ghost use Rattle.netlist.specs.Sound.{Sound};
ghost use Rattle.sheet.specs.Views.{laws_in};

use crate::tables::Tables;
use crate::views::LawView;
use netlist::rows::Row;
use std::marker::Model;

/// A sheet moves as tables do. There is no way from a sheet back to drawing on what it shows.
#[derive(Drop)]
pub struct Sheet {
    tables: Tables,
}

// Clauses see a sheet as its netlist too.
impl Model for Sheet {
    ghost use Rattle.netlist.specs.Netlist.{Netlist};

    ghost Value = { Netlist };

    ghost view = { λ s. s.tables };
}

impl Sheet {
    /// The sheet of what is drawn.
    pub fn new(tables: Tables) -> Sheet
        ensures { result ≡ tables }
    {
        Sheet { tables }
    }

    /// Puts other tables in, and answers those that were there, emptied: their memory is used again, and what was
    /// issued is not drawn on.
    pub fn replace(&mut self, tables: Tables) -> Tables
        ensures answer { result ≡ empty }
        ensures netlist { self.new ≡ tables }
    {
        let mut before = std::mem::replace(&mut self.tables, tables);
        before.clear();
        before
    }

    /// Gives the sheet up for its memory, with nothing drawn in it.
    pub fn into_emptied(self) -> Tables
        ensures { result ≡ empty }
    {
        let Sheet { mut tables } = self;
        tables.clear();
        tables
    }

    /// The tables, to be asked and not drawn on.
    pub fn tables(&self) -> &Tables
        ensures { result.now ≡ self.now }
    {
        &self.tables
    }

    /// How many nodes there are.
    pub fn nodes(&self) -> usize
        ensures { result ≡ length self.now.domains }
    {
        self.tables.counts().nodes
    }

    /// How many variables there are.
    pub fn variables(&self) -> usize
        ensures { result ≡ self.now.variables }
    {
        self.tables.counts().variables
    }

    /// The rows, with what every sheet keeps to.
    pub fn rows(&self) -> &[Row]
        ensures value { result.now ≡ self.now.rows }
        ensures sound { Sound self.now }
    {
        self.tables.rows()
    }

    /// The laws, one after another.
    pub fn laws(&self) -> LawView<'_>
        ensures { laws_in result ≡ self.now.laws }
    {
        self.tables.laws()
    }
}
