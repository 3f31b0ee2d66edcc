//! The tables of a netlist. A step tests for itself whether it can be made, and answers whether it was.
use crate::laws::LawTable;
use netlist::domains::Domain;
use netlist::rows::Row;
use std::marker::Model;

mod adding;
mod asking;
mod cutting;

/// The nodes, variables, rows and laws that are drawn. Each table has room for all that the limits allow, so
/// no step runs out of memory. Tables move: they are neither copied nor cloned.
// `taken` has a flag for each variable, up where a row has it.
#[derive(Drop)]
pub struct Tables {
    domains: Vec<Domain>,
    taken: Vec<bool>,
    rows: Vec<Row>,
    laws: LawTable,
}

// Clauses see tables as their netlist.
impl Model for Tables {
    ghost use Rattle.netlist.specs.Netlist.{Netlist};

    ghost Value = { Netlist };

    ghost use Rattle.sheet.specs.Held.{netlist_of, Kept};

    ghost view = { netlist_of };

    ghost invariant = { Kept };
}
