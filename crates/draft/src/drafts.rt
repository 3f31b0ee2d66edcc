//! A draft: what has been drawn so far.
use sheet::Tables;
use std::marker::Model;

pub mod calls;
pub mod counting;
mod judging;

/// Tables that calls fill, or refuse to fill. A draft moves: it is neither copied nor cloned.
#[derive(Drop)]
pub struct Draft {
    tables: Tables,
}

// Clauses see a draft as its netlist.
impl Model for Draft {
    ghost use Rattle.netlist.specs.Netlist.{Netlist};

    ghost Value = { Netlist };

    ghost view = { λ d. d.tables };
}
