//! The vocabulary of a netlist: domains, rows, terms and limits.
#![tactic(auto)]

pub mod domains;
pub mod limits;
pub mod rows;
pub mod spans;
pub mod terms;
