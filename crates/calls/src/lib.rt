//! The calls that draw on a draft, each kept with its arguments: what it makes of the draft, what it makes of a
//! netlist, and why it is refused.
#![tactic(auto)]

pub mod calls;
pub mod refusals;

pub use calls::{Call, make, run};
pub use refusals::CallRefusal;
