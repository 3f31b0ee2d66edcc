//! The equations that a sheet stands for: listed into lent buffers, and printed line by line.
#![tactic(auto)]

mod cursors;
pub mod lines;
pub mod listing;
mod nodes;
pub mod refusals;
mod rows;
mod touches;
mod writing;

pub use refusals::EquationRefusal;
