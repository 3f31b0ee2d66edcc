//! Lines of bytes, written into a buffer of the caller's: an equation, the header above a list of them, and numbers
//! behind a word.
#![tactic(auto)]

mod decimals;
pub mod headers;
pub mod lines;
pub mod numbers;
pub mod refusals;
mod sinks;
mod sums;
mod symbols;
mod terms;
mod texts;

pub use refusals::WriteRefusal;
