//! The assemblies that are not built of others, and the one that holds either of two.
#![tactic(auto)]

pub mod either;
mod numbers;
pub mod single;
pub mod stored;
pub mod tables;
