//! The walk test: whether every closed walk along rows adds up to zero, and the potentials if so.
#![tactic(auto)]

mod across;
mod ends;
mod findings;
mod joining;
mod judging;
mod starting;
mod testing;
mod workspaces;

pub use across::{Across, ByVariable};
pub use findings::{Finding, Misfit};
pub use starting::clear;
pub use testing::{one_answer, test_walks};
pub use workspaces::Workspace;
