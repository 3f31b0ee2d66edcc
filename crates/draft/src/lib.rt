//! Drafts of plant sheets: the calls that fill one, and why a call is refused.
#![tactic(auto)]

pub mod drafts;
pub mod laws;
pub mod refusals;
pub mod rows;
pub mod settings;

pub use drafts::Draft;
pub use refusals::{Argument, DraftRefusal, Table};
