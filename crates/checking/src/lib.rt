//! Whether readings agree with an issued sheet, and the potentials if they do.
#![tactic(auto)]

mod checks;
mod counts;
mod refusals;
mod searching;
mod verdicts;

pub use checks::{check, one_verdict};
pub use refusals::CheckRefusal;
pub use verdicts::Verdict;
