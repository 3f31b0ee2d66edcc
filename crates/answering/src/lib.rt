//! What a program answers to a sheet text and to readings of the sheet.
#![tactic(auto)]

mod accepted;
mod answers;
mod faults;
mod potentials;
mod verdicts;

pub use accepted::print_accepted;
pub use answers::answer;
pub use faults::AnswerFault;
pub use potentials::print_potentials;
pub use verdicts::print_verdict;
