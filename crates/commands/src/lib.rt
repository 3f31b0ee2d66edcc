//! What the lines of a sheet text command, as numbers that borrow nothing.
#![tactic(auto)]

mod command;
mod next;
mod read;
mod terms;
mod values;

pub use command::Command;
pub use read::{command_of, read_command};
pub use terms::Terms;
