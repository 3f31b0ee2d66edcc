//! What a program prints of a sheet text: the equations that it stands for, or its fault.
#![tactic(auto)]

mod sheets;
mod texts;

pub use sheets::print_sheet;
pub use texts::{print_fault, print_text};
