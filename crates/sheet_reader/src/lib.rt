//! A sheet text is read into a draft: each line is drawn as the call that it commands, up to the first fault.
#![tactic(auto)]

mod drawing;
mod faults;
mod reading;

pub use drawing::draw;
pub use faults::{FAULT_BYTES, TextFault, write_fault};
pub use reading::read;
