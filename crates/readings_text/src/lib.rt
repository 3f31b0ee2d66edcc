//! Readings as a text: a line for each variable, with its value and its rate.
#![tactic(auto)]

mod faults;
mod lines;
mod numbers;
mod reading;

pub use faults::ReadingsFault;
pub use lines::Reading;
pub use reading::read_readings;
