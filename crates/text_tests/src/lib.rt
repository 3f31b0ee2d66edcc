//! Tests of sheet texts: a walk over a whole text, tables of lines with what is read from each, and tables of texts
//! with what is drawn and printed of each. And a table of texts of readings, with what is read of each.
#![tactic(auto)]

#[cfg(test)]
mod faults;
#[cfg(test)]
mod limits;
#[cfg(test)]
mod lines;
#[cfg(test)]
mod readings;
#[cfg(test)]
mod sheets;
pub mod whole;
