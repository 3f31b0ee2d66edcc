//! Kinds of exact quantity, and what holds of every kind.
#![tactic(auto)]

mod differences;
mod kind;
mod numbers;
mod phasors;
mod totals;
mod wholes;

pub use differences::difference;
pub use kind::Quantity;
pub use numbers::{Phasor, Whole};
pub use totals::{multiple_of_total, total};
