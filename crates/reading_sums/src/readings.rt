//! The readings that sums are taken of.

/// What is read of a sheet's variables.
#[derive(Clone, Copy)]
pub struct Readings<'a, K> {
    /// The value of each variable, by its number.
    pub values: &'a [K],
    /// The rate of each variable, by its number.
    pub rates: &'a [K],
}
