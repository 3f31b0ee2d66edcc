//! Parts of tables.

/// A part of a table: where it begins, and how many entries it has.
#[derive(Clone, Copy, PartialEq, Eq, Debug)]
pub struct Span {
    /// The place of its first entry.
    pub offset: usize,
    /// How many entries it has.
    pub length: usize,
}
