//! What a check says of readings.

/// What a check says of readings. A law that fails is told before a node, and a node before a row.
#[derive(Clone, Copy, PartialEq, Eq, Debug)]
pub enum Verdict {
    /// They agree with the sheet.
    Holds,
    /// The lowest law that fails.
    Law { law: usize },
    /// The lowest node that has an excess.
    Node { node: usize },
    /// The first row with which some closed walk fails to come to zero.
    Row { row: usize },
}
