//! What the walk test answers.

/// What it finds of rows and their readings.
#[derive(Clone, Copy, PartialEq, Eq, Debug)]
pub enum Finding {
    /// Every closed walk adds up to zero.
    WalksClose,
    /// The first row with which some closed walk fails to come to zero.
    SomeWalkFails { row: usize },
}

/// Why it does not begin.
#[derive(Clone, Copy, PartialEq, Eq, Debug)]
pub enum Misfit {
    /// There are more potentials than a workspace serves.
    TooMany,
    /// The lowest row that names a node which has no potential.
    Undrawn { row: usize },
}
