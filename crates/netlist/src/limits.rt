//! How much a netlist may have of each thing.

/// There are at most so many nodes.
pub const MAX_NODES: usize = 1000;

/// There are at most so many variables.
pub const MAX_VARIABLES: usize = 4000;

/// There are at most so many rows.
pub const MAX_ROWS: usize = 1500;

/// There are at most so many laws.
pub const MAX_LAWS: usize = 1500;

/// All laws together have at most so many terms.
pub const MAX_TERMS: usize = 6000;

/// A law has one to so many terms.
pub const MOST_TERMS: usize = 8;

/// The size of a coefficient is from 1 to this.
pub const MAX_COEFFICIENT: u64 = 1_000_000;
