//! What follows the letter of a line.
ghost use Rattle.std.specs.Prelude.{◌≤◌, length};

use netlist::limits::MOST_TERMS;

/// What a field holds: only a coefficient may have a minus in front.
#[derive(Clone, Copy)]
pub enum Kind {
    /// One to seven digits.
    Number,
    /// The same, or a minus and the same.
    Coefficient,
}

// One to `most` groups of fields of these kinds, of which a group has one at least.
#[derive(Clone, Copy)]
pub(crate) struct Shape {
    pub(crate) kinds: &'static [Kind],
    pub(crate) most: usize,
    ghost some: { (1 ≤ length kinds.now) × (1 ≤ most) },
}

// Of a node and of variables.
pub(crate) const VALUE: Shape = Shape {
    kinds: &[Kind::Number],
    most: 1,
};

pub(crate) const BRANCH: Shape = Shape {
    kinds: &[Kind::Number, Kind::Number, Kind::Number, Kind::Number],
    most: 1,
};

pub(crate) const EARTH: Shape = Shape {
    kinds: &[Kind::Number, Kind::Number, Kind::Number],
    most: 1,
};

// A law has a group for each term.
pub(crate) const LAW: Shape = Shape {
    kinds: &[Kind::Coefficient, Kind::Number, Kind::Number],
    most: MOST_TERMS,
};

pub(crate) const REPEAT: Shape = Shape {
    kinds: &[
        Kind::Number,
        Kind::Coefficient,
        Kind::Coefficient,
        Kind::Coefficient,
        Kind::Coefficient,
        Kind::Number,
        Kind::Number,
        Kind::Number,
    ],
    most: 1,
};
