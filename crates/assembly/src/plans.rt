//! What a plan is made of, in the plan's own numbers. The two ends are its nodes 0
//! and 1, and inner node j is node 2 + j.

ghost use Rattle.std.specs.Prelude.{◌≡◌};
ghost use Rattle.assembly.specs.Meaning.{is_small};

use netlist::rows::Row;
use netlist::terms::RawTerm;

/// A row may name a node or a variable that the plan lacks: that is judged where the plan is placed.
pub type PlanRow = Row<u32>;

/// A term as it is written, before it is judged.
pub type PlanTerm = RawTerm<u32>;

/// How many ends, inner nodes, variables, rows and laws a plan has.
#[derive(Clone, Copy, PartialEq, Eq, Debug)]
pub struct Size {
    pub ends: usize,
    pub inner: usize,
    pub variables: usize,
    pub rows: usize,
    pub laws: usize,
}

impl Size {
    /// A plan has at most so many inner nodes, variables, rows and laws, of each.
    pub const MOST: usize = 6000;

    /// Whether no count is above the limit.
    pub fn is_small(self) -> bool
        ensures { result ≡ is_small self }
    {
        self.inner <= Self::MOST
            && self.variables <= Self::MOST
            && self.rows <= Self::MOST
            && self.laws <= Self::MOST
    }
}
