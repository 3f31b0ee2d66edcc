//! A layer of two parts.
ghost use Rattle.std.specs.Prelude.{◌+◌, ◌≤◌};
ghost use Rattle.assembly.specs.Plans.{most_of_plan};

use super::renumbering::Renumbering;
use assembly::plans::Size;

/// What the two parts of a layer have, and what the layer has. Sixteen bits hold the layer's numbers.
#[derive(Clone, Copy)]
pub struct Halves {
    pub first: Size,
    pub second: Size,
    pub whole: Size,
    ghost few_inner: { first.inner + second.inner ≤ most_of_plan },
    ghost few_variables: { first.variables + second.variables ≤ most_of_plan },
}

impl Halves {
    ghost use Rattle.std.specs.Prelude.{◌≡◌};
    ghost use Rattle.layers.specs.Two.{SmallHalves, front_between, back_between};

    /// The parts together with the joints between them, which are inner nodes of the layer; `None` where
    /// the layer would have too much.
    pub fn new(first: Size, second: Size, joints: u32) -> Option<Halves>
        ensures { SmallHalves joints first second result }
    {
        if !first.is_small() || !second.is_small() {
            return None;
        }
        let whole = Size {
            ends: 2,
            inner: first.inner + second.inner + joints as usize,
            variables: first.variables + second.variables,
            rows: first.rows + second.rows,
            laws: first.laws + second.laws,
        };
        if !whole.is_small() {
            return None;
        }
        Some(Halves {
            first,
            second,
            whole,
        })
    }

    /// Where the first part's things go, between these nodes of the layer.
    pub fn front(self, first: u16, second: u16) -> Renumbering
        ensures { result ≡ front_between first second self.first }
    {
        Renumbering {
            first,
            second,
            inner: self.first.inner as u16,
            inner_from: 2,
            variables: self.first.variables as u16,
            variables_from: 0,
        }
    }

    /// Where the second part's things go, between these nodes: behind the first part's.
    pub fn back(self, first: u16, second: u16) -> Renumbering
        ensures { result ≡ back_between first second self.first self.second }
    {
        Renumbering {
            first,
            second,
            inner: self.second.inner as u16,
            inner_from: (2 + self.first.inner) as u16,
            variables: self.second.variables as u16,
            variables_from: self.first.variables as u16,
        }
    }
}
