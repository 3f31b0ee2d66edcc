//! The two ways in which a layer holds two parts.
ghost use Rattle.std.specs.Prelude.{◌≡◌};
ghost use Rattle.tree.specs.Ways.{front_by, back_by, joined_node, AsksRightly};

use layers::halves::Halves;
use layers::renumbering::Renumbering;

#[derive(Clone, Copy)]
pub(crate) enum Way {
    Series,
    SideBySide,
}

// The part that a layer asks for a node's domain, and the node there.
#[derive(Clone, Copy)]
pub(crate) enum Asked {
    First(usize),
    Second(usize),
}

// A node of the first part, or behind these an inner node of the second.
fn joined(parts: Halves, node: usize) -> Asked
    ensures { result ≡ joined_node parts.first node }
{
    let inner = parts.first.inner;
    if node < 2 + inner {
        Asked::First(node)
    } else {
        Asked::Second(node - inner)
    }
}

impl Way {
    pub(crate) fn front(self, parts: Halves) -> Renumbering
        ensures { result ≡ front_by self parts.first parts.second }
    {
        match self {
            Way::Series => series::front(parts),
            Way::SideBySide => side_by_side::front(parts),
        }
    }

    pub(crate) fn back(self, parts: Halves) -> Renumbering
        ensures { result ≡ back_by self parts.first parts.second }
    {
        match self {
            Way::Series => series::back(parts),
            Way::SideBySide => side_by_side::back(parts),
        }
    }

    pub(crate) fn asked(self, parts: Halves, node: usize) -> Asked
        ensures { AsksRightly self parts node result }
    {
        match self {
            Way::Series => {
                if node == 1 {
                    Asked::Second(1)
                } else if node == usize::from(series::joint(parts)) {
                    Asked::First(1)
                } else {
                    joined(parts, node)
                }
            }
            Way::SideBySide => joined(parts, node),
        }
    }
}
