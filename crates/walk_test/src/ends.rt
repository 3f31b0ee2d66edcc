//! The vertices that a row leads between. Vertex 0 is the common earth point, and vertex n + 1 is node n.
ghost use Rattle.std.specs.Prelude.{◌≡◌, ◌^◌, ◌<◌};
ghost use Rattle.network.specs.Walks.{tail_of, head_of};
ghost use Rattle.netlist.specs.Rows.{stands_on};

use netlist::rows::Row;

// There is one earth point for all earths.
pub(crate) const EARTH: usize = 0;

// A row leads from its tail to its head.
#[derive(Clone, Copy)]
pub(crate) struct Ends {
    pub tail: usize,
    pub head: usize,
}

impl Ends {
    pub(crate) fn of(row: Row) -> Ends
        requires tail { tail_of row < 2 ^ 64 }
        requires head { head_of row < 2 ^ 64 }
        ensures tail { result.tail ≡ tail_of row }
        ensures head { result.head ≡ head_of row }
    {
        match row {
            Row::Branch { first, second, .. } => Ends {
                tail: first + 1,
                head: second + 1,
            },
            Row::Earth { node, .. } => Ends {
                tail: node + 1,
                head: EARTH,
            },
        }
    }
}

// Whether the row names none but the first `nodes` nodes.
pub(crate) fn stands_on(row: Row, nodes: usize) -> bool
    ensures { result ≡ stands_on nodes row }
{
    match row {
        Row::Branch { first, second, .. } => first < nodes && second < nodes,
        Row::Earth { node, .. } => node < nodes,
    }
}
