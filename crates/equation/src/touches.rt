//! What a row adds to the sums of the flows at its nodes.
ghost use Rattle.std.specs.Prelude.{◌≡◌};
ghost use Rattle.equation.specs.Touches.{leaves, enters};

use netlist::rows::Row;
use netlist::terms::Term;

// A term of the sum at a node.
#[derive(Clone, Copy)]
pub(crate) struct Touch {
    pub(crate) node: usize,
    pub(crate) term: Term,
}

// What a branch between two nodes adds at its first node, and an earth at its own.
pub(crate) fn leaves(row: Row) -> Option<Touch>
    ensures { result ≡ leaves row }
{
    match row {
        Row::Branch { first, second, .. } if first == second => None,
        Row::Branch {
            flow,
            first: node,
            ..
        }
        | Row::Earth { flow, node, .. } => Some(Touch {
            node,
            term: Term::value(1, flow),
        }),
    }
}

// What a branch between two nodes adds at its second node.
pub(crate) fn enters(row: Row) -> Option<Touch>
    ensures { result ≡ enters row }
{
    match row {
        Row::Branch { first, second, .. } if first == second => None,
        Row::Branch { flow, second, .. } => Some(Touch {
            node: second,
            term: Term::value(-1, flow),
        }),
        Row::Earth { .. } => None,
    }
}
