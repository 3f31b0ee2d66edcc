//! Where a plan's things go on a draft.
ghost use Rattle.std.specs.Prelude.{◌≡◌, ◌+◌};
ghost use Rattle.place.specs.Moved.{moved_node};
ghost use Rattle.place.specs.Seats.{given, seated_row};

use assembly::plans::PlanRow;
use netlist::rows::Row;

/// The nodes that the two ends become, and how many nodes and variables there are before. Sixteen bits hold
/// these counts, and then no sum can overflow.
#[derive(Clone, Copy)]
pub struct Seat {
    pub first: usize,
    pub second: usize,
    pub nodes: u16,
    pub variables: u16,
}

impl Seat {
    fn node(self, n: u32) -> usize
        ensures { result ≡ moved_node self.nodes (given self) n }
    {
        match n {
            0 => self.first,
            1 => self.second,
            _ => usize::from(self.nodes) + (n - 2) as usize,
        }
    }

    fn variable(self, v: u32) -> usize
        ensures { result ≡ self.variables + v }
    {
        usize::from(self.variables) + v as usize
    }

    pub(crate) fn row(self, row: PlanRow) -> Row
        ensures { result ≡ seated_row self row }
    {
        match row {
            Row::Branch {
                flow,
                across,
                first,
                second,
            } => Row::Branch {
                flow: self.variable(flow),
                across: self.variable(across),
                first: self.node(first),
                second: self.node(second),
            },
            Row::Earth { flow, across, node } => Row::Earth {
                flow: self.variable(flow),
                across: self.variable(across),
                node: self.node(node),
            },
        }
    }
}
