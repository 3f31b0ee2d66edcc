//! Where the nodes and variables of a part go in the layer that holds it.
ghost use Rattle.std.specs.Prelude.{◌≡◌, slice_index_or};
ghost use Rattle.std.specs.Option.{option_map};
ghost use Rattle.std.specs.List.{range_with_len};
ghost use Rattle.layers.specs.Renumbered.{absent, moved_node, moved_variable, moved_row, moved_term};

use assembly::plans::{PlanRow, PlanTerm};

// What a part lacks gets this number, which no layer has a node or variable of. It is a number and no
// `None`, since a row names its nodes and variables by numbers.
const ABSENT: u32 = 10000;

/// A layer has at most 6,000 inner nodes and variables, so that sixteen bits hold their numbers.
#[derive(Clone, Copy)]
pub struct Renumbering {
    /// The layer's nodes that are the part's first and second end.
    pub first: u16,
    pub second: u16,
    /// How many inner nodes the part has, and the layer's number of the first of them.
    pub inner: u16,
    pub inner_from: u16,
    /// How many variables the part has, and the layer's number of the first of them.
    pub variables: u16,
    pub variables_from: u16,
}

// The layer's number of thing `i` of `count` things, the first of which is number `from`.
fn shifted(i: u32, count: u16, from: u16) -> u32
    ensures { result ≡ slice_index_or (range_with_len from count) i absent }
{
    if i < u32::from(count) {
        u32::from(from) + i
    } else {
        ABSENT
    }
}

impl Renumbering {
    fn node(self, number: u32) -> u32
        ensures { result ≡ moved_node self number }
    {
        match number {
            0 => u32::from(self.first),
            1 => u32::from(self.second),
            _ => shifted(number - 2, self.inner, self.inner_from),
        }
    }

    fn variable(self, number: u32) -> u32
        ensures { result ≡ moved_variable self number }
    {
        shifted(number, self.variables, self.variables_from)
    }

    fn moved_row(self, row: PlanRow) -> PlanRow
        ensures { result ≡ moved_row self row }
    {
        match row {
            PlanRow::Branch {
                flow,
                across,
                first,
                second,
            } => PlanRow::Branch {
                flow: self.variable(flow),
                across: self.variable(across),
                first: self.node(first),
                second: self.node(second),
            },
            PlanRow::Earth { flow, across, node } => PlanRow::Earth {
                flow: self.variable(flow),
                across: self.variable(across),
                node: self.node(node),
            },
        }
    }

    /// The layer's row for a row of the part, where the part has it.
    pub fn row(self, row: Option<PlanRow>) -> Option<PlanRow>
        ensures { result ≡ option_map (moved_row self) row }
    {
        row.map(|row| self.moved_row(row))
    }

    /// The layer's term for a term of the part, where the part has it.
    pub fn term(self, term: Option<PlanTerm>) -> Option<PlanTerm>
        ensures { result ≡ option_map (moved_term self) term }
    {
        term.map(|term| PlanTerm {
            variable: self.variable(term.variable),
            ..term
        })
    }
}
