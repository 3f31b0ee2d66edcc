//! A row of a netlist. Nodes and variables go by their numbers.
ghost use Rattle.std.specs.Prelude.{◌≡◌};
ghost use Rattle.netlist.specs.Rows.{flow_of, across_of};

/// A branch leads from its first node to its second, an earth from its node to the one common earth
/// point. Each row has a flow variable and an across variable. What numbers them is a parameter, since a
/// plan's nodes and variables are numbered more narrowly than a sheet's.
#[derive(Clone, Copy, PartialEq, Eq, Debug)]
pub enum Row<N = usize> {
    Branch {
        flow: N,
        across: N,
        first: N,
        second: N,
    },
    Earth {
        flow: N,
        across: N,
        node: N,
    },
}

impl<N: Copy> Row<N> {
    /// Its flow variable.
    pub fn flow(self) -> N
        ensures { result ≡ flow_of self }
    {
        match self {
            Row::Branch { flow, .. } | Row::Earth { flow, .. } => flow,
        }
    }

    /// Its across variable.
    pub fn across(self) -> N
        ensures { result ≡ across_of self }
    {
        match self {
            Row::Branch { across, .. } | Row::Earth { across, .. } => across,
        }
    }
}

// A row that is numbered narrowly, in the numbers of a sheet.
impl From<Row<u32>> for Row<usize> {
    ghost from_gives = { λ narrow row. row ≡ narrow };

    fn from(row: Row<u32>) -> Row<usize> {
        match row {
            Row::Branch {
                flow,
                across,
                first,
                second,
            } => Row::Branch {
                flow: flow as usize,
                across: across as usize,
                first: first as usize,
                second: second as usize,
            },
            Row::Earth { flow, across, node } => Row::Earth {
                flow: flow as usize,
                across: across as usize,
                node: node as usize,
            },
        }
    }
}
