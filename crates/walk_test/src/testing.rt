//! The walk test of rows and their readings.
ghost use Rattle.std.specs.Prelude.{◌≡◌, ◌<◌, length};
ghost use Rattle.network.specs.Walks.{Drawn};
ghost use Rattle.walk_test.specs.Tested.{network_with, Found, Tested, OneAnswer};

use crate::across::Across;
use crate::findings::{Finding, Misfit};
use crate::joining::join;
use crate::judging::judge;
use crate::starting::{clear, start};
use crate::workspaces::Workspace;
use netlist::rows::Row;
use quantity::Quantity;

// Takes the rows in order, up to the first with which some closed walk does not add up to zero.
fn take_rows<K: Quantity, A: Across<K>>(
    rows: &[Row],
    across: &A,
    labels: &mut [usize],
    potentials: &mut [K],
) -> Finding
    requires drawn { Drawn rows.now (length potentials.old) }
    requires vertices { length potentials.old < length labels.old }
    ensures { Found K.group (network_with rows.now (A.reading across.now)) (length rows.now) potentials.new result }
{
    start(labels, potentials);
    for k in 0..rows.len() {
        if !join(rows, across, k, labels, potentials) {
            clear(potentials);
            return Finding::SomeWalkFails { row: k };
        }
    }
    Finding::WalksClose
}

/// Tells whether every closed walk along the rows adds up to zero. If so, the potentials are filled, one for
/// each node: they satisfy the rows, with zero at the earth point and at the lowest node of each part without
/// an earth, and nothing else does. If not, they are all zero. A misfit changes nothing.
pub fn test_walks<K: Quantity, A: Across<K>>(
    rows: &[Row],
    across: &A,
    potentials: &mut [K],
    workspace: &mut Workspace,
) -> Result<Finding, Misfit>
    ensures { let R = network_with rows.now (A.reading across.now) in
        Tested K.group rows.now R potentials.old potentials.new result }
{
    judge(rows, potentials.len())?;
    Ok(take_rows(rows, across, &mut workspace.labels, potentials))
}

/// `test_walks` is left no choice: rows and their readings have one answer, and one list of potentials goes
/// with it. This computes nothing: the theorem is the contract.
pub fn one_answer<K: Quantity>()
    ensures { OneAnswer K.group }
{}
