//! What flows out of a node, and out of a set of nodes.
ghost use Rattle.std.specs.Prelude.{◌≡◌, ℕ, Bool};
ghost use Rattle.netlist.specs.Flags.{flag_up};
ghost use Rattle.netlist.specs.Rows.{flow_of};
ghost use Rattle.network.specs.Flows.{crossing, leaves, net_flow, excess};
ghost use Rattle.network.specs.Walks.{read, Drawn};
ghost use Rattle.reading_sums.specs.Sets.{IsTestOf, excesses};

use crate::lookup::reading;
use netlist::rows::Row;
use quantity::Quantity;

// What a flow brings out of a set: itself if only its start is inside, its negation if only its end is.
fn crossing<K: Quantity>(start_inside: bool, end_inside: bool, flow: K) -> K
    ensures { result ≡ crossing K.group start_inside end_inside flow }
{
    match (start_inside, end_inside) {
        (true, false) => flow,
        (false, true) => flow.negation(),
        _ => K::zero(),
    }
}

// What a row brings out of the set that a test tells. The earth is in no such set.
fn leaves<K: Quantity, F: Fn(usize) -> bool>(row: Row, values: &[K], is_inside: &F) -> K
    requires { F.IsAlwaysCallable is_inside.now }
    ensures { (inside : ℕ → Bool) → IsTestOf inside (F.post is_inside.now)
        → result ≡ leaves K.group inside row (read K.group values.now (flow_of row)) }
{
    let flow = reading(values, row.flow());
    match row {
        Row::Branch { first, second, .. } => crossing(is_inside(first), is_inside(second), flow),
        Row::Earth { node, .. } => crossing(is_inside(node), false, flow),
    }
}

// What flows out of the set that a test tells.
fn flow_out<K: Quantity, F: Fn(usize) -> bool>(rows: &[Row], values: &[K], is_inside: F) -> K
    requires { F.IsAlwaysCallable is_inside }
    ensures { (inside : ℕ → Bool) → IsTestOf inside (F.post is_inside)
        → result ≡ net_flow K.group rows.now values.now inside }
{
    let mut sum = K::zero();
    for k in 0..rows.len() {
        sum = sum.sum(leaves(rows[k], values, &is_inside));
    }
    sum
}

/// What flows out of a node.
pub fn node_excess<K: Quantity>(rows: &[Row], values: &[K], node: usize) -> K
    ensures { result ≡ excess K.group rows.now values.now node }
{
    flow_out(rows, values, |other| other == node)
}

/// What flows out of the set of the marked nodes, which is the sum of their excesses. A node without a mark of
/// its own is not in the set.
pub fn net_flow<K: Quantity>(rows: &[Row], values: &[K], marks: &[bool]) -> K
    ensures value { result ≡ net_flow K.group rows.now values.now (flag_up marks.now) }
    ensures added { (n : ℕ) → Drawn rows.now n → result ≡ excesses K.group rows.now values.now (flag_up marks.now) n }
{
    flow_out(
        rows,
        values,
        |node| marks.get(node).copied().unwrap_or(false),
    )
}
