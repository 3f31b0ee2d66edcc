//! The excesses of all nodes, in one pass over the rows.
ghost use Rattle.std.specs.Prelude.{◌≡◌, [], length};
ghost use Rattle.reading_sums.specs.Excesses.{AddedAt, AddedRow, AreExcesses};

use crate::lookup::reading;
use netlist::rows::Row;
use quantity::Quantity;

// Sets every sum to zero, which is the excess where there are no rows.
fn clear<K: Quantity>(sums: &mut [K])
    ensures long { length sums.new ≡ length sums.old }
    ensures none { AreExcesses K.group [] [] sums.new }
{
    for sum in sums.iter_mut() {
        *sum = K::zero();
    }
}

// Adds a flow to the sum at a node, if the list has one.
fn add_at<K: Quantity>(sums: &mut [K], node: usize, flow: K)
    ensures long { length sums.new ≡ length sums.old }
    ensures added { AddedAt K.group node flow sums.old sums.new }
{
    if node < sums.len() {
        sums[node] = sums[node].sum(flow);
    }
}

// Adds what a row with this flow brings out of each node.
fn add_row<K: Quantity>(sums: &mut [K], row: Row, flow: K)
    ensures long { length sums.new ≡ length sums.old }
    ensures added { AddedRow K.group row flow sums.old sums.new }
{
    match row {
        Row::Branch { first, second, .. } => {
            add_at(sums, first, flow);
            add_at(sums, second, flow.negation());
        }
        Row::Earth { node, .. } => add_at(sums, node, flow),
    }
}

/// Puts what flows out of each node at its place, as `node_excess` says of one. Nodes past the list are left out,
/// and what the list held before is of no matter.
pub fn put_excesses<K: Quantity>(rows: &[Row], values: &[K], sums: &mut [K])
    ensures long { length sums.new ≡ length sums.old }
    ensures excesses { AreExcesses K.group rows.now values.now sums.new }
{
    clear(sums);
    for row in rows {
        add_row(sums, *row, reading(values, row.flow()));
    }
}
