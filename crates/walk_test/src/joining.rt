//! Rows are taken one by one to those before, and join the parts that they lead between.
//! Each vertex is labelled with the lowest of its part, and has its potential against that one.
ghost use Rattle.std.specs.Prelude.{◌≡◌, ◌≢◌, ◌+◌, ◌<◌, length, MatchBool, slice_index};
ghost use Rattle.quantity.specs.Group.{minus};
ghost use Rattle.network.specs.Walks.{Drawn, SomeWalkFails};
ghost use Rattle.walk_test.specs.Joining.{SettledBy, MovedBy};
ghost use Rattle.walk_test.specs.Potentials.{potential_at};
ghost use Rattle.walk_test.specs.Tested.{network_with};

use crate::across::Across;
use crate::ends::{EARTH, Ends};
use netlist::rows::Row;
use quantity::{Quantity, difference};

// The potential of a vertex. The earth point's is zero, and is not listed.
fn potential<K: Quantity>(potentials: &[K], v: usize) -> K
    requires { v < length potentials.now + 1 }
    ensures { result ≡ potential_at K.group potentials.now v }
{
    if v == EARTH {
        return K::zero();
    }
    potentials[v - 1]
}

// How far a row's reading is from the difference of the potentials at its ends.
fn gap<K: Quantity>(reading: K, ends: Ends, potentials: &[K]) -> K
    requires tail { ends.tail < length potentials.now + 1 }
    requires head { ends.head < length potentials.now + 1 }
    ensures { result ≡ minus K.group reading (minus K.group
        (potential_at K.group potentials.now ends.tail) (potential_at K.group potentials.now ends.head)) }
{
    let at_tail = potential(potentials, ends.tail);
    let at_head = potential(potentials, ends.head);
    difference(reading, difference(at_tail, at_head))
}

// Moves the part that is labelled `from` over to the part that is labelled `to`, and raises its potentials
// by `shift`. The earth's part never moves.
fn relabel<K: Quantity>(
    labels: &mut [usize],
    potentials: &mut [K],
    from: usize,
    to: usize,
    shift: K,
)
    requires vertices { length potentials.old < length labels.old }
    requires earth { slice_index labels.old 0 ≢ from }
    ensures { MovedBy K.group from to shift labels.old potentials.old labels.new potentials.new }
{
    for node in 0..potentials.len() {
        let v = node + 1;
        if labels[v] == from {
            labels[v] = to;
            potentials[node] = potentials[node].sum(shift);
        }
    }
}

// Takes row k to the rows before it. Where it leads between two parts, the one with the higher label moves,
// so that its reading fits. Where it stays inside a part its reading is tested: false says that with this row
// some closed walk does not add up to zero.
pub(crate) fn join<K: Quantity, A: Across<K>>(
    rows: &[Row],
    across: &A,
    k: usize,
    labels: &mut [usize],
    potentials: &mut [K],
) -> bool
    requires row { k < length rows.now }
    requires drawn { Drawn rows.now (length potentials.old) }
    requires vertices { length potentials.old < length labels.old }
    requires settled { SettledBy K.group (network_with rows.now (A.reading across.now)) k labels.old potentials.old }
    ensures { let R = network_with rows.now (A.reading across.now) in
        MatchBool result (SettledBy K.group R (k + 1) labels.new potentials.new) (SomeWalkFails K.group R (k + 1)) }
{
    let row = rows[k];
    let ends = Ends::of(row);
    let from = labels[ends.tail];
    let to = labels[ends.head];
    let shift = gap(across.reading(k, row), ends, potentials);
    if from == to {
        return shift.equals(K::zero());
    }
    if to < from {
        relabel(labels, potentials, from, to, shift);
    } else {
        relabel(labels, potentials, to, from, shift.negation());
    }
    true
}
