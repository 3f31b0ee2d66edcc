//! Where the walk test starts: no row is taken yet.
ghost use Rattle.std.specs.Prelude.{◌≡◌, ◌<◌, length, replicate, EachIndex, slice_index};
ghost use Rattle.network.specs.Walks.{Network};
ghost use Rattle.walk_test.specs.Joining.{SettledBy};

use quantity::Quantity;

/// Sets every potential to zero.
pub fn clear<K: Quantity>(potentials: &mut [K])
    ensures { potentials.new ≡ replicate (length potentials.old) K.group.zero }
{
    for potential in potentials.iter_mut() {
        *potential = K::zero();
    }
}

// Makes each vertex a part of its own.
fn set_apart(labels: &mut [usize])
    ensures { EachIndex labels.new (λ v. slice_index labels.new v ≡ v) }
{
    for (v, label) in labels.iter_mut().enumerate() {
        *label = v;
    }
}

// Takes no row yet: each vertex is a part of its own, at zero.
pub(crate) fn start<K: Quantity>(labels: &mut [usize], potentials: &mut [K])
    requires { length potentials.old < length labels.old }
    ensures { (R : Network K) → SettledBy K.group R 0 labels.new potentials.new }
{
    set_apart(labels);
    clear(potentials);
}
