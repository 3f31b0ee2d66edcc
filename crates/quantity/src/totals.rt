//! Sums of many quantities, of any kind.
ghost use Rattle.std.specs.Prelude.{◌≡◌, map};
ghost use Rattle.quantity.specs.Derived.{Multiples};
ghost use Rattle.quantity.specs.Totals.{total, Totals};

use super::kind::Quantity;

/// The sum of all, and zero of none. Their order does not matter, nor in how many parts they are added up.
pub fn total<K: Quantity>(quantities: &[K]) -> K
    ensures value { result ≡ total K.group quantities.now }
    ensures totals { Totals K.group }
{
    quantities
        .iter()
        .fold(K::zero(), |sum, quantity| sum.sum(*quantity))
}

/// The sum of the multiples of all, by a single multiple.
pub fn multiple_of_total<K: Quantity>(coefficient: i32, quantities: &[K]) -> K
    ensures value { result ≡ total K.group (map (K.group.multiple coefficient) quantities.now) }
    ensures multiples { Multiples K.group }
{
    total(quantities).multiple(coefficient)
}
