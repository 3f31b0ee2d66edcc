//! A reading by its number.
ghost use Rattle.std.specs.Prelude.{◌≡◌};
ghost use Rattle.network.specs.Walks.{read};

use quantity::Quantity;

/// The reading of a variable, or the potential of a node: zero where the list has none.
pub fn reading<K: Quantity>(readings: &[K], number: usize) -> K
    ensures { result ≡ read K.group readings.now number }
{
    readings.get(number).copied().unwrap_or(K::zero())
}
