//! Where the across readings of rows come from.
ghost use Rattle.std.specs.Prelude.{◌≡◌, ℕ};
ghost use Rattle.netlist.specs.Rows.{across_of};
ghost use Rattle.netlist.specs.declared.rows.Row.{Row};
ghost use Rattle.network.specs.Walks.{read};

use netlist::rows::Row;
use quantity::Quantity;

/// Readings from which each row has its across reading, told by the row's number and by the row.
pub trait Across<K> {
    ghost reading: { Self → ℕ → Row ℕ → K };

    /// The reading of row `k`, which is `row`.
    fn reading(&self, k: usize, row: Row) -> K
        ensures { result ≡ reading self.now k row };
}

/// One reading for each variable: a row has the reading of its across variable. A variable beyond the list
/// reads zero.
#[derive(Clone, Copy)]
pub struct ByVariable<'a, K> {
    /// The value of each variable, by its number.
    pub values: &'a [K],
}

impl<K: Quantity> Across<K> for ByVariable<'_, K> {
    ghost reading = { λ across k row. read K.group across.values.now (across_of row) };

    fn reading(&self, _k: usize, row: Row) -> K {
        match self.values.get(row.across()) {
            Some(value) => *value,
            None => K::zero(),
        }
    }
}
