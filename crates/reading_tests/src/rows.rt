//! Rows, and readings that are listed one for each.
ghost use Rattle.std.specs.Prelude.{◌≡◌};
ghost use Rattle.network.specs.Walks.{read};

use netlist::rows::Row;
use quantity::Quantity;
use walk_test::Across;

// A flow plays no part in the walk test.
pub(super) fn branch(across: usize, first: usize, second: usize) -> Row {
    Row::Branch {
        flow: 0,
        across,
        first,
        second,
    }
}

pub(super) fn earth(across: usize, node: usize) -> Row {
    Row::Earth {
        flow: 0,
        across,
        node,
    }
}

// One reading for each row, in row order.
#[derive(Clone, Copy)]
pub(super) struct ByRow<'a, K> {
    pub(super) readings: &'a [K],
}

impl<K: Quantity> Across<K> for ByRow<'_, K> {
    ghost reading = { λ across k row. read K.group across.readings.now k };

    fn reading(&self, k: usize, _row: Row) -> K {
        match self.readings.get(k) {
            Some(reading) => *reading,
            None => K::zero(),
        }
    }
}
