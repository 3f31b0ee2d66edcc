//! What a law comes to.
ghost use Rattle.std.specs.Prelude.{◌≡◌};
ghost use Rattle.network.specs.Laws.{of_order, law_sum};
ghost use Rattle.network.specs.Walks.{read};
ghost use Rattle.reading_sums.specs.Given.{given};

use crate::lookup::reading;
use crate::readings::Readings;
use netlist::terms::{Order, Term};
use quantity::Quantity;

/// The value or the rate that a term takes.
pub fn value_or_rate<K: Quantity>(term: Term, readings: Readings<K>) -> K
    ensures { result ≡ read K.group (of_order term.order (given readings.entry)) term.variable }
{
    match term.order {
        Order::Value => reading(readings.values, term.variable),
        Order::Rate => reading(readings.rates, term.variable),
    }
}

/// The sum, over the terms of a law, of coefficient times value or rate.
pub fn law_sum<K: Quantity>(law: &[Term], readings: Readings<K>) -> K
    ensures { result ≡ law_sum K.group law.now (given readings.entry) }
{
    let mut sum = K::zero();
    for term in law {
        sum = sum.sum(value_or_rate(*term, readings).multiple(term.coefficient));
    }
    sum
}
