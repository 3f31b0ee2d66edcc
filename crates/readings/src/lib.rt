//! What the listed equations of a netlist come to, once readings and potentials are put into them, for every
//! kind of quantity.
#![tactic(auto)]

ghost use Rattle.std.specs.Prelude.{◌≡◌};
ghost use Rattle.network.specs.Walks.{read};
ghost use Rattle.reading_sums.specs.Given.{given};
ghost use Rattle.readings.specs.Agreement.{EquationsByPart, EquationsAgree};
ghost use Rattle.readings.specs.Readings.{term_reading, equation_sum};
ghost use Rattle.readings.specs.Turned.{EquationsTurn};

use netlist::terms::Term;
use quantity::Quantity;
use reading_sums::{Readings, reading, value_or_rate};

// What a term of an equation reads: of so many variables the value or the rate of one, or else the potential
// of a node.
fn term_reading<K: Quantity>(
    term: Term,
    variables: usize,
    readings: Readings<K>,
    potentials: &[K],
) -> K
    ensures { result ≡
        term_reading K.group variables (given readings.entry) (read K.group potentials.now) term }
{
    if term.variable < variables {
        value_or_rate(term, readings)
    } else {
        reading(potentials, term.variable - variables)
    }
}

/// What an equation of a netlist with so many variables comes to. A reading or a potential that a list lacks
/// counts as zero.
pub fn equation_sum<K: Quantity>(
    equation: &[Term],
    variables: usize,
    readings: Readings<K>,
    potentials: &[K],
) -> K
    ensures value { result ≡
        equation_sum K.group variables (given readings.entry) (read K.group potentials.now) equation.now }
    ensures by_part { EquationsByPart K.group }
    ensures agree { EquationsAgree K.group }
{
    let mut sum = K::zero();
    for term in equation {
        let read = term_reading(*term, variables, readings, potentials);
        sum = sum.sum(read.multiple(term.coefficient));
    }
    sum
}

/// Potentials satisfy all equations of two netlists that are alike, or of neither. This computes nothing: the
/// theorem is the contract.
pub fn equations_turn<K: Quantity>()
    ensures { EquationsTurn K.Quantity.group }
{}
