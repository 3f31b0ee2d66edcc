//! Whole numbers modulo 2^64 are a kind of quantity.
ghost use Rattle.std.specs.Prelude.{◌≡◌};
ghost use Rattle.quantity.specs.Integers.{integers};
ghost use Rattle.quantity.specs.Maps.{Respects};
ghost use Rattle.quantity.specs.Wholes.{whole, wholes, Modular, ExactTotals};

use super::kind::Quantity;
use super::numbers::Whole;

impl Whole {
    /// The whole number of an integer. Every integer has one, the same for those that differ by a multiple of 2^64,
    /// and sums, negations and multiples of integers go to those of their whole numbers. So only the end of a
    /// computation has to fit.
    pub fn new(value: i64) -> Whole
        ensures value { result.value ≡ value }
        ensures image { result ≡ whole value }
        ensures map { Respects integers wholes whole }
        ensures modular { Modular }
        ensures exact { ExactTotals }
    {
        Whole { value }
    }
}

impl Quantity for Whole {
    ghost group = { wholes };

    fn zero() -> Whole {
        Whole { value: 0 }
    }

    fn sum(self, other: Whole) -> Whole {
        Whole {
            value: self.value.wrapping_add(other.value),
        }
    }

    fn negation(self) -> Whole {
        Whole {
            value: self.value.wrapping_neg(),
        }
    }

    fn multiple(self, coefficient: i32) -> Whole {
        Whole {
            value: i64::from(coefficient).wrapping_mul(self.value),
        }
    }

    fn equals(self, other: Whole) -> bool {
        self == other
    }
}
