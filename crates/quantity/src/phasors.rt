//! Phasors are a kind of quantity, part by part.
ghost use Rattle.std.specs.Prelude.{◌≡◌};
ghost use Rattle.quantity.specs.Maps.{Respects};
ghost use Rattle.quantity.specs.Phasors.{phasor, phasors, points};

use super::kind::Quantity;
use super::numbers::{Phasor, Whole};

impl Phasor {
    /// The phasor of two integers, as `Whole::new` in each part.
    pub fn new(real: i64, imaginary: i64) -> Phasor
        ensures parts { (result.real.value ≡ real) × (result.imaginary.value ≡ imaginary) }
        ensures image { result ≡ phasor (record { real = real; imaginary = imaginary }) }
        ensures map { Respects points phasors phasor }
    {
        Phasor {
            real: Whole::new(real),
            imaginary: Whole::new(imaginary),
        }
    }
}

impl Quantity for Phasor {
    ghost group = { phasors };

    fn zero() -> Phasor {
        Phasor {
            real: Whole::zero(),
            imaginary: Whole::zero(),
        }
    }

    fn sum(self, other: Phasor) -> Phasor {
        Phasor {
            real: self.real.sum(other.real),
            imaginary: self.imaginary.sum(other.imaginary),
        }
    }

    fn negation(self) -> Phasor {
        Phasor {
            real: self.real.negation(),
            imaginary: self.imaginary.negation(),
        }
    }

    fn multiple(self, coefficient: i32) -> Phasor {
        Phasor {
            real: self.real.multiple(coefficient),
            imaginary: self.imaginary.multiple(coefficient),
        }
    }

    fn equals(self, other: Phasor) -> bool {
        self == other
    }
}
