//! A third kind of quantity, as an example: a change of a two-way switch.
#![tactic(auto)]

ghost use Rattle.quantity_example.specs.Switches.{switches};

use quantity::Quantity;

/// Whether the switch is turned over. The sum of two is one after the other: to turn twice is to leave it.
#[derive(Clone, Copy, PartialEq, Eq, Debug)]
pub struct Switch {
    pub turned: bool,
}

impl Quantity for Switch {
    ghost group = { switches };

    fn zero() -> Switch {
        Switch { turned: false }
    }

    fn sum(self, other: Switch) -> Switch {
        Switch {
            turned: self.turned ^ other.turned,
        }
    }

    // To turn it back is to turn it over once more.
    fn negation(self) -> Switch {
        Switch {
            turned: self.turned,
        }
    }

    // To turn it twice, or four times, is to leave it, and so only an odd number counts.
    fn multiple(self, coefficient: i32) -> Switch {
        let odd = coefficient.unsigned_abs() % 2 == 1;
        Switch {
            turned: odd & self.turned,
        }
    }

    fn equals(self, other: Switch) -> bool {
        self == other
    }
}
