//! Why equations are not listed or printed.
ghost use Rattle.std.specs.Prelude.{◌≡◌, Some};
ghost use Rattle.refusal.specs.Text.{refusal_text};
ghost use Rattle.equation.specs.Refusals.{number_of, place_of, cause_of};

use refusal::Refuses;
use spelling::WriteRefusal;
use std::fmt;

/// Why equations are not listed, or one of them is not printed. The place and the cause are always 0.
#[derive(Clone, Copy, PartialEq, Eq, Debug)]
pub enum EquationRefusal {
    /// A buffer is too short.
    ShortBuffer,
    /// There is no equation of this number.
    NoEquation,
}

impl From<WriteRefusal> for EquationRefusal {
    ghost use Rattle.std.specs.Prelude.{◌≡◌};
    ghost use Rattle.equation.specs.Refusals.{of_write};

    ghost from_gives = { λ inner why. why ≡ of_write inner };

    fn from(inner: WriteRefusal) -> EquationRefusal {
        match inner {
            WriteRefusal::ShortBuffer => EquationRefusal::ShortBuffer,
        }
    }
}

impl Refuses for EquationRefusal {
    ghost number = { number_of };

    ghost place = { place_of };

    ghost cause = { cause_of };

    fn number(&self) -> u32 {
        match self {
            EquationRefusal::ShortBuffer => 13,
            EquationRefusal::NoEquation => 15,
        }
    }

    fn place(&self) -> usize {
        0
    }

    fn cause(&self) -> u32 {
        0
    }
}

impl fmt::Display for EquationRefusal {
    ghost output = { λ why. Some (refusal_text (number_of why) (place_of why) (cause_of why)) };

    fn fmt<W: fmt::Write>(&self, f: &mut fmt::Formatter<W>) -> fmt::Result {
        self.tell(f)
    }
}

impl std::error::Error for EquationRefusal {}
