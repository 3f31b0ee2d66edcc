//! Why a check is refused.
ghost use Rattle.std.specs.Prelude.{Some};
ghost use Rattle.refusal.specs.Text.{refusal_text};
ghost use Rattle.checking.specs.Refusals.{number_of, place_of, cause_of};

use refusal::Refuses;
use std::fmt;

/// Why a check is refused. Its place and its cause are always 0.
#[derive(Clone, Copy, PartialEq, Eq, Debug)]
pub enum CheckRefusal {
    /// There is not one value and one rate for each variable, and one potential for each node.
    WrongCount,
}

impl Refuses for CheckRefusal {
    ghost number = { number_of };

    ghost place = { place_of };

    ghost cause = { cause_of };

    fn number(&self) -> u32 {
        match self {
            CheckRefusal::WrongCount => 14,
        }
    }

    fn place(&self) -> usize {
        match self {
            CheckRefusal::WrongCount => 0,
        }
    }

    fn cause(&self) -> u32 {
        match self {
            CheckRefusal::WrongCount => 0,
        }
    }
}

impl fmt::Display for CheckRefusal {
    ghost output = { λ why. Some (refusal_text (number_of why) (place_of why) (cause_of why)) };

    fn fmt<W: fmt::Write>(&self, f: &mut fmt::Formatter<W>) -> fmt::Result {
        self.tell(f)
    }
}

impl std::error::Error for CheckRefusal {}
