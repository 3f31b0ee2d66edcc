//! Why nothing is written.
ghost use Rattle.std.specs.Prelude.{◌≡◌, Some};
ghost use Rattle.refusal.specs.Text.{refusal_text};
ghost use Rattle.spelling.specs.Refusals.{number_of, place_of, cause_of};

use refusal::Refuses;
use std::fmt;

/// Why a line is not written. Its place and its cause are always 0.
#[derive(Clone, Copy, PartialEq, Eq, Debug)]
pub enum WriteRefusal {
    /// The buffer is shorter than the line.
    ShortBuffer,
}

impl Refuses for WriteRefusal {
    ghost number = { number_of };

    ghost place = { place_of };

    ghost cause = { cause_of };

    fn number(&self) -> u32 {
        match self {
            WriteRefusal::ShortBuffer => 13,
        }
    }

    fn place(&self) -> usize {
        0
    }

    fn cause(&self) -> u32 {
        0
    }
}

impl fmt::Display for WriteRefusal {
    ghost output = { λ why. Some (refusal_text (number_of why) (place_of why) (cause_of why)) };

    fn fmt<W: fmt::Write>(&self, f: &mut fmt::Formatter<W>) -> fmt::Result {
        self.tell(f)
    }
}

impl std::error::Error for WriteRefusal {}
