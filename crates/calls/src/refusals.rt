//! Why a call is refused: as a call of the draft is, or as placing an assembly is.
ghost use Rattle.std.specs.Prelude.{◌≡◌, Some};
ghost use Rattle.refusal.specs.Text.{refusal_text};
ghost use Rattle.calls.specs.declared.refusals.CallRefusal.TheVariants.{Draft, Place};
ghost use Rattle.calls.specs.Refusals.{number_of, place_of, cause_of};

use draft::DraftRefusal;
use plan_judging::PlaceRefusal;
use refusal::Refuses;
use std::fmt;

/// Why a call is refused. Its number, its place and its cause are those of the refusal inside.
#[derive(Clone, Copy, PartialEq, Eq, Debug)]
pub enum CallRefusal {
    /// A call of the draft is refused.
    Draft(DraftRefusal),
    /// An assembly is not placed.
    Place(PlaceRefusal),
}

impl From<DraftRefusal> for CallRefusal {
    ghost from_gives = { λ inner why. why ≡ Draft inner };

    fn from(inner: DraftRefusal) -> CallRefusal {
        CallRefusal::Draft(inner)
    }
}

impl From<PlaceRefusal> for CallRefusal {
    ghost from_gives = { λ inner why. why ≡ Place inner };

    fn from(inner: PlaceRefusal) -> CallRefusal {
        CallRefusal::Place(inner)
    }
}

impl Refuses for CallRefusal {
    ghost number = { number_of };

    ghost place = { place_of };

    ghost cause = { cause_of };

    fn number(&self) -> u32 {
        match self {
            CallRefusal::Draft(inner) => inner.number(),
            CallRefusal::Place(inner) => inner.number(),
        }
    }

    fn place(&self) -> usize {
        match self {
            CallRefusal::Draft(inner) => inner.place(),
            CallRefusal::Place(inner) => inner.place(),
        }
    }

    fn cause(&self) -> u32 {
        match self {
            CallRefusal::Draft(inner) => inner.cause(),
            CallRefusal::Place(inner) => inner.cause(),
        }
    }
}

impl fmt::Display for CallRefusal {
    ghost output = { λ why. Some (refusal_text (number_of why) (place_of why) (cause_of why)) };

    fn fmt<W: fmt::Write>(&self, f: &mut fmt::Formatter<W>) -> fmt::Result {
        self.tell(f)
    }
}

impl std::error::Error for CallRefusal {}
