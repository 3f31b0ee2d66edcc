//! Why an assembly is not placed.
ghost use Rattle.std.specs.Prelude.{◌≡◌, Some};
ghost use Rattle.refusal.specs.Text.{refusal_text};
ghost use Rattle.plan_judging.specs.Refusals.{number_of, place_of, cause_of};

use draft::{DraftRefusal, Table};
use refusal::Refuses;
use std::fmt;

/// Why an assembly is not placed. Its ends, rows and laws are counted from 0. The cause is the number of the
/// refusal inside.
#[derive(Clone, Copy, PartialEq, Eq, Debug)]
pub enum PlaceRefusal {
    /// The assembly is void.
    Void,
    /// The node that an end is placed at is not drawn.
    NoNode { end: u8 },
    /// The node that an end is placed at has another domain than the end.
    Domain { end: u8 },
    /// This row of the plan meets a refusal.
    Row { row: u16, inner: DraftRefusal },
    /// This law of the plan meets a refusal.
    Law { law: u16, inner: DraftRefusal },
    /// A table of the draft would hold more than it may.
    Limit { table: Table },
}

// The place of law 0 of a plan. The places below are its rows'.
const FIRST_LAW: usize = 10_000;

impl Refuses for PlaceRefusal {
    ghost number = { number_of };

    ghost place = { place_of };

    ghost cause = { cause_of };

    fn number(&self) -> u32 {
        match self {
            PlaceRefusal::Void => 8,
            PlaceRefusal::NoNode { .. } => 2,
            PlaceRefusal::Domain { .. } => 4,
            PlaceRefusal::Row { .. } | PlaceRefusal::Law { .. } => 9,
            PlaceRefusal::Limit { .. } => 1,
        }
    }

    fn place(&self) -> usize {
        match *self {
            PlaceRefusal::Void => 1,
            PlaceRefusal::NoNode { end } | PlaceRefusal::Domain { end } => 2 + usize::from(end),
            PlaceRefusal::Row { row, .. } => usize::from(row),
            PlaceRefusal::Law { law, .. } => FIRST_LAW + usize::from(law),
            PlaceRefusal::Limit { table } => usize::from(table),
        }
    }

    fn cause(&self) -> u32 {
        match self {
            PlaceRefusal::Row { inner, .. } | PlaceRefusal::Law { inner, .. } => inner.number(),
            _ => 0,
        }
    }
}

impl fmt::Display for PlaceRefusal {
    ghost output = { λ why. Some (refusal_text (number_of why) (place_of why) (cause_of why)) };

    fn fmt<W: fmt::Write>(&self, f: &mut fmt::Formatter<W>) -> fmt::Result {
        self.tell(f)
    }
}

impl std::error::Error for PlaceRefusal {}
