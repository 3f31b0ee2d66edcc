//! Why a call of a draft is refused.
ghost use Rattle.std.specs.Prelude.{◌≡◌, Some};
ghost use Rattle.refusal.specs.Text.{refusal_text};
ghost use Rattle.draft.specs.Refusals.{number_of, place_of, cause_of, table_number, argument_number};

use refusal::Refuses;
use std::fmt;

/// The table whose limit would be passed.
#[derive(Clone, Copy, PartialEq, Eq, Debug)]
pub enum Table {
    Nodes,
    Variables,
    Rows,
    Laws,
    Terms,
}

/// The argument at fault. A law's terms are counted from 1.
#[derive(Clone, Copy, PartialEq, Eq, Debug)]
pub enum Argument {
    Domain,
    Flow,
    Across,
    First,
    Second,
    Node,
    Term { term: usize },
}

/// Why a call of a draft is refused. Its cause is always 0.
#[derive(Clone, Copy, PartialEq, Eq, Debug)]
pub enum DraftRefusal {
    /// A table would hold more than it may.
    Limit { table: Table },
    /// There is no node of this number yet.
    NoNode { argument: Argument },
    /// There is no variable of this number yet.
    NoVariable { argument: Argument },
    /// A number names no domain, or a branch leads from one domain to another.
    Domain { argument: Argument },
    /// Another row has the variable, or a row has one variable as flow and across.
    Taken { argument: Argument },
    /// The size of a coefficient is zero or too large. Terms are counted from 1.
    Coefficient { term: usize },
    /// A law has no terms, or more than eight.
    TermCount,
    /// An order is neither 0 nor 1. Terms are counted from 1.
    Order { term: usize },
}

impl From<Table> for usize {
    ghost from_gives = { λ table n. n ≡ table_number table };

    fn from(table: Table) -> usize {
        match table {
            Table::Nodes => 1,
            Table::Variables => 2,
            Table::Rows => 3,
            Table::Laws => 4,
            Table::Terms => 5,
        }
    }
}

impl From<Argument> for usize {
    ghost from_gives = { λ argument n. n ≡ argument_number argument };

    fn from(argument: Argument) -> usize {
        match argument {
            Argument::Domain => 1,
            Argument::Flow => 1,
            Argument::Across => 2,
            Argument::First => 3,
            Argument::Second => 4,
            Argument::Node => 3,
            Argument::Term { term } => term,
        }
    }
}

impl Refuses for DraftRefusal {
    ghost number = { number_of };

    ghost place = { place_of };

    ghost cause = { cause_of };

    fn number(&self) -> u32 {
        match self {
            DraftRefusal::Limit { .. } => 1,
            DraftRefusal::NoNode { .. } => 2,
            DraftRefusal::NoVariable { .. } => 3,
            DraftRefusal::Domain { .. } => 4,
            DraftRefusal::Taken { .. } => 5,
            DraftRefusal::Coefficient { .. } => 6,
            DraftRefusal::TermCount => 7,
            DraftRefusal::Order { .. } => 10,
        }
    }

    fn place(&self) -> usize {
        match *self {
            DraftRefusal::Limit { table } => usize::from(table),
            DraftRefusal::NoNode { argument }
            | DraftRefusal::NoVariable { argument }
            | DraftRefusal::Domain { argument }
            | DraftRefusal::Taken { argument } => usize::from(argument),
            DraftRefusal::Coefficient { term } | DraftRefusal::Order { term } => term,
            DraftRefusal::TermCount => 0,
        }
    }

    fn cause(&self) -> u32 {
        0
    }
}

impl fmt::Display for DraftRefusal {
    ghost output = { λ why. Some (refusal_text (number_of why) (place_of why) (cause_of why)) };

    fn fmt<W: fmt::Write>(&self, f: &mut fmt::Formatter<W>) -> fmt::Result {
        self.tell(f)
    }
}

impl std::error::Error for DraftRefusal {}
