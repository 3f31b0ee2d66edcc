//! Why a text is not read to its end. Users know a fault by its line and column, and by a number, a place and
//! a cause, which are those of the refusal where a call is refused.
ghost use Rattle.std.specs.Prelude.{◌≡◌, ◌≤◌, Some, length};
ghost use Rattle.spelling.specs.Rules.{answer_text, printed};
ghost use Rattle.sheet_reader.specs.Faults.{line_of, column_of, number_of, place_of, cause_of, fault_text, fault_line};
ghost use Rattle.sheet_reader.specs.Faults.{most_fault_bytes};

use calls::CallRefusal;
use refusal::Refuses;
use spelling::WriteRefusal;
use spelling::numbers::write_numbers;
use std::fmt;

/// Why a text is not read to its end. Lines and columns are counted from 1.
#[derive(Clone, Copy, PartialEq, Eq, Debug)]
pub enum TextFault {
    /// A line has no allowed form. The column is where it first differs from all that are allowed.
    Form { line: usize, column: usize },
    /// The text is longer than a sheet text may be.
    TooLong,
    /// What a line commands is refused.
    Refused { line: usize, why: CallRefusal },
}

impl TextFault {
    /// 0 where the whole text is at fault.
    pub fn line(&self) -> usize
        ensures { result ≡ line_of self.now }
    {
        match *self {
            TextFault::Form { line, .. } | TextFault::Refused { line, .. } => line,
            TextFault::TooLong => 0,
        }
    }

    /// A refused call is told at column 1 of its line, and 0 where the whole text is at fault.
    pub fn column(&self) -> usize
        ensures { result ≡ column_of self.now }
    {
        match *self {
            TextFault::Form { column, .. } => column,
            TextFault::TooLong => 0,
            TextFault::Refused { .. } => 1,
        }
    }
}

impl Refuses for TextFault {
    ghost number = { number_of };

    ghost place = { place_of };

    ghost cause = { cause_of };

    fn number(&self) -> u32 {
        match self {
            TextFault::Form { .. } => 11,
            TextFault::TooLong => 12,
            TextFault::Refused { why, .. } => why.number(),
        }
    }

    fn place(&self) -> usize {
        match self {
            TextFault::Form { .. } | TextFault::TooLong => 0,
            TextFault::Refused { why, .. } => why.place(),
        }
    }

    fn cause(&self) -> u32 {
        match self {
            TextFault::Form { .. } | TextFault::TooLong => 0,
            TextFault::Refused { why, .. } => why.cause(),
        }
    }
}

// As a user is told of it: by its line and column, and by its number, its place and its cause.
impl fmt::Display for TextFault {
    ghost output = { λ f. Some (fault_text f) };

    fn fmt<W: fmt::Write>(&self, f: &mut fmt::Formatter<W>) -> fmt::Result {
        let line = self.line();
        let column = self.column();
        let number = self.number();
        let place = self.place();
        let cause = self.cause();
        write!(f, "fault {line} {column} ")?;
        write!(f, "{number} {place} {cause}")
    }
}

impl std::error::Error for TextFault {}

/// A buffer of so many bytes holds the line of each fault: a word, and five numbers of at most 20 digits, each
/// behind a blank.
pub const FAULT_BYTES: usize = 111;

/// Prints the fault as a line, and answers how many bytes that took. A buffer that is too short is left
/// untouched.
#[tactic(auto, using(crate::proofs::Told::line_told, crate::proofs::Told::line_short))]
pub fn write_fault(fault: TextFault, buffer: &mut [u8]) -> Result<usize, WriteRefusal>
    ensures short { length (fault_line fault) ≤ most_fault_bytes }
    ensures answer { result ≡ answer_text buffer.old (fault_line fault) }
    ensures buffer { buffer.new ≡ printed buffer.old (fault_line fault) }
{
    let numbers = [
        fault.line(),
        fault.column(),
        fault.number() as usize,
        fault.place(),
        fault.cause() as usize,
    ];
    write_numbers(b"fault", &numbers, buffer)
}
