//! Why readings are not read to their end.
ghost use Rattle.std.specs.Prelude.{Some};
ghost use Rattle.readings_text.specs.Faults.{readings_fault_text};

use small_readings::MAX_READING;
use std::fmt;

/// Why readings are not read to their end. Lines are counted from 1.
#[derive(Clone, Copy, PartialEq, Eq, Debug)]
pub enum ReadingsFault {
    /// The line is not two whole numbers with a blank between them, no comment and not empty.
    Form { line: usize },
    /// The line writes two numbers, and one of them is past `MAX_READING` or below its negation.
    TooLarge { line: usize },
    /// The line is a reading, and every variable has one already.
    TooMany { line: usize },
    /// The text ends with this line, and a variable has no reading.
    TooFew { line: usize },
}

// As a user is told of it.
impl fmt::Display for ReadingsFault {
    ghost output = { λ f. Some (readings_fault_text f) };

    fn fmt<W: fmt::Write>(&self, f: &mut fmt::Formatter<W>) -> fmt::Result {
        match self {
            ReadingsFault::Form { line } => write!(
                f,
                "readings fault {line}: not a value, a blank and a rate"
            ),
            ReadingsFault::TooLarge { line } => write!(
                f,
                "readings fault {line}: a number is not from -{MAX_READING} to {MAX_READING}"
            ),
            ReadingsFault::TooMany { line } => write!(
                f,
                "readings fault {line}: more readings than variables"
            ),
            ReadingsFault::TooFew { line } => write!(
                f,
                "readings fault {line}: fewer readings than variables"
            ),
        }
    }
}

impl std::error::Error for ReadingsFault {}
