//! Why a sheet text and readings of it are not checked.

use readings_text::ReadingsFault;
use sheet_reader::TextFault;

/// Which of the two texts is at fault, and how.
#[derive(Clone, Copy, PartialEq, Eq, Debug)]
pub enum AnswerFault {
    /// The sheet text is at fault. Its readings are not read then.
    Sheet { fault: TextFault },
    /// The readings are at fault.
    Readings { fault: ReadingsFault },
}
