//! The lines of a sheet text, which borrow the bytes that hold them. Each is either of an allowed form or
//! goes wrong at one exact column.
#![tactic(auto)]

mod fields;
mod kinds;
mod limit;
mod line;
mod places;
mod read;
mod scan;
mod split;

pub use kinds::Kind;
pub use limit::{MOST_BYTES, fits};
pub use line::{Fault, Field, Fields, Line, TextLine};
pub use read::read_line;
pub use split::{TextLines, count_lines, lines};
