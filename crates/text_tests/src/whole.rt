//! Where a text first goes wrong.
ghost use Rattle.std.specs.Prelude.{ℕ};
ghost use Rattle.text.specs.Newlines.{lines_of};
ghost use Rattle.text_tests.specs.Walk.{FirstFault};

use commands::read_command;
use text::lines;

/// A line and a column of it, both from 1.
#[derive(Clone, Copy, PartialEq, Eq, Debug)]
pub struct Place {
    pub line: usize,
    pub column: usize,
}

/// The first line that is not allowed, and the column where it goes wrong. A `find_map` found no proof, and
/// would be no shorter.
pub fn first_fault(text: &[u8]) -> Option<Place>
    ensures { FirstFault 0 (lines_of text.now) result }
{
    for line in lines(text) {
        if let Err(fault) = read_command(line) {
            return Some(Place {
                line: line.number,
                column: fault.column,
            });
        }
    }
    None
}
