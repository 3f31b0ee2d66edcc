//! The line above a list of equations: how many there are.
ghost use Rattle.std.specs.Prelude.{◌≡◌};
ghost use Rattle.spelling.specs.Headers.{header_text};
ghost use Rattle.spelling.specs.Rules.{answer_text, printed};

use crate::numbers::write_numbers;
use crate::refusals::WriteRefusal;

/// Prints the header of `equations` equations, and answers how many bytes that took. A buffer that is
/// too short is left untouched.
pub fn write_header(equations: usize, buffer: &mut [u8]) -> Result<usize, WriteRefusal>
    ensures answer { result ≡ answer_text buffer.old (header_text equations) }
    ensures buffer { buffer.new ≡ printed buffer.old (header_text equations) }
{
    write_numbers(b"equations", &[equations], buffer)
}
