//! The line of an equation: its sum, and then what says that the sum is zero.
ghost use Rattle.std.specs.Prelude.{◌≡◌};
ghost use Rattle.spelling.specs.Lines.{line_text};
ghost use Rattle.spelling.specs.Rules.{answer_text, printed};

use crate::refusals::WriteRefusal;
use crate::sinks::Sink;
use crate::sums::put_sum;
use crate::texts::{Text, print};
use netlist::terms::Term;

// The fewest bytes that a term takes, with the blank or the end behind it.
const FEWEST_OF_TERM: usize = 5;

#[derive(Clone, Copy)]
struct Line<'a> {
    terms: &'a [Term],
    variables: usize,
}

impl Text for Line<'_> {
    ghost bytes = { λ line. line_text line.variables line.terms.now };

    fn put_into<S: Sink>(&self, sink: &mut S) {
        put_sum(sink, self.terms, self.variables);
        sink.put(b" = 0\n");
    }
}

/// Prints the equation whose terms add up to zero, of a sheet with `variables` variables, and answers
/// how many bytes that took. A buffer that is too short is left untouched, and no more terms are looked at
/// than it could have room for.
#[tactic(auto, using(crate::proofs::Lengths::line_long))]
pub fn write_line(
    terms: &[Term],
    variables: usize,
    buffer: &mut [u8],
) -> Result<usize, WriteRefusal>
    ensures answer { result ≡ answer_text buffer.old (line_text variables terms.now) }
    ensures buffer { buffer.new ≡ printed buffer.old (line_text variables terms.now) }
{
    if terms.len() > buffer.len() / FEWEST_OF_TERM {
        return Err(WriteRefusal::ShortBuffer);
    }
    print(&Line { terms, variables }, buffer)
}
