//! A line that tells numbers, behind a word.
ghost use Rattle.std.specs.Prelude.{◌≡◌};
ghost use Rattle.spelling.specs.Numbers.{numbers_line, numbers_text};
ghost use Rattle.spelling.specs.Rules.{answer_text, printed};

use crate::refusals::WriteRefusal;
use crate::sinks::Sink;
use crate::texts::{Text, print};

#[derive(Clone, Copy)]
struct Numbers<'a> {
    word: &'a [u8],
    numbers: &'a [usize],
}

// Puts the numbers, each behind a blank.
fn put_numbers<S: Sink>(sink: &mut S, numbers: &[usize])
    requires { S.has_room sink.old (numbers_text numbers.now) }
    ensures { S.puts sink.old (numbers_text numbers.now) sink.new }
{
    for number in numbers {
        sink.put_byte(b' ');
        sink.put_number(*number);
    }
}

impl Text for Numbers<'_> {
    ghost bytes = { λ line. numbers_line line.word.now line.numbers.now };

    fn put_into<S: Sink>(&self, sink: &mut S) {
        sink.put(self.word);
        put_numbers(sink, self.numbers);
        sink.put(b"\n");
    }
}

/// Prints the word, each number in decimal behind a blank, and a newline, and answers how many bytes that took. A
/// buffer that is too short is left untouched.
pub fn write_numbers(
    word: &[u8],
    numbers: &[usize],
    buffer: &mut [u8],
) -> Result<usize, WriteRefusal>
    ensures answer { result ≡ answer_text buffer.old (numbers_line word.now numbers.now) }
    ensures buffer { buffer.new ≡ printed buffer.old (numbers_line word.now numbers.now) }
{
    print(&Numbers { word, numbers }, buffer)
}
