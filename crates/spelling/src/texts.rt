//! What is printed, and how: first measured, and then written.
ghost use Rattle.std.specs.Prelude.{◌≡◌, ℕ, List};
ghost use Rattle.spelling.specs.Rules.{answer_text, printed};

use crate::refusals::WriteRefusal;
use crate::sinks::{Cursor, Measure, Sink};

// Not `Display`: no contract promises that `write!` is `Ok`, so an unlisted refusal could not be ruled out.
pub(crate) trait Text {
    // How it is spelled.
    ghost bytes: { Self → List ℕ };

    fn put_into<S: Sink>(&self, sink: &mut S)
        requires { S.has_room sink.old (bytes self.now) }
        ensures { S.puts sink.old (bytes self.now) sink.new };
}

// Prints the text, and answers how many bytes that took. A buffer that is too short is left untouched.
pub(crate) fn print<T: Text>(text: &T, buffer: &mut [u8]) -> Result<usize, WriteRefusal>
    ensures answer { result ≡ answer_text buffer.old (T.bytes text.now) }
    ensures buffer { buffer.new ≡ printed buffer.old (T.bytes text.now) }
{
    let mut measure = Measure { used: 0 };
    text.put_into(&mut measure);
    if buffer.len() < measure.used {
        return Err(WriteRefusal::ShortBuffer);
    }
    let mut cursor = Cursor { buffer, at: 0 };
    text.put_into(&mut cursor);
    Ok(cursor.at)
}
