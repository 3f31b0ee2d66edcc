//! A text is read from a reader, and what is printed of it is written to a writer.
ghost use Rattle.std.specs.Prelude.{◌≡◌, ◌+◌, IfOk, IfSome, take};
ghost use Rattle.text.specs.Limits.{most_bytes};
ghost use Rattle.rigcobase.specs.Answering.{Answers};

use printing::print_text;
use sheet_reader::TextFault;
use std::alloc::Global;
use std::io::{self, Read, Write};
use text::MOST_BYTES;

// One byte more than a text may have tells that it is too long, and no more are read.
const READ_BYTES: u64 = MOST_BYTES as u64 + 1;

// Reads to the end of what is given, or to the end of `READ_BYTES` bytes of it.
fn front<R: Read + Drop>(heap: Global, reader: R) -> io::Result<Vec<u8>>
    ensures { IfOk result (λ text. IfSome (R.remaining reader) (λ given. text.items ≡ take (most_bytes + 1) given)) }
{
    let mut text = Vec::new(heap);
    reader.take(READ_BYTES).read_to_end(&mut text)?;
    Ok(text)
}

// Answers whether the text was read to its end; fails where the memory, the reader or the writer does.
pub(crate) fn answer<R: Read + Drop, W: Write>(
    heap: Global,
    reader: R,
    writer: &mut W,
) -> io::Result<Result<(), TextFault>>
    ensures { IfOk result (λ r. Answers (R.remaining reader) r (W.contents writer.old) (W.contents writer.new)) }
{
    let text = front(heap, reader)?;
    let mut printed = Vec::new(heap);
    let answer = print_text(heap, text.as_slice(), &mut printed)?;
    writer.write_all(printed.as_slice())?;
    Ok(answer)
}
