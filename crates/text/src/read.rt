//! Reading a line: its case, or where it goes wrong.
ghost use Rattle.std.specs.Prelude.{◌≡◌, ◌≤◌, length, slice_index};
ghost use Rattle.text.specs.Grammar.{form, groups};
ghost use Rattle.text.specs.Reading.{ReadsFields, ReadsLine};

use super::kinds::{BRANCH, EARTH, LAW, REPEAT, Shape, VALUE};
use super::line::{Fault, Fields, Line, TextLine};
use super::scan::scan;

// The fields of a line that has this shape after its letter.
fn fields_of<'a>(line: TextLine<'a>, shape: Shape) -> Result<Fields<'a>, Fault>
    requires some { 1 ≤ length line.bytes.now }
    requires form { form (slice_index line.bytes.now 0) ≡ groups shape.kinds.now shape.most }
    ensures { ReadsFields line.entry result }
{
    scan(line.bytes, shape)?;
    Ok(Fields {
        bytes: line.bytes,
        line: line.number,
        at: 1,
    })
}

/// The line by its letter, or where it goes wrong.
pub fn read_line<'a>(line: TextLine<'a>) -> Result<Line<'a>, Fault>
    ensures { ReadsLine line.entry result }
{
    let [letter, rest @ ..] = line.bytes else {
        return Ok(Line::Empty { line: line.number });
    };
    match *letter {
        b'N' => Ok(Line::Node(fields_of(line, VALUE)?)),
        b'V' => Ok(Line::Variables(fields_of(line, VALUE)?)),
        b'B' => Ok(Line::Branch(fields_of(line, BRANCH)?)),
        b'E' => Ok(Line::Earth(fields_of(line, EARTH)?)),
        b'L' => Ok(Line::Law(fields_of(line, LAW)?)),
        b'C' => Ok(Line::Repeat(fields_of(line, REPEAT)?)),
        b'#' => Ok(Line::Comment {
            text: rest,
            line: line.number,
        }),
        _ => Err(Fault { column: 1 }),
    }
}
