//! A text is read: each line is drawn before the next is read.
ghost use Rattle.text.specs.Newlines.{lines_of};
ghost use Rattle.sheet_reader.specs.Laws.{ReadingLaw};
ghost use Rattle.sheet_reader.specs.Reading.{DrawsLine, ReadsLines, ReadsText};

use crate::drawing::draw;
use crate::faults::TextFault;
use commands::read_command;
use draft::Draft;
use text::{TextLine, fits, lines};

// Draws what the line commands. A line at fault draws nothing.
fn draw_line(line: TextLine<'_>, draft: &mut Draft) -> Result<(), TextFault>
    ensures { DrawsLine draft.old line.entry result draft.new }
{
    let number = line.number;
    match read_command(line) {
        Ok(command) => draw(command, draft).map_err(|why| TextFault::Refused { line: number, why }),
        Err(fault) => Err(TextFault::Form {
            line: number,
            column: fault.column,
        }),
    }
}

// Draws the lines of the text in turn.
fn draw_lines(text: &[u8], draft: &mut Draft) -> Result<(), TextFault>
    ensures { ReadsLines draft.old 0 (lines_of text.now) result draft.new }
{
    for line in lines(text) {
        draw_line(line, draft)?;
    }
    Ok(())
}

/// Reads the text into the draft, up to its first fault. What the lines before a fault drew stays drawn.
#[tactic(auto, using(crate::proofs::Laws::reading_law))]
pub fn read(text: &[u8], draft: &mut Draft) -> Result<(), TextFault>
    ensures reads { ReadsText text.now draft.old result draft.new }
    ensures law { ReadingLaw text.now draft.old result draft.new }
{
    if !fits(text) {
        return Err(TextFault::TooLong);
    }
    draw_lines(text, draft)
}
