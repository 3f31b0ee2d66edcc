//! The lines of a text, one by one.
ghost use Rattle.std.specs.Prelude.{◌≡◌, ℕ, ◌+◌, ◌^◌, ◌<◌, ◌≤◌, length, ◌≢◌, slice_index};
ghost use Rattle.text.specs.Newlines.{LineStep, LineCount};
ghost use Rattle.std.specs.Iterator.{at_most};

use super::line::TextLine;
use super::places::place_of;

/// What is left of a text, and how many of its lines were taken.
#[derive(Drop)]
pub struct TextLines<'a> {
    rest: &'a [u8],
    taken: usize,
    // No more lines than bytes are left, so that each has a number.
    ghost fits: { taken + length rest.now < 2 ^ 64 },
}

/// The lines of the text, with their numbers.
pub fn lines<'a>(text: &'a [u8]) -> TextLines<'a>
    ensures { (result.rest.now ≡ text.now) × (result.taken ≡ 0) }
{
    TextLines {
        rest: text,
        taken: 0,
    }
}

impl<'a> Iterator for TextLines<'a> {
    type Item = TextLine<'a>;

    ghost next_gives = { λ s r t. LineStep s.rest.now s.taken r t.rest.now t.taken };

    ghost remaining = { λ s. at_most (length s.rest.now) };

    fn next(&mut self) -> Option<TextLine<'a>> {
        let rest = self.rest;
        if rest.is_empty() {
            return None;
        }
        let end = place_of(b'\n', rest);
        let next = if end < rest.len() { end + 1 } else { end };
        let number = self.taken + 1;
        self.rest = &rest[next..];
        self.taken = number;
        Some(TextLine {
            number,
            bytes: &rest[..end],
        })
    }
}

/// How many lines the text has.
pub fn count_lines(text: &[u8]) -> usize
    ensures { LineCount text.now result }
{
    lines(text).count()
}
