//! A line of readings.
ghost use Rattle.std.specs.Prelude.{◌≡◌, ℕ, ℤ, ◌<◌, ◌≤◌, length, MatchOption, slice_index, ◌≢◌};
ghost use Rattle.std.specs.Bool.{Decides};
ghost use Rattle.readings_text.specs.Lines.{SaidOfLine, Silent, WritesPair, KeepsPair, HasLarge, IsPair};

use crate::faults::ReadingsFault;
use crate::numbers::{Written, number};
use quantity::Whole;
use text::TextLine;

/// What is read of a variable.
#[derive(Clone, Copy, PartialEq, Eq, Debug)]
pub struct Reading {
    /// What it is.
    pub value: Whole,
    /// How fast it changes.
    pub rate: Whole,
}

// The place of the first blank, or the end.
fn first_blank(line: &[u8]) -> usize
    ensures within { result ≤ length line.now }
    ensures before { (k : ℕ) → k < result → slice_index line.now k ≢ 32 }
    ensures found { result < length line.now → slice_index line.now result ≡ 32 }
{
    line.iter().position(|b| *b == b' ').unwrap_or(line.len())
}

// The two numbers that the line writes, if it writes two.
fn split_line(line: &[u8]) -> Option<(Written, Written)>
    ensures { MatchOption result ((x y : ℤ) → WritesPair line.now x y → ⊥) (KeepsPair line.now) }
{
    let at = first_blank(line);
    if at == line.len() {
        return None;
    }
    let value = number(&line[..at])?;
    let rate = number(&line[at + 1..])?;
    Some((value, rate))
}

// The reading of two numbers, if both are small.
fn small_pair(pair: (Written, Written)) -> Option<Reading>
    ensures { MatchOption result (HasLarge pair) (IsPair pair) }
{
    match pair {
        (Written::Small(value), Written::Small(rate)) => Some(Reading { value, rate }),
        _ => None,
    }
}

// Whether the line is a comment or empty.
fn is_silent(line: &[u8]) -> bool
    ensures { Decides result (Silent line.now) }
{
    matches!(line, [] | [b'#', ..])
}

// What the line reads, or nothing; or its fault. So many readings are wanted yet.
pub(crate) fn read_line(line: TextLine<'_>, wanted: usize) -> Result<Option<Reading>, ReadingsFault>
    ensures { SaidOfLine wanted line.entry result }
{
    let number = line.number;
    if is_silent(line.bytes) {
        return Ok(None);
    }
    let Some(pair) = split_line(line.bytes) else {
        return Err(ReadingsFault::Form { line: number });
    };
    let Some(reading) = small_pair(pair) else {
        return Err(ReadingsFault::TooLarge { line: number });
    };
    if wanted == 0 {
        return Err(ReadingsFault::TooMany { line: number });
    }
    Ok(Some(reading))
}
