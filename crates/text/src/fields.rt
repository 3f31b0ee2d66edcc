//! Reading the fields of a line one by one, and their values.
ghost use Rattle.std.specs.Prelude.{min, ◌≡◌, ◌-◌, ◌^◌, ◌<◌, ◌≤◌, length};
ghost use Rattle.std.specs.Iterator.{at_most};
ghost use Rattle.text.specs.Decimal.{value_of_digits};
ghost use Rattle.text.specs.Limits.{largest_number, most_digits};
ghost use Rattle.text.specs.Reading.{FieldStep, Spells, Stands, digits_of, capped_value_of, value_of};

use super::line::{Field, Fields};
use super::places::place_of;

impl<'a> Iterator for Fields<'a> {
    type Item = Field<'a>;

    ghost next_gives = { FieldStep };

    ghost remaining = { λ s. at_most (length s.bytes.now - s.at) };

    // The next field, which a blank or the line's end follows.
    fn next(&mut self) -> Option<Field<'a>> {
        let bytes = self.bytes;
        if self.at >= bytes.len() {
            return None;
        }
        let start = self.at + 1;
        let end = start + place_of(b' ', &bytes[start..]);
        self.at = end;
        Some(field_at(&bytes[start..end], self.line, start + 1))
    }
}

impl Field<'_> {
    /// The number that at most seven digits write, leading zeros included, whatever the sign. What more digits
    /// write counts as 2^31 - 1 at most.
    pub fn number(&self) -> u32
        ensures bound { result < 2 ^ 31 }
        ensures capped { result ≡ min (value_of_digits (digits_of self.now)) largest_number }
        ensures exact { length (digits_of self.now) ≤ most_digits → result ≡ value_of_digits (digits_of self.now) }
    {
        match self {
            Field::Unsigned { digits, .. } | Field::Negative { digits, .. } => value(digits),
        }
    }

    /// The same with its sign.
    pub fn coefficient(&self) -> i32
        ensures capped { result ≡ capped_value_of self.now }
        ensures exact { length (digits_of self.now) ≤ most_digits → result ≡ value_of self.now }
    {
        match self {
            Field::Unsigned { .. } => self.number() as i32,
            Field::Negative { .. } => -(self.number() as i32),
        }
    }
}

// The field that is written so, by whether a minus stands in front.
fn field_at<'a>(text: &'a [u8], line: usize, column: usize) -> Field<'a>
    ensures spells { Spells result text.now }
    ensures stands { Stands result line column }
{
    match text {
        [b'-', digits @ ..] => Field::Negative {
            digits,
            line,
            column,
        },
        digits => Field::Unsigned {
            digits,
            line,
            column,
        },
    }
}

const MOST: u32 = i32::MAX as u32;

// The number that at most seven digits write; what more digits write counts as `MOST` at most.
fn value(digits: &[u8]) -> u32
    ensures bound { result < 2 ^ 31 }
    ensures capped { result ≡ min (value_of_digits digits.now) largest_number }
    ensures exact { length digits.now ≤ most_digits → result ≡ value_of_digits digits.now }
{
    digits.iter().fold(0u32, |sum, b| {
        sum.saturating_mul(10)
            .saturating_add(u32::from(b.saturating_sub(b'0')))
            .min(MOST)
    })
}
