//! Whole numbers as a text writes them.
ghost use Rattle.std.specs.Prelude.{◌≡◌, ◌<◌, ◌-◌, ◌^◌, ℤ, min, MatchOption, Decides};
ghost use Rattle.std.specs.List.{All};
ghost use Rattle.small_readings.specs.Small.{largest_reading};
ghost use Rattle.text.specs.Decimal.{value_of_digits};
ghost use Rattle.text.specs.Grammar.{Digit};
ghost use Rattle.readings_text.specs.Numbers.{SomeDigits, WritesNegative, WritesPositive, Writes, IsSmallSize, Keeps};

use quantity::Whole;
use small_readings::MAX_READING;

// What is kept of a number that a text writes.
#[derive(Clone, Copy)]
pub(crate) enum Written {
    // It is small enough for a reading.
    Small(Whole),
    // It is not.
    Large,
}

fn are_digits(text: &[u8]) -> bool
    ensures { Decides result (All Digit text.now) }
{
    text.iter().all(|b| b.is_ascii_digit())
}

fn is_number(text: &[u8]) -> bool
    ensures { Decides result (SomeDigits text.now) }
{
    !text.is_empty() && are_digits(text)
}

// The number that the digits write. What does not fit counts as the largest that does.
fn magnitude(digits: &[u8]) -> u64
    ensures { result ≡ min (value_of_digits digits.now) (2 ^ 64 - 1) }
{
    digits.iter().fold(0u64, |sum, b| {
        sum.saturating_mul(10)
            .saturating_add(u64::from(b.saturating_sub(b'0')))
    })
}

// The number that the digits write, if it is small.
fn small_size(digits: &[u8]) -> Option<u64>
    ensures { MatchOption result (largest_reading < value_of_digits digits.now) (IsSmallSize digits.now) }
{
    let size = magnitude(digits);
    if size > MAX_READING {
        return None;
    }
    Some(size)
}

fn positive(digits: &[u8]) -> Option<Written>
    ensures { MatchOption result ((z : ℤ) → WritesPositive digits.now z → ⊥) (Keeps (WritesPositive digits.now)) }
{
    if !is_number(digits) {
        return None;
    }
    let Some(size) = small_size(digits) else {
        return Some(Written::Large);
    };
    Some(Written::Small(Whole::new(size as i64)))
}

fn negative(digits: &[u8]) -> Option<Written>
    ensures { MatchOption result ((z : ℤ) → WritesNegative digits.now z → ⊥) (Keeps (WritesNegative digits.now)) }
{
    if !is_number(digits) {
        return None;
    }
    let Some(size) = small_size(digits) else {
        return Some(Written::Large);
    };
    Some(Written::Small(Whole::new(-(size as i64))))
}

// The number that the text writes, if it writes one.
pub(crate) fn number(text: &[u8]) -> Option<Written>
    ensures { MatchOption result ((z : ℤ) → Writes text.now z → ⊥) (Keeps (Writes text.now)) }
{
    match text {
        [b'-', digits @ ..] => negative(digits),
        digits => positive(digits),
    }
}
