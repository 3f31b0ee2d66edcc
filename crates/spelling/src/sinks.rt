//! What a text is given to, piece after piece: a count of its bytes, or a buffer. So each text is spelled
//! once, and is first measured and then written.
ghost use Rattle.std.specs.Prelude.{◌≡◌, ℕ, ◌+◌, ◌≤◌, List, [], ◌∷◌, ◌++◌, length, decimal};
ghost use Rattle.spelling.specs.Sinks.{AlwaysRoom, Counted, HasRoom, Written};
ghost use Rattle.spelling.specs.Lawful.{counted_nothing, counted_both, always_room_first, always_room_second};
ghost use Rattle.spelling.specs.Lawful.{written_nothing, written_both, has_room_first, has_room_second};

use crate::decimals::{digit_count, put_decimal};

pub(crate) trait Sink {
    // That these bytes go in.
    ghost has_room: { Self → List ℕ → Type 0 };

    // What it is to have been given these bytes.
    ghost puts: { Self → List ℕ → Self → Type 0 };

    fn put(&mut self, bytes: &[u8])
        requires { has_room self.old bytes.now }
        ensures { puts self.old bytes.now self.new };

    // The same of one byte, which is most of a line.
    fn put_byte(&mut self, byte: u8)
        requires { has_room self.old (byte ∷ []) }
        ensures { puts self.old (byte ∷ []) self.new };

    // The same of a number in decimal.
    fn put_number(&mut self, number: usize)
        requires { has_room self.old (decimal number) }
        ensures { puts self.old (decimal number) self.new };

    // Nothing put leaves it as it was.
    ghost puts_nothing: { (s : Self) → has_room s [] → puts s [] s };

    // Two texts put one after the other are both put as one.
    ghost puts_both: { (s t u : Self) (xs ys : List ℕ) → puts s xs t → puts t ys u → puts s (xs ++ ys) u };

    // Room for two texts is room for the first, and then for the second.
    ghost room_first: { (s : Self) (xs ys : List ℕ) → has_room s (xs ++ ys) → has_room s xs };

    ghost room_second: { (s t : Self) (xs ys : List ℕ) → puts s xs t → has_room s (xs ++ ys) → has_room t ys };
}

// How many bytes a text takes. A count that would pass the largest number stays there, which is more than
// any buffer holds.
#[derive(Drop)]
pub(crate) struct Measure {
    pub(crate) used: usize,
}

impl Sink for Measure {
    ghost has_room = { AlwaysRoom };

    ghost puts = { Counted };

    ghost puts_nothing = { counted_nothing };

    ghost puts_both = { counted_both };

    ghost room_first = { always_room_first };

    ghost room_second = { always_room_second };

    fn put(&mut self, bytes: &[u8]) {
        self.used = self.used.saturating_add(bytes.len());
    }

    fn put_byte(&mut self, _byte: u8) {
        self.used = self.used.saturating_add(1);
    }

    fn put_number(&mut self, number: usize) {
        self.used = self.used.saturating_add(digit_count(number));
    }
}

// The place in a lent buffer where the next byte goes.
#[derive(Drop)]
pub(crate) struct Cursor<'a> {
    pub(crate) buffer: &'a mut [u8],
    pub(crate) at: usize,
}

impl Sink for Cursor<'_> {
    ghost has_room = { HasRoom };

    ghost puts = { Written };

    ghost puts_nothing = { written_nothing };

    ghost puts_both = { written_both };

    ghost room_first = { has_room_first };

    ghost room_second = { has_room_second };

    fn put(&mut self, bytes: &[u8]) {
        let end = self.at + bytes.len();
        self.buffer[self.at..end].copy_from_slice(bytes);
        self.at = end;
    }

    #[tactic(auto, using(crate::proofs::Bytes::written_byte))]
    fn put_byte(&mut self, byte: u8) {
        self.buffer[self.at] = byte;
        self.at += 1;
    }

    fn put_number(&mut self, number: usize) {
        self.at = put_decimal(number, self.buffer, self.at);
    }
}
