//! Refusals. Each crate that refuses has an enum of its own cases. What is shared stands here: that users know a
//! refusal by three numbers and a text, and that a call has a table of tests, each with the refusal that it leads to.
#![tactic(auto)]

ghost use Rattle.std.specs.Prelude.{◌≡◌, ℕ, Some};
ghost use Rattle.std.specs.Fmt.{DisplaysOnOk};
ghost use Rattle.refusal.specs.Text.{told_as};

use std::fmt;

/// What refuses a call. Users know it by its number, its place and its cause.
pub trait Refuses {
    ghost number: { Self → ℕ };

    ghost place: { Self → ℕ };

    ghost cause: { Self → ℕ };

    /// Which refusal it is.
    fn number(&self) -> u32
        ensures { result ≡ number self.now };

    /// The argument, term, table, row or law at fault, else 0.
    fn place(&self) -> usize
        ensures { result ≡ place self.now };

    /// The number of the refusal inside that led to this one, else 0.
    fn cause(&self) -> u32
        ensures { result ≡ cause self.now };

    /// Writes it as a user is told of it. An impl of `Display` is this call.
    fn tell<W: fmt::Write>(&self, f: &mut fmt::Formatter<W>) -> fmt::Result
    where
        ensures { DisplaysOnOk W.write_str_gives f.old result (Some (told_as number place cause self.now)) f.new }
    {
        let number = self.number();
        let place = self.place();
        let cause = self.cause();
        write!(f, "refused {number} {place} {cause}")
    }
}
