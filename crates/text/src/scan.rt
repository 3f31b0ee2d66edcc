//! Skipping the fields of a line, up to the place where it goes wrong.
ghost use Rattle.std.specs.Prelude.{◌≡◌, ◌+◌, ◌<◌, ◌≤◌, length, MatchResult, slice_index};
ghost use Rattle.text.specs.Grammar.{Allowed, form, groups};
ghost use Rattle.text.specs.Faults.{FaultAt};
ghost use Rattle.text.specs.Scan.{Slot, Fillable, SkipsField, SkipsGroup, ByteTaken, SignEnd, DigitRun};

use super::kinds::{Kind, Shape};
use super::line::Fault;

const MOST_DIGITS: usize = 7;

// How many digits stand at the front, up to seven.
fn leading_digits(text: &[u8]) -> usize
    ensures { DigitRun text.now 0 result }
{
    text.iter()
        .take(MOST_DIGITS)
        .take_while(|b| b.is_ascii_digit())
        .count()
}

// A line, and the place that a scan of it has come to.
#[derive(Drop)]
struct Scanner<'a> {
    line: &'a [u8],
    at: usize,
    ghost within: { at ≤ length line.now },
}

// Each that takes something says that the line stays, as a `&mut self` that changes a part must.
impl Scanner<'_> {
    // That the line goes wrong here.
    fn fault(&self) -> Fault
        ensures { result.column ≡ self.now.at + 1 }
    {
        Fault {
            column: self.at + 1,
        }
    }

    // Takes the byte if it stands here, and answers whether it does.
    fn take(&mut self, byte: u8) -> bool
        ensures same { self.new.line.now ≡ self.old.line.now }
        ensures taken { ByteTaken self.old.line.now self.old.at byte result self.new.at }
    {
        let stands = self.line.get(self.at) == Some(&byte);
        if stands {
            self.at += 1;
        }
        stands
    }

    // Takes a minus, where the kind may have one.
    fn sign(&mut self, kind: Kind)
        ensures same { self.new.line.now ≡ self.old.line.now }
        ensures end { SignEnd self.old.line.now self.old.at kind self.new.at }
    {
        if matches!(kind, Kind::Coefficient) {
            self.take(b'-');
        }
    }

    // Takes a field of this kind, with the blank in front of it.
    fn field(&mut self, kind: Kind) -> Result<(), Fault>
        ensures same { self.new.line.now ≡ self.old.line.now }
        ensures places { MatchResult result (λ _. self.old.at < self.new.at) (λ f. self.old.at < f.column) }
        ensures skips { SkipsField kind self.old.line.now self.old.at result self.new.at }
    {
        if !self.take(b' ') {
            return Err(self.fault());
        }
        self.sign(kind);
        match leading_digits(&self.line[self.at..]) {
            0 => Err(self.fault()),
            count => {
                self.at += count;
                Ok(())
            }
        }
    }

    // Takes a group of fields of these kinds.
    fn group(&mut self, kinds: &[Kind]) -> Result<(), Fault>
        ensures same { self.new.line.now ≡ self.old.line.now }
        ensures places { MatchResult result (λ _. self.old.at ≤ self.new.at) (λ f. self.old.at < f.column) }
        ensures skips { SkipsGroup kinds.now self.old.line.now self.old.at result self.new.at }
    {
        for kind in kinds {
            self.field(*kind)?;
        }
        Ok(())
    }
}

// Whether the line has this shape after its letter, or where it goes wrong.
pub(crate) fn scan(line: &[u8], shape: Shape) -> Result<(), Fault>
    requires some { 1 ≤ length line.now }
    requires form { form (slice_index line.now 0) ≡ groups shape.kinds.now shape.most }
    ensures { MatchResult result (λ _. Allowed line.now) (λ f. FaultAt Allowed line.now f.column) }
{
    let mut scanner = Scanner { line, at: 1 };
    for _ in 0..shape.most {
        scanner.group(shape.kinds)?;
        if scanner.at == line.len() {
            return Ok(());
        }
    }
    Err(scanner.fault())
}
