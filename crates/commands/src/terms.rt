//! The terms of one law.
ghost use Rattle.std.specs.Prelude.{◌≡◌, ◌+◌, ◌<◌, take, slice_set};
ghost use Rattle.netlist.specs.Limits.{most_terms_of_law};

use netlist::limits::MOST_TERMS;
use netlist::terms::RawTerm;

/// The first `count` of the slots are the law's terms. An `ArrayVec` would not be `Copy`, which a
/// command may not lose.
#[derive(Clone, Copy, PartialEq, Eq, Debug)]
pub struct Terms {
    pub slots: [RawTerm; MOST_TERMS],
    pub count: usize,
}

impl Terms {
    // Adds a term in the next slot.
    pub(crate) fn push(&mut self, term: RawTerm)
        requires { self.old.count < most_terms_of_law }
        ensures slots { self.new.slots ≡ slice_set self.old.slots self.old.count term }
        ensures count { self.new.count ≡ self.old.count + 1 }
    {
        self.slots[self.count] = term;
        self.count += 1;
    }

    /// The law's terms.
    pub fn as_slice(&self) -> &[RawTerm]
        ensures { result.now ≡ take self.now.count self.now.slots }
    {
        &self.slots[..self.count.min(MOST_TERMS)]
    }
}
