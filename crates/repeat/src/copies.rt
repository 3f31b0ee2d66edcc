//! What copies have together, and where the things of each copy go.
ghost use Rattle.std.specs.Prelude.{◌*◌, ◌≤◌};
ghost use Rattle.assembly.specs.Plans.{most_of_plan};
ghost use Rattle.repeat.specs.Limits.{most_copies};

use assembly::plans::Size;
use layers::renumbering::Renumbering;

const MOST_COPIES: usize = 1000;

/// What one copy has, how many there are, and what the layer has. Sixteen bits hold the layer's numbers.
#[derive(Clone, Copy)]
pub struct Copies {
    pub part: Size,
    pub times: usize,
    pub whole: Size,
    ghost few: { times ≤ most_copies },
    ghost few_inner: { times * part.inner ≤ most_of_plan },
    ghost few_variables: { times * part.variables ≤ most_of_plan },
}

/// A place in one of the copies, and where that copy's things go.
#[derive(Clone, Copy)]
pub struct Spot {
    pub copy: usize,
    pub place: usize,
    pub numbers: Renumbering,
}

impl Copies {
    ghost use Rattle.std.specs.Prelude.{◌≡◌, ◌*◌, ◌<◌, ◌≤◌, MatchOption};
    ghost use Rattle.repeat.specs.Repeat.{SmallCopies, stop_at, copy_place, IsSpotOf};

    /// The copies together with the joints between them; `None` where there are none or too many, or the
    /// layer would have too much.
    pub fn new(part: Size, times: usize) -> Option<Copies>
        ensures { SmallCopies times part result }
    {
        if !(1..=MOST_COPIES).contains(&times) {
            return None;
        }
        if !part.is_small() {
            return None;
        }
        let whole = Size {
            ends: 2,
            inner: times * part.inner + (times - 1),
            variables: times * part.variables,
            rows: times * part.rows,
            laws: times * part.laws,
        };
        if !whole.is_small() {
            return None;
        }
        Some(Copies { part, times, whole })
    }

    // The node where copy `i` begins and the copy before it ends.
    fn stop(self, i: usize) -> u16
        requires { i ≤ self.times }
        ensures { result ≡ stop_at self.part self.times i }
    {
        if i == 0 {
            0
        } else if i < self.times {
            (2 + self.times * self.part.inner + (i - 1)) as u16
        } else {
            1
        }
    }

    // Where the things of copy `i` go.
    fn place(self, i: usize) -> Renumbering
        requires { i < self.times }
        ensures { result ≡ copy_place self.part self.times i }
    {
        Renumbering {
            first: self.stop(i),
            second: self.stop(i + 1),
            inner: self.part.inner as u16,
            inner_from: (2 + i * self.part.inner) as u16,
            variables: self.part.variables as u16,
            variables_from: (i * self.part.variables) as u16,
        }
    }

    /// Where place `k` of the copies' things lies, of which each copy has `len`; `None` past the last.
    pub fn spot(self, len: usize, k: usize) -> Option<Spot>
        ensures { MatchOption result (self.times * len ≤ k) (IsSpotOf self len k) }
    {
        let copy = k.checked_div(len)?;
        if copy >= self.times {
            return None;
        }
        Some(Spot {
            copy,
            place: k % len,
            numbers: self.place(copy),
        })
    }
}
