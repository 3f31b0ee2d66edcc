//! A plan in tables that the caller lends, and when such tables are sound.
ghost use Rattle.std.specs.Prelude.{◌≡◌, ◌≤◌, length};
ghost use Rattle.netlist.specs.Sound.{is_domain};
ghost use Rattle.std.specs.List.{list_all};
ghost use Rattle.assembly.specs.Plans.{most_of_plan};
ghost use Rattle.parts.specs.Tables.{begins, fill, size_told, is_sound};

use super::numbers::{is_domain, is_term_count};
use assembly::plans::{PlanRow, PlanTerm, Size};
use netlist::spans::Span;

/// The domains of the two ends and of the inner nodes, by their numbers; how many variables there are; the
/// rows; and for each law the part of the table of terms that is its own. Anything may stand here: what is
/// not sound is void. A slice for each law would ask callers to lend more than plain tables of numbers.
#[derive(Clone, Copy)]
pub struct Tables<'a> {
    pub first: u32,
    pub second: u32,
    pub inner: &'a [u32],
    pub variables: usize,
    pub rows: &'a [PlanRow],
    pub laws: &'a [Span],
    pub terms: &'a [PlanTerm],
}

fn all_domains(numbers: &[u32]) -> bool
    ensures { result ≡ list_all is_domain numbers.now }
{
    numbers.iter().all(|n| is_domain(*n))
}

// Whether the part begins at a place, and has one to eight terms.
fn begins(at: usize, part: Span) -> bool
    ensures { result ≡ begins at part }
{
    part.offset == at && is_term_count(part.length)
}

// Whether the parts fill a table of `terms` terms, one after another. A `try_fold` would be no plainer, with a
// step that fails and a sum in one closure.
fn fills(parts: &[Span], terms: usize) -> bool
    requires { length parts.now ≤ most_of_plan }
    ensures { result ≡ fill 0 parts.now terms }
{
    let mut at = 0;
    for s in parts {
        if !begins(at, *s) {
            return false;
        }
        at += s.length;
    }
    at == terms
}

impl Tables<'_> {
    // How much there is of each thing.
    pub(crate) fn size(&self) -> Size
        ensures { result ≡ size_told self.now }
    {
        Size {
            ends: 2,
            inner: self.inner.len(),
            variables: self.variables,
            rows: self.rows.len(),
            laws: self.laws.len(),
        }
    }

    // Whether the tables are a plan.
    pub(crate) fn is_sound(&self) -> bool
        ensures { result ≡ is_sound self.now }
    {
        self.size().is_small()
            && is_domain(self.first)
            && is_domain(self.second)
            && all_domains(self.inner)
            && fills(self.laws, self.terms.len())
    }
}
