//! One branch between the ends, with at most one law.
ghost use Rattle.std.specs.Prelude.{◌≡◌, length, filter};
ghost use Rattle.std.specs.List.{slice_get};
ghost use Rattle.parts.specs.Single.{single, is_counted, offered};

use super::numbers::domain_of;
use assembly::Assembly;
use assembly::plans::{PlanRow, PlanTerm, Size};
use netlist::domains::Domain;

/// Variable 0 is the flow of the branch, variable 1 its across. Its law gives a coefficient to the value and to
/// the rate of each; a coefficient of zero is left out, and if all are there is no law. The assembly is void
/// unless `domain` is the number of a domain, which both ends then have: a caller may write any number.
#[derive(Clone, Copy)]
pub struct Single {
    pub domain: u32,
    pub flow: i64,
    pub across: i64,
    pub flow_rate: i64,
    pub across_rate: i64,
}

impl Single {
    // The four terms, those with a zero among them.
    fn offered(&self) -> [PlanTerm; 4]
        ensures { result ≡ offered self.now }
    {
        [
            PlanTerm::value(self.flow, 0),
            PlanTerm::value(self.across, 1),
            PlanTerm::rate(self.flow_rate, 0),
            PlanTerm::rate(self.across_rate, 1),
        ]
    }
}

fn is_counted(term: PlanTerm) -> bool
    ensures { result ≡ is_counted term }
{
    term.coefficient != 0
}

// How many of the terms count.
fn counted_len(terms: &[PlanTerm]) -> usize
    ensures { result ≡ length (filter is_counted terms.now) }
{
    let mut n = 0;
    for x in terms {
        if is_counted(*x) {
            n += 1;
        }
    }
    n
}

// Of the terms that count, the one at place `t`.
fn nth_counted(terms: &[PlanTerm], t: usize) -> Option<PlanTerm>
    ensures { result ≡ slice_get (filter is_counted terms.now) t }
{
    let mut left = t;
    for x in terms {
        if is_counted(*x) {
            if left == 0 {
                return Some(*x);
            }
            left -= 1;
        }
    }
    None
}

impl Assembly for Single {
    ghost meaning = { single };

    #[tactic(auto, using(crate::proofs::SingleLaw::proper_single))]
    fn size(&self) -> Option<Size> {
        domain_of(self.domain)?;
        let laws = usize::from(counted_len(&self.offered()) != 0);
        Some(Size {
            ends: 2,
            inner: 0,
            variables: 2,
            rows: 1,
            laws,
        })
    }

    fn domain(&self, node: usize) -> Option<Domain> {
        let domain = domain_of(self.domain)?;
        (node < 2).then_some(domain)
    }

    fn row(&self, k: usize) -> Option<PlanRow> {
        domain_of(self.domain)?;
        (k == 0).then_some(PlanRow::Branch {
            flow: 0,
            across: 1,
            first: 0,
            second: 1,
        })
    }

    fn law_len(&self, k: usize) -> Option<usize> {
        domain_of(self.domain)?;
        let terms = counted_len(&self.offered());
        (k == 0 && terms != 0).then_some(terms)
    }

    fn term(&self, k: usize, t: usize) -> Option<PlanTerm> {
        domain_of(self.domain)?;
        if k != 0 {
            return None;
        }
        nth_counted(&self.offered(), t)
    }
}
