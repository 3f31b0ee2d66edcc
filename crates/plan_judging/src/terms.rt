//! The terms of one law of a plan, gathered.
use assembly::Assembly;
use netlist::limits::MOST_TERMS;
use netlist::terms::RawTerm;
use std::marker::Model;

/// At most eight terms, in the first places of an array, which needs no memory.
#[derive(Drop)]
pub struct LawTerms {
    terms: [RawTerm; MOST_TERMS],
    count: usize,
}

// Clauses see the list of the terms.
impl Model for LawTerms {
    ghost use Rattle.std.specs.Prelude.{ℕ, List, ◌≤◌, take};
    ghost use Rattle.netlist.specs.declared.terms.RawTerm.{RawTerm};
    ghost use Rattle.netlist.specs.Limits.{most_terms_of_law};

    ghost Value = { List (RawTerm ℕ) };

    ghost view = { λ l. take l.count l.terms };

    ghost invariant = { λ l. l.count ≤ most_terms_of_law };
}

impl LawTerms {
    ghost use Rattle.std.specs.Prelude.{◌≡◌, take};
    ghost use Rattle.netlist.specs.Limits.{most_terms_of_law};
    ghost use Rattle.assembly.specs.Meaning.{terms_of};
    ghost use Rattle.plan_judging.specs.Terms.{law_from};

    /// The first eight terms of law `k`, its variables counted from `from` on. A plan's law has no more. Past the
    /// last law there are none.
    pub fn of<A: Assembly>(part: &A, k: usize, from: u16) -> LawTerms
        ensures { result ≡ take most_terms_of_law (law_from from (terms_of (A.Assembly.meaning part.now) k)) }
    {
        let mut terms = [RawTerm::value(0, 0); MOST_TERMS];
        for t in 0..MOST_TERMS {
            let Some(term) = part.term(k, t) else {
                return LawTerms { terms, count: t };
            };
            terms[t] = RawTerm {
                coefficient: term.coefficient,
                order: term.order,
                variable: usize::from(from) + term.variable as usize,
            };
        }
        LawTerms {
            terms,
            count: MOST_TERMS,
        }
    }

    /// The terms in their order.
    pub fn as_slice(&self) -> &[RawTerm]
        ensures { result.now ≡ self.now }
    {
        &self.terms[..self.count]
    }
}
