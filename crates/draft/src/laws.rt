//! What can be wrong with a law, apart from want of room; and the terms of one that passes.
ghost use Rattle.std.specs.Prelude.{◌≡◌};
ghost use Rattle.netlist.specs.Netlist.{term_of};
ghost use Rattle.draft.specs.Rules.{table_term, table_law};
ghost use Rattle.refusal.specs.Tests.{first_of};
ghost use Rattle.draft.specs.Judging.{BeginsWith};
ghost use Rattle.refusal.specs.Answers.{Accepts};

use crate::refusals::{Argument, DraftRefusal};
use netlist::limits::{MAX_COEFFICIENT, MOST_TERMS};
use netlist::terms::{Order, RawTerm, Term};

// The term that a raw term stands for, as term `i` of a law, counted from 1, over so many variables.
fn accept_term(variables: usize, i: usize, raw: RawTerm) -> Result<Term, DraftRefusal>
    ensures { Accepts (first_of (table_term variables i raw)) (λ term. term ≡ term_of raw) result }
{
    let size = raw.coefficient.unsigned_abs();
    if size == 0 || size > MAX_COEFFICIENT {
        return Err(DraftRefusal::Coefficient { term: i });
    }
    let Ok(order) = Order::try_from(raw.order) else {
        return Err(DraftRefusal::Order { term: i });
    };
    if raw.variable >= variables {
        return Err(DraftRefusal::NoVariable {
            argument: Argument::Term { term: i },
        });
    }
    Ok(Term {
        coefficient: raw.coefficient as i32,
        order,
        variable: raw.variable,
    })
}

/// The terms of a law over so many variables, in the first places of an array, which needs no memory. The places behind
/// them hold a term that adds nothing.
pub fn accept_terms(variables: usize, terms: &[RawTerm]) -> Result<[Term; MOST_TERMS], DraftRefusal>
    ensures { Accepts (first_of (table_law variables terms.now)) (BeginsWith terms.now) result }
{
    if terms.is_empty() || terms.len() > MOST_TERMS {
        return Err(DraftRefusal::TermCount);
    }
    let mut law = [Term::value(0, 0); MOST_TERMS];
    for (i, raw) in terms.iter().enumerate() {
        law[i] = accept_term(variables, i + 1, *raw)?;
    }
    Ok(law)
}
