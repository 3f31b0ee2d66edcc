//! What a law keeps to, over so many variables.
ghost use Rattle.std.specs.Prelude.{◌≡◌, length, ◌&&◌};
ghost use Rattle.std.specs.List.{list_all};
ghost use Rattle.netlist.specs.Sound.{names, is_sized, is_term_count};
ghost use Rattle.sheet.specs.Steps.{is_lawful};

use netlist::limits::{MAX_COEFFICIENT, MOST_TERMS};
use netlist::terms::Term;

// It has one to eight terms, each of which names a drawn variable and is sized.
pub(crate) fn keeps_bounds(terms: &[Term], variables: usize) -> bool
    ensures { result ≡ is_lawful variables terms.now }
{
    !terms.is_empty()
        && terms.len() <= MOST_TERMS
        && name_drawn(terms, variables)
        && are_sized(terms)
}

// The terms name variables below this number.
pub(crate) fn name_drawn(terms: &[Term], variables: usize) -> bool
    ensures { result ≡ list_all (names variables) terms.now }
{
    terms.iter().all(|term| term.variable < variables)
}

fn are_sized(terms: &[Term]) -> bool
    ensures { result ≡ list_all is_sized terms.now }
{
    terms.iter().all(|term| is_sized(*term))
}

// The coefficient is not 0, and not too large.
fn is_sized(term: Term) -> bool
    ensures { result ≡ is_sized term }
{
    let size = u64::from(term.coefficient.unsigned_abs());
    size != 0 && size <= MAX_COEFFICIENT
}
