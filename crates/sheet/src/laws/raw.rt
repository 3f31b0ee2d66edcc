//! Laws as callers write them: which raw terms stand for a law, and for which terms.
ghost use Rattle.std.specs.Prelude.{◌≡◌, ◌+◌, ◌≤◌, true, ◌++◌, ◌&&◌, map, length, unsigned_abs, vec_len, vec_capacity};
ghost use Rattle.std.specs.List.{list_all};
ghost use Rattle.netlist.specs.Limits.{largest_coefficient};
ghost use Rattle.netlist.specs.Netlist.{term_of};
ghost use Rattle.netlist.specs.Sound.{is_sized};
ghost use Rattle.sheet.specs.Steps.{have_orders, is_lawful, raw_term_fits};

use netlist::limits::{MAX_COEFFICIENT, MOST_TERMS};
use netlist::terms::{Order, RawTerm, Term};

// Each raw term has an order, and the terms for which they stand are a law over so many variables.
#[tactic(auto, using(crate::proofs::Fitting::raw_lawful))]
pub(crate) fn stand_for_law(terms: &[RawTerm], variables: usize) -> bool
    ensures { result ≡ (have_orders terms.now && is_lawful variables (map term_of terms.now)) }
{
    !terms.is_empty() && terms.len() <= MOST_TERMS && all_fit(terms, variables)
}

fn all_fit(terms: &[RawTerm], variables: usize) -> bool
    ensures { result ≡ list_all (raw_term_fits variables) terms.now }
{
    terms.iter().all(|raw| fits(*raw, variables))
}

// It has an order, names a drawn variable, and its coefficient is not 0 and not too large.
fn fits(raw: RawTerm, variables: usize) -> bool
    ensures { result ≡ raw_term_fits variables raw }
{
    let size = raw.coefficient.unsigned_abs();
    Order::try_from(raw.order).is_ok()
        && raw.variable < variables
        && size != 0
        && size <= MAX_COEFFICIENT
}

// Appends the terms for which raw terms stand.
pub(crate) fn append(to: &mut Vec<Term>, terms: &[RawTerm])
    requires room { vec_len to.old + length terms.now ≤ vec_capacity to.old }
    requires sized { list_all is_sized (map term_of terms.now) ≡ true }
    ensures items { to.new.items ≡ to.old.items ++ map term_of terms.now }
    ensures len { vec_len to.new ≡ vec_len to.old + length terms.now }
    ensures capacity { vec_capacity to.new ≡ vec_capacity to.old }
{
    for raw in terms {
        to.push_reserved(accepted(*raw));
    }
}

// The term for which a raw term stands. Without an order, which is tested before, it would be taken for a rate.
fn accepted(raw: RawTerm) -> Term
    requires { unsigned_abs raw.coefficient ≤ largest_coefficient }
    ensures { result ≡ term_of raw }
{
    Term {
        coefficient: raw.coefficient as i32,
        order: Order::try_from(raw.order).unwrap_or(Order::Rate),
        variable: raw.variable,
    }
}
