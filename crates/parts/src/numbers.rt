//! Domains by their numbers, and how many terms a law may have.
ghost use Rattle.std.specs.Prelude.{◌≡◌};
ghost use Rattle.netlist.specs.Sound.{is_domain, is_term_count};
ghost use Rattle.parts.specs.Numbers.{domain_of};

use netlist::domains::Domain;
use netlist::limits::MOST_TERMS;

/// The domain of this number, if there is one.
pub fn domain_of(number: u32) -> Option<Domain>
    ensures { result ≡ domain_of number }
{
    Domain::try_from(number).ok()
}

/// Whether this is the number of a domain.
pub fn is_domain(number: u32) -> bool
    ensures { result ≡ is_domain number }
{
    Domain::try_from(number).is_ok()
}

/// Whether a law may have so many terms.
pub fn is_term_count(n: usize) -> bool
    ensures { result ≡ is_term_count n }
{
    (1..=MOST_TERMS).contains(&n)
}
