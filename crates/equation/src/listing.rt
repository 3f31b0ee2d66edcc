//! The call that lists the equations of a sheet.
ghost use Rattle.std.specs.Prelude.{◌≡◌, length};
ghost use Rattle.equation.specs.Equations.{equations_of};
ghost use Rattle.equation.specs.Listing.{listing_of, answer_equations, left_terms, left_spans};
ghost use Rattle.equation.specs.Placed.{Placed};

use crate::refusals::EquationRefusal;
use crate::rows::row_sizes;
use crate::writing::put_equations;
use netlist::spans::Span;
use netlist::terms::Term;
use sheet::Sheet;

/// How many terms and how many equations there are.
#[derive(Clone, Copy, PartialEq, Eq, Debug)]
pub struct Listing {
    pub terms: usize,
    pub equations: usize,
}

// How many equations there are.
pub(crate) fn count(sheet: &Sheet) -> usize
    ensures { result ≡ length (equations_of sheet.now) }
{
    let rows = sheet.rows();
    sheet.laws().len() + sheet.nodes() + rows.len()
}

/// How much the equations of a sheet need of two buffers.
pub fn size(sheet: &Sheet) -> Listing
    ensures { result ≡ listing_of sheet.now }
{
    let rows = sheet.rows();
    Listing {
        terms: sheet.laws().term_count() + row_sizes(rows),
        equations: count(sheet),
    }
}

/// Writes the sheet's equations: all their terms into one buffer, and into the other where each equation
/// begins and how many terms it has. Answers how many of each are written. It is refused if one of the two is too
/// short, and leaves both as they were.
#[tactic(auto, using(crate::proofs::Placing::placed))]
pub fn equations(
    sheet: &Sheet,
    terms: &mut [Term],
    spans: &mut [Span],
) -> Result<Listing, EquationRefusal>
    ensures answer { result ≡ answer_equations sheet.now (length terms.old) (length spans.old) }
    ensures terms { terms.new ≡ left_terms sheet.now terms.old spans.old }
    ensures spans { spans.new ≡ left_spans sheet.now terms.old spans.old }
    ensures placed { Placed sheet.now }
{
    // Read for what every sheet keeps to, on which `placed` rests.
    let _ = sheet.rows();
    let whole = size(sheet);
    if whole.terms > terms.len() || whole.equations > spans.len() {
        return Err(EquationRefusal::ShortBuffer);
    }
    put_equations(sheet, terms, spans);
    Ok(whole)
}
