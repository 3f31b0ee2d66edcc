//! The equation of a row.
ghost use Rattle.std.specs.Prelude.{◌≡◌, ◌≤◌, length, sum_by};
ghost use Rattle.netlist.specs.Limits.{most_rows};
ghost use Rattle.equation.specs.Equations.{row_equation};
ghost use Rattle.equation.specs.Writing.{Numbered, row_size, terms_of};

use netlist::rows::Row;
use netlist::terms::Term;

// The equation of a row: three terms for a branch, two for an earth.
#[derive(Clone, Copy)]
pub(crate) enum RowEquation {
    Branch([Term; 3]),
    Earth([Term; 2]),
}

impl RowEquation {
    // The equation of a row, of a sheet with so many variables.
    pub(crate) fn new(row: Row, variables: usize) -> RowEquation
        requires { Numbered variables row }
        ensures { terms_of result ≡ row_equation variables row }
    {
        match row {
            Row::Branch {
                across,
                first,
                second,
                ..
            } => RowEquation::Branch([
                Term::value(1, across),
                Term::value(-1, variables + first),
                Term::value(1, variables + second),
            ]),
            Row::Earth { across, node, .. } => RowEquation::Earth([
                Term::value(1, across),
                Term::value(-1, variables + node),
            ]),
        }
    }

    pub(crate) fn terms(&self) -> &[Term]
        ensures { result.now ≡ terms_of self.now }
    {
        match self {
            RowEquation::Branch(terms) => terms,
            RowEquation::Earth(terms) => terms,
        }
    }
}

// How many terms a row brings, at its nodes and in its own equation.
fn row_size(row: Row) -> usize
    ensures value { result ≡ row_size row }
    ensures bound { result ≤ 5 }
{
    match row {
        Row::Branch { first, second, .. } if first == second => 3,
        Row::Branch { .. } => 5,
        Row::Earth { .. } => 3,
    }
}

// How many terms these rows bring.
pub(crate) fn row_sizes(rows: &[Row]) -> usize
    requires { length rows.now ≤ most_rows }
    ensures { result ≡ sum_by row_size rows.now }
{
    rows.iter().map(|row| row_size(*row)).sum()
}
