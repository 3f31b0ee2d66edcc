//! The sum of the flows at a node.
ghost use Rattle.std.specs.Prelude.{◌≡◌, ◌≤◌, length};
ghost use Rattle.netlist.specs.Buffers.{over};
ghost use Rattle.equation.specs.Equations.{term_at, node_sum};

use netlist::rows::Row;
use netlist::terms::Term;

// What a row adds to the sum of the flows at a node.
fn term_at(row: Row, node: usize) -> Option<Term>
    ensures { result ≡ term_at node row }
{
    match row {
        Row::Branch { first, second, .. } if first == second => None,
        Row::Branch { flow, first, .. } if first == node => Some(Term::value(1, flow)),
        Row::Branch { flow, second, .. } if second == node => Some(Term::value(-1, flow)),
        Row::Earth {
            flow,
            node: earthed,
            ..
        } if earthed == node => Some(Term::value(1, flow)),
        _ => None,
    }
}

// Writes the sum of the flows at a node from the start of `terms` on, and answers how many terms it has.
// The count goes up with each term that a row adds.
pub(crate) fn put_node(rows: &[Row], node: usize, terms: &mut [Term]) -> usize
    requires { length (node_sum rows.now node) ≤ length terms.old }
    ensures count { result ≡ length (node_sum rows.now node) }
    ensures after { terms.new ≡ over terms.old (node_sum rows.now node) }
{
    let mut count = 0;
    for row in rows {
        if let Some(term) = term_at(*row, node) {
            terms[count] = term;
            count += 1;
        }
    }
    count
}
