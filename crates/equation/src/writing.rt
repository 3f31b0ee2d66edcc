//! All equations of a sheet, written one after another.
ghost use Rattle.std.specs.Prelude.{◌≡◌, ◌+◌, ◌<◌, ◌≤◌, length, slice_set, true};
ghost use Rattle.std.specs.List.{list_all};
ghost use Rattle.netlist.specs.Buffers.{over};
ghost use Rattle.netlist.specs.Pieces.{flat};
ghost use Rattle.equation.specs.Equations.{node_sums, equations_of};
ghost use Rattle.equation.specs.Listing.{spans_from, listing_of};
ghost use Rattle.equation.specs.Writing.{Closes, Lists, ListsAll};
ghost use Rattle.equation.specs.Touches.{touches_below};

use crate::cursors::put_node_sums;
use crate::rows::RowEquation;
use netlist::rows::Row;
use netlist::spans::Span;
use netlist::terms::Term;
use sheet::Sheet;

// Two lent buffers, and how many terms and how many equations stand in them so far.
#[derive(Drop)]
struct Lister<'a> {
    terms: &'a mut [Term],
    spans: &'a mut [Span],
    written: usize,
    listed: usize,
}

// Each says what room it needs, which no fact of the type could tell of the equations to come, and that it
// keeps its two buffers, as a struct that holds a `&mut` must.
impl Lister<'_> {
    // Lists the equation whose `count` terms are written already, behind those of the others.
    fn close(&mut self, count: usize)
        requires terms_room { self.old.written + count ≤ length self.old.terms.now }
        requires spans_room { self.old.listed < length self.old.spans.now }
        ensures { Closes self.old count self.new }
    {
        self.spans[self.listed] = Span {
            offset: self.written,
            length: count,
        };
        self.written += count;
        self.listed += 1;
    }

    // Lists an equation.
    fn list(&mut self, equation: &[Term])
        requires terms_room { self.old.written + length equation.now ≤ length self.old.terms.now }
        requires spans_room { self.old.listed < length self.old.spans.now }
        ensures { Lists self.old equation.now self.new }
    {
        self.terms[self.written..self.written + equation.len()].copy_from_slice(equation);
        self.close(equation.len());
    }

    // Lists the sums of the flows at all nodes, of which there are so many.
    fn list_nodes(&mut self, rows: &[Row], nodes: usize)
        requires below { list_all (touches_below nodes) rows.now ≡ true }
        requires terms_room { self.old.written + length (flat (node_sums rows.now nodes)) ≤ length self.old.terms.now }
        requires spans_room { self.old.listed + nodes ≤ length self.old.spans.now }
        ensures { ListsAll self.old (node_sums rows.now nodes) self.new }
    {
        let spans = &mut self.spans[self.listed..self.listed + nodes];
        self.written = put_node_sums(rows, self.written, self.terms, spans);
        self.listed += nodes;
    }
}

// Writes all equations of a sheet from the buffers' starts on.
pub(crate) fn put_equations(sheet: &Sheet, terms: &mut [Term], spans: &mut [Span])
    requires terms_room { (listing_of sheet.now).terms ≤ length terms.old }
    requires spans_room { (listing_of sheet.now).equations ≤ length spans.old }
    ensures terms { terms.new ≡ over terms.old (flat (equations_of sheet.now)) }
    ensures spans { spans.new ≡ over spans.old (spans_from 0 (equations_of sheet.now)) }
{
    let mut lister = Lister {
        terms,
        spans,
        written: 0,
        listed: 0,
    };
    for law in sheet.laws() {
        lister.list(law);
    }
    let rows = sheet.rows();
    lister.list_nodes(rows, sheet.nodes());
    for row in rows {
        lister.list(RowEquation::new(*row, sheet.variables()).terms());
    }
}
