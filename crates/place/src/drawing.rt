//! A plan that has passed is drawn, one thing after another. None of these calls is refused.
ghost use Rattle.std.specs.Prelude.{◌≡◌, ◌+◌, ◌≤◌, length, map, None, Some};
ghost use Rattle.netlist.specs.Domains.{domain_number};
ghost use Rattle.netlist.specs.Limits.{most_nodes, most_rows, most_laws, most_terms};
ghost use Rattle.netlist.specs.Netlist.{term_count, with_nodes, with_rows, with_laws};
ghost use Rattle.draft.specs.Rules.{answer_row, after_row};
ghost use Rattle.assembly.specs.Meaning.{Proper, size_of, laws_of, rows_of};
ghost use Rattle.plan_judging.specs.Alone.{judge_rows, judge_laws};
ghost use Rattle.plan_judging.specs.Terms.{law_from};
ghost use Rattle.place.specs.Moved.{with_plan};
ghost use Rattle.place.specs.Parts.{plan_of, RowsPass, LawsPass};
ghost use Rattle.place.specs.Place.{judge_limits};
ghost use Rattle.place.specs.Seats.{Behind, given, seated_row};

use crate::seats::Seat;
use assembly::Assembly;
use assembly::plans::Size;
use draft::{Draft, DraftRefusal};
use netlist::rows::Row;
use plan_judging::terms::LawTerms;

const ENDS: usize = 2;

// Draws all that the assembly adds.
pub(crate) fn draw<A: Assembly>(draft: &mut Draft, part: &A, size: Size, seat: Seat)
    requires size { size_of (A.Assembly.meaning part.now) ≡ Some size }
    requires proper { Proper (A.Assembly.meaning part.now) }
    requires behind { Behind draft.old seat }
    requires rows { RowsPass draft.old (given seat) (A.Assembly.meaning part.now) }
    requires laws { LawsPass draft.old (A.Assembly.meaning part.now) size.variables }
    requires room { judge_limits draft.old (plan_of (A.Assembly.meaning part.now)) ≡ None }
    ensures { draft.new ≡ with_plan draft.old (given seat) (plan_of (A.Assembly.meaning part.now)) }
{
    draw_nodes(draft, part, size.inner);
    draft.variables(size.variables).unwrap();
    draw_rows(draft, part, size.rows, seat);
    draw_laws(draft, part, size.laws, seat.variables);
}

fn draw_nodes<A: Assembly>(draft: &mut Draft, part: &A, inner: usize)
    requires all { inner ≡ length (plan_of (A.Assembly.meaning part.now)).inner }
    requires proper { Proper (A.Assembly.meaning part.now) }
    requires room { length draft.old.domains + inner ≤ most_nodes }
    ensures { draft.new ≡ with_nodes draft.old (map domain_number (plan_of (A.Assembly.meaning part.now)).inner) }
{
    for j in 0..inner {
        let domain = part.domain(ENDS + j).unwrap();
        draft.node(u32::from(domain)).unwrap();
    }
}

fn draw_rows<A: Assembly>(draft: &mut Draft, part: &A, rows: usize, seat: Seat)
    requires all { rows ≡ length (rows_of (A.Assembly.meaning part.now)) }
    requires passed { judge_rows draft.old 0 (map (seated_row seat) (rows_of (A.Assembly.meaning part.now))) ≡ None }
    requires room { length draft.old.rows + rows ≤ most_rows }
    ensures { draft.new ≡ with_rows draft.old (map (seated_row seat) (rows_of (A.Assembly.meaning part.now))) }
{
    for k in 0..rows {
        let row = part.row(k).unwrap();
        draw_row(draft, seat.row(row)).unwrap();
    }
}

fn draw_row(draft: &mut Draft, row: Row) -> Result<usize, DraftRefusal>
    ensures answer { result ≡ answer_row draft.old row }
    ensures netlist { draft.new ≡ after_row draft.old row }
{
    match row {
        Row::Branch {
            flow,
            across,
            first,
            second,
        } => draft.branch(flow, across, first, second),
        Row::Earth { flow, across, node } => draft.earth(flow, across, node),
    }
}

// The laws' variables are counted from `from` on.
fn draw_laws<A: Assembly>(draft: &mut Draft, part: &A, laws: usize, from: u16)
    requires all { laws ≡ length (laws_of (A.Assembly.meaning part.now)) }
    requires proper { Proper (A.Assembly.meaning part.now) }
    requires passed { let laws = map (law_from from) (laws_of (A.Assembly.meaning part.now)) in
        judge_laws draft.old.variables 0 laws ≡ None }
    requires room { length draft.old.laws + laws ≤ most_laws }
    requires terms { term_count draft.old.laws + term_count (laws_of (A.Assembly.meaning part.now)) ≤ most_terms }
    ensures { draft.new ≡ with_laws draft.old (map (law_from from) (laws_of (A.Assembly.meaning part.now))) }
{
    for k in 0..laws {
        let law = LawTerms::of(part, k, from);
        draft.law(law.as_slice()).unwrap();
    }
}
