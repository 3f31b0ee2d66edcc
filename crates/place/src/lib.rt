//! The call that draws a whole assembly on a draft.
#![tactic(auto)]

ghost use Rattle.std.specs.Prelude.{◌≡◌, [], ◌∷◌, OnErr};
ghost use Rattle.refusal.specs.Answers.{Tells};
ghost use Rattle.place.specs.Place.{judge_room, answer_place, after_place};

mod drawing;
mod ends;
mod seats;

use assembly::Assembly;
use assembly::plans::Size;
use draft::Draft;
use drawing::draw;
use ends::judge_ends;
use plan_judging::{PlaceRefusal, judge_plan};
use seats::Seat;
use sheet::Counts;

/// Places an assembly with its ends at two nodes, which may be one: draws its inner nodes and its variables,
/// and then its rows and laws. Answers how much was drawn before, so that what is new can be found. Refused
/// are a void assembly, a node that is not drawn or has another domain than its end, a row or a law that would be
/// refused, and what passes a limit. All of it is drawn, or nothing.
pub fn place<A: Assembly>(
    draft: &mut Draft,
    part: &A,
    first: usize,
    second: usize,
) -> Result<Counts, PlaceRefusal>
    ensures answer { result ≡ answer_place draft.old (A.Assembly.meaning part.now) (first ∷ second ∷ []) }
    ensures netlist { draft.new ≡ after_place draft.old (A.Assembly.meaning part.now) (first ∷ second ∷ []) }
    ensures kept { OnErr result (draft.new ≡ draft.old) }
{
    let before = draft.counts();
    let size = judge_ends(draft, part, first, second)?;
    let terms = judge_plan(part)?;
    judge_room(draft, added(size), terms)?;
    let seat = Seat {
        first,
        second,
        nodes: before.nodes as u16,
        variables: before.variables as u16,
    };
    draw(draft, part, size, seat);
    Ok(before)
}

// Whether so much more finds room, with so many terms in its laws.
fn judge_room(draft: &Draft, more: Counts, terms: usize) -> Result<(), PlaceRefusal>
    ensures { Tells (judge_room draft.now more terms) result }
{
    match draft.judge_room(more, terms) {
        Ok(()) => Ok(()),
        Err(table) => Err(PlaceRefusal::Limit { table }),
    }
}

// What a plan of this size adds.
fn added(size: Size) -> Counts
    ensures { result ≡ record { nodes = size.inner; variables = size.variables; rows = size.rows; laws = size.laws } }
{
    Counts {
        nodes: size.inner,
        variables: size.variables,
        rows: size.rows,
        laws: size.laws,
    }
}
