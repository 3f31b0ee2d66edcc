//! The rows of a plan are judged in turn.
ghost use Rattle.std.specs.Prelude.{◌≡◌, ◌≤◌, length};
ghost use Rattle.refusal.specs.Answers.{Tells};
ghost use Rattle.assembly.specs.Meaning.{rows_of};
ghost use Rattle.assembly.specs.Plans.{most_of_plan};
ghost use Rattle.plan_judging.specs.Alone.{judge_rows_of};

use crate::refusals::PlaceRefusal;
use crate::setting::PlanSetting;
use assembly::Assembly;
use draft::rows::judge_row;
use netlist::rows::Row;

// Judges each row with those before it drawn. `taken` is lent, and has a flag for each variable.
pub(crate) fn judge_rows<A: Assembly>(
    part: &A,
    rows: usize,
    taken: &mut [bool],
) -> Result<(), PlaceRefusal>
    requires all { rows ≡ length (rows_of (A.Assembly.meaning part.now)) }
    requires few { rows ≤ most_of_plan }
    ensures { Tells (judge_rows_of (A.Assembly.meaning part.now) (length taken.old)) result }
{
    taken.fill(false);
    for k in 0..rows {
        let row = Row::from(part.row(k).unwrap());
        let setting = PlanSetting { part, taken };
        if let Err(inner) = judge_row(&setting, row) {
            return Err(PlaceRefusal::Row {
                row: k as u16,
                inner,
            });
        }
        taken[row.flow()] = true;
        taken[row.across()] = true;
    }
    Ok(())
}
