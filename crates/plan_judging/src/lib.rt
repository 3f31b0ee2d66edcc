//! What is wrong with a plan by itself, and the laws of a plan, term by term.
#![tactic(auto)]

ghost use Rattle.plan_judging.specs.Alone.{judge_assembly, CountsTerms};

mod laws;
pub mod refusals;
mod rows;
mod setting;
pub mod terms;

use assembly::Assembly;
use assembly::plans::Size;
pub use refusals::PlaceRefusal;

/// Refuses a void assembly; else for the first row, or else the first law, that would be refused on the plan's
/// own nodes and variables with the rows before it. Want of room does not count. Where nothing is refused, it
/// answers how many terms the laws have together.
pub fn judge_plan<A: Assembly>(part: &A) -> Result<usize, PlaceRefusal>
    ensures { let m = A.Assembly.meaning part.now in CountsTerms m (judge_assembly m) result }
{
    let size = part.size().ok_or(PlaceRefusal::Void)?;
    let mut flags = [false; Size::MOST];
    rows::judge_rows(part, size.rows, &mut flags[..size.variables])?;
    laws::judge_laws(part, size.laws, size.variables)
}
