//! The check of readings against a sheet.
ghost use Rattle.netlist.specs.Sound.{Sound};
ghost use Rattle.reading_sums.specs.Given.{given};
ghost use Rattle.checking.specs.Checked.{Checked};
ghost use Rattle.checking.specs.Integers.{ExactVerdicts};
ghost use Rattle.checking.specs.Verdicts.{OneVerdict};

use crate::counts::judge_counts;
use crate::refusals::CheckRefusal;
use crate::searching::{first_law, first_node};
use crate::verdicts::Verdict;
use quantity::Quantity;
use reading_sums::Readings;
use sheet::Sheet;
use walk_test::{ByVariable, Finding, Workspace, clear, test_walks};

/// Takes the value and the rate of each variable, and says whether they agree with the sheet. If they do, the
/// buffer gets the potential of each node: they satisfy all equations, the earth is at zero and so is the lowest
/// node of each part without an earth. If not, each potential is zero. Where there are not as many readings and
/// potentials as the sheet has variables and nodes it is refused, and each potential stays. Whole numbers are taken
/// modulo 2^64; where all values and rates are from -2^40 to 2^40 nothing is lost: the verdict and the potentials are
/// those over the unbounded integers.
pub fn check<K: Quantity>(
    sheet: &Sheet,
    readings: Readings<K>,
    potentials: &mut [K],
    workspace: &mut Workspace,
) -> Result<Verdict, CheckRefusal>
    ensures checked { Checked K.group sheet.now (given readings.entry) potentials.old potentials.new result }
    ensures sound { Sound sheet.now }
    ensures exact { ExactVerdicts }
{
    let rows = sheet.rows();
    judge_counts(sheet, readings, potentials.len())?;
    clear(potentials);
    if let Some(law) = first_law(sheet, readings) {
        return Ok(Verdict::Law { law });
    }
    if let Some(node) = first_node(sheet, readings.values, potentials) {
        return Ok(Verdict::Node { node });
    }
    let across = ByVariable {
        values: readings.values,
    };
    match test_walks(rows, &across, potentials, workspace).unwrap() {
        Finding::WalksClose => Ok(Verdict::Holds),
        Finding::SomeWalkFails { row } => Ok(Verdict::Row { row }),
    }
}

/// `check` is left no choice: readings of a sheet have one verdict. This computes nothing: the theorem is
/// the contract.
pub fn one_verdict<K: Quantity>()
    ensures { OneVerdict K.group }
{}
