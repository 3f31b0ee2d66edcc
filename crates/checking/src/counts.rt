//! Whether a check can begin.
ghost use Rattle.std.specs.Prelude.{◌≡◌};
ghost use Rattle.reading_sums.specs.Given.{given};
ghost use Rattle.refusal.specs.Tests.{answer};
ghost use Rattle.checking.specs.Checked.{judge_check};

use crate::refusals::CheckRefusal;
use reading_sums::Readings;
use sheet::Sheet;

// Asks for as many values and rates as the sheet has variables, and as many potentials as it has nodes.
pub(crate) fn judge_counts<K>(
    sheet: &Sheet,
    readings: Readings<K>,
    potentials: usize,
) -> Result<(), CheckRefusal>
    ensures { result ≡ answer (judge_check sheet.now (given readings.entry) potentials) tt }
{
    let variables = sheet.variables();
    let values = readings.values.len();
    let rates = readings.rates.len();
    if values != variables || rates != variables || potentials != sheet.nodes() {
        return Err(CheckRefusal::WrongCount);
    }
    Ok(())
}
