//! What is printed of a sheet that was accepted with readings.
ghost use Rattle.std.specs.Prelude.{◌≡◌, ◌++◌, OnOk};
ghost use Rattle.answering.specs.Answers.{accepted_text};

use crate::potentials::print_potentials;
use crate::verdicts::print_verdict;
use checking::Verdict;
use printing::print_sheet;
use quantity::Whole;
use sheet::Sheet;
use std::alloc::{AllocError, Global};

/// Prints the equations of the sheet, the verdict, and where the readings agree the potentials.
pub fn print_accepted(
    heap: Global,
    sheet: &Sheet,
    verdict: Verdict,
    potentials: &[Whole],
    out: &mut Vec<u8>,
) -> Result<(), AllocError>
    ensures { OnOk result (out.new.items ≡ out.old.items ++ accepted_text sheet.now verdict potentials.now) }
{
    print_sheet(heap, sheet, out)?;
    print_verdict(heap, verdict, out)?;
    match verdict {
        Verdict::Holds => print_potentials(heap, potentials, out),
        Verdict::Law { .. } | Verdict::Node { .. } | Verdict::Row { .. } => Ok(()),
    }
}
