//! A sheet text and readings of its sheet are read, checked and printed.
ghost use Rattle.std.specs.Prelude.{◌≡◌, IfOk, length};
ghost use Rattle.reading_sums.specs.Given.{given};
ghost use Rattle.small_readings.specs.Small.{AreSmall};
ghost use Rattle.answering.specs.Answering.{Accepted, Answered};

use crate::accepted::print_accepted;
use crate::faults::AnswerFault;
use agreement::{Buffers, accept};
use checking::Verdict;
use draft::Draft;
use parts::single::Single;
use quantity::Whole;
use reading_sums::Readings;
use readings_text::read_readings;
use sheet_reader::read;
use std::alloc::{AllocError, Global};
use walk_test::Workspace;

// Accepts the draft with a value and a rate of each variable, and prints what it came to. The equations are
// printed from the sheet, so no buffers are lent for a list of them.
fn print_draft(
    heap: Global,
    draft: Draft,
    readings: Readings<Whole>,
    potentials: &mut [Whole],
    out: &mut Vec<u8>,
) -> Result<Verdict, AllocError>
    requires values { length readings.values.now ≡ draft.variables }
    requires rates { length readings.rates.now ≡ draft.variables }
    requires potentials { length potentials.old ≡ length draft.domains }
    requires small_values { AreSmall readings.values.now }
    requires small_rates { AreSmall readings.rates.now }
    ensures { IfOk result (λ verdict. Accepted draft (given readings.entry) verdict potentials.new
        out.old.items out.new.items) }
{
    let mut workspace = Workspace::new(heap)?;
    let mut buffers = Buffers {
        terms: &mut [],
        spans: &mut [],
        potentials: &mut *potentials,
    };
    let accepted = accept::<Whole, Single>(draft, &[], readings, &mut buffers, &mut workspace);
    let verdict = accepted.checked.unwrap();
    print_accepted(heap, &accepted.sheet, verdict, potentials, out)?;
    Ok(verdict)
}

/// Reads both texts, and prints the equations, the verdict and the potentials. Where a text is at fault
/// nothing is printed. It fails for want of memory alone.
pub fn answer(
    heap: Global,
    sheet_text: &[u8],
    readings_text: &[u8],
    out: &mut Vec<u8>,
) -> Result<Result<Verdict, AnswerFault>, AllocError>
    ensures { IfOk result (λ r. Answered sheet_text.now readings_text.now r out.old.items out.new.items) }
{
    let mut draft = Draft::new(heap)?;
    if let Err(fault) = read(sheet_text, &mut draft) {
        return Ok(Err(AnswerFault::Sheet { fault }));
    }
    let mut values = Vec::new(heap);
    let mut rates = Vec::new(heap);
    let wanted = draft.counts().variables;
    if let Err(fault) = read_readings(readings_text, wanted, &mut values, &mut rates)? {
        return Ok(Err(AnswerFault::Readings { fault }));
    }
    let mut potentials = vec![in heap; Whole { value: 0 }; draft.counts().nodes]?;
    let readings = Readings {
        values: values.as_slice(),
        rates: rates.as_slice(),
    };
    let verdict = print_draft(heap, draft, readings, potentials.as_mut_slice(), out)?;
    Ok(Ok(verdict))
}
