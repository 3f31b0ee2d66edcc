//! A text of readings is read.
ghost use Rattle.std.specs.Prelude.{IfOk};
ghost use Rattle.readings_text.specs.Readings.{ReadsReadings, ReadingsFit};

use crate::faults::ReadingsFault;
use crate::lines::read_line;
use quantity::Whole;
use std::alloc::AllocError;
use text::lines;

/// Reads the values and rates of so many variables, up to the first fault. What the lines before a fault
/// read stays. It fails for want of memory alone.
pub fn read_readings(
    text: &[u8],
    variables: usize,
    values: &mut Vec<Whole>,
    rates: &mut Vec<Whole>,
) -> Result<Result<(), ReadingsFault>, AllocError>
    ensures reads { IfOk result (λ r. ReadsReadings text.now variables r
        values.old.items rates.old.items values.new.items rates.new.items) }
    ensures fit { ReadingsFit }
{
    let mut wanted = variables;
    let mut last = 0;
    for line in lines(text) {
        last = line.number;
        match read_line(line, wanted) {
            Ok(Some(reading)) => {
                values.push(reading.value)?;
                rates.push(reading.rate)?;
                wanted -= 1;
            }
            Ok(None) => {}
            Err(fault) => return Ok(Err(fault)),
        }
    }
    if wanted > 0 {
        return Ok(Err(ReadingsFault::TooFew { line: last }));
    }
    Ok(Ok(()))
}
