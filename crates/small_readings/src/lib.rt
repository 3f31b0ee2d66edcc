//! Readings so small that whole numbers judge them as the unbounded integers do.
#![tactic(auto)]

ghost use Rattle.std.specs.Prelude.{◌↔◌, IsTrue};
ghost use Rattle.small_readings.specs.Small.{AreSmall};
ghost use Rattle.small_readings.specs.Exact.{SmallIsExact};

use quantity::Whole;

/// The size of a small reading is at most this, 2^40. Eight terms with the greatest coefficients stay below 2^63 up to
/// here, and not up to 2^41.
pub const MAX_READING: u64 = 1 << 40;

/// True exactly if every reading is from -2^40 to 2^40. A sound netlist, whose values and rates are so, is
/// judged over whole numbers as over the integers.
pub fn all_small(readings: &[Whole]) -> bool
    ensures value { IsTrue result ↔ AreSmall readings.now }
    ensures exact { SmallIsExact }
{
    readings
        .iter()
        .all(|reading| reading.value.unsigned_abs() <= MAX_READING)
}
