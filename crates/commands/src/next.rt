//! The values of a line's next fields.
ghost use Rattle.text.specs.Reading.{rest_of};
ghost use Rattle.commands.specs.Steps.{ReadsNumber, ReadsCoefficient, ReadsTerm, ReadsNoTerm};

use netlist::terms::RawTerm;
use text::Fields;

// The next field's number; 0 where no field is left, as only in a line that `read_line` did not give.
pub(crate) fn next_number(fields: &mut Fields<'_>) -> u32
    ensures { ReadsNumber (rest_of fields.old) result (rest_of fields.new) }
{
    fields.next().map_or(0, |field| field.number())
}

// The same as a size: a `usize` has no `From<u32>`.
pub(crate) fn next_size(fields: &mut Fields<'_>) -> usize
    ensures { ReadsNumber (rest_of fields.old) result (rest_of fields.new) }
{
    next_number(fields) as usize
}

// The next field's coefficient; 0 likewise where no field is left.
pub(crate) fn next_coefficient(fields: &mut Fields<'_>) -> i64
    ensures { ReadsCoefficient (rest_of fields.old) result (rest_of fields.new) }
{
    fields
        .next()
        .map_or(0, |field| i64::from(field.coefficient()))
}

// The term that the next three fields write, or none where no field is left.
pub(crate) fn next_term(fields: &mut Fields<'_>) -> Option<RawTerm>
    ensures term { ReadsTerm (rest_of fields.old) result (rest_of fields.new) }
    ensures none { ReadsNoTerm (rest_of fields.old) result }
{
    let field = fields.next()?;
    let coefficient = i64::from(field.coefficient());
    let order = next_number(fields);
    let variable = next_size(fields);
    Some(RawTerm {
        coefficient,
        order,
        variable,
    })
}
