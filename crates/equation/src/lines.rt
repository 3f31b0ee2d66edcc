//! The call that prints one equation of a sheet.
ghost use Rattle.std.specs.Prelude.{◌≡◌, ◌<◌, length};
ghost use Rattle.spelling.specs.Lines.{line_text};
ghost use Rattle.equation.specs.Equations.{node_sum, equations_of};
ghost use Rattle.equation.specs.Printing.{line_of, answer_line, left_line, LineFits, Printed};

use crate::listing::count;
use crate::nodes::put_node;
use crate::refusals::EquationRefusal;
use crate::rows::RowEquation;
use netlist::limits::MAX_ROWS;
use netlist::terms::Term;
use sheet::Sheet;
use spelling::WriteRefusal;
use spelling::lines::write_line;

/// A buffer of so many bytes holds each line of a sheet: the sum at a node, the longest, has a term for each row at
/// most, each of at most 8 bytes with its blank.
pub const LINE_BYTES: usize = 16_384;

// Prints the sum of the flows at a node.
fn node_line(sheet: &Sheet, node: usize, buffer: &mut [u8]) -> Result<usize, WriteRefusal>
    ensures { Printed buffer.old (line_text sheet.now.variables (node_sum sheet.now.rows node)) result buffer.new }
{
    // An array and a count: no memory is taken once tables are made, and `put_node` fills a slice.
    let mut terms = [Term::value(1, 0); MAX_ROWS];
    let count = put_node(sheet.rows(), node, &mut terms);
    write_line(&terms[..count], sheet.variables(), buffer)
}

// Prints an equation that there is.
fn equation_line(sheet: &Sheet, k: usize, buffer: &mut [u8]) -> Result<usize, WriteRefusal>
    requires { k < length (equations_of sheet.now) }
    ensures { Printed buffer.old (line_of sheet.now k) result buffer.new }
{
    let laws = sheet.laws();
    let variables = sheet.variables();
    if let Some(law) = laws.law(k) {
        return write_line(law, variables, buffer);
    }
    let node = k - laws.len();
    let nodes = sheet.nodes();
    if node < nodes {
        return node_line(sheet, node, buffer);
    }
    let row = sheet.rows()[node - nodes];
    write_line(RowEquation::new(row, variables).terms(), variables, buffer)
}

/// Prints equation `k` of the sheet, and answers how many bytes that took. It is refused if there is no equation `k`,
/// and then if the buffer is shorter than the line, which one of `LINE_BYTES` never is. A refusal leaves the buffer
/// as it was.
pub fn line(sheet: &Sheet, k: usize, buffer: &mut [u8]) -> Result<usize, EquationRefusal>
    ensures answer { result ≡ answer_line sheet.now k buffer.old }
    ensures buffer { buffer.new ≡ left_line sheet.now k buffer.old }
    ensures fits { LineFits sheet.now k }
{
    // Read for what every sheet keeps to, on which `fits` rests.
    let _ = sheet.rows();
    if k >= count(sheet) {
        return Err(EquationRefusal::NoEquation);
    }
    Ok(equation_line(sheet, k, buffer)?)
}
