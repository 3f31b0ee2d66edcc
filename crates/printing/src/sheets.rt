//! The equations of a sheet are printed, a line each, under their header.
ghost use Rattle.std.specs.Prelude.{◌≡◌, ◌≤◌, ◌++◌, length, OnOk};
ghost use Rattle.netlist.specs.Pieces.{flat};
ghost use Rattle.spelling.specs.Headers.{header_text};
ghost use Rattle.spelling.specs.Lines.{line_text};
ghost use Rattle.equation.specs.Equations.{equations_of};
ghost use Rattle.equation.specs.Listing.{spans_from};
ghost use Rattle.equation.specs.Printing.{line_bytes};
ghost use Rattle.printing.specs.Printing.{lines_text, sheet_text};

use equation::lines::LINE_BYTES;
use equation::listing::{equations, size};
use netlist::spans::Span;
use netlist::terms::Term;
use sheet::Sheet;
use spelling::headers::write_header;
use spelling::lines::write_line;
use std::alloc::{AllocError, Global};

fn put_header(equations: usize, buffer: &mut [u8], out: &mut Vec<u8>) -> Result<(), AllocError>
    requires { line_bytes ≤ length buffer.old }
    ensures { OnOk result (out.new.items ≡ out.old.items ++ header_text equations) }
{
    let end = write_header(equations, buffer).unwrap();
    out.extend_from_slice(&buffer[..end])
}

// Prints the equation whose terms add up to zero, of a sheet with so many variables.
fn put_line(
    variables: usize,
    terms: &[Term],
    buffer: &mut [u8],
    out: &mut Vec<u8>,
) -> Result<(), AllocError>
    requires { length (line_text variables terms.now) ≤ length buffer.old }
    ensures { OnOk result (out.new.items ≡ out.old.items ++ line_text variables terms.now) }
{
    let end = write_line(terms, variables, buffer).unwrap();
    out.extend_from_slice(&buffer[..end])
}

// Prints the equations of a sheet, which stand one after another in `terms`, as `spans` tell.
fn put_lines(
    sheet: &Sheet,
    terms: &[Term],
    spans: &[Span],
    buffer: &mut [u8],
    out: &mut Vec<u8>,
) -> Result<(), AllocError>
    requires room { line_bytes ≤ length buffer.old }
    requires terms { terms.now ≡ flat (equations_of sheet.now) }
    requires spans { spans.now ≡ spans_from 0 (equations_of sheet.now) }
    ensures { OnOk result (out.new.items ≡ out.old.items ++ lines_text sheet.now) }
{
    // Read for what every sheet keeps to, so that each of its lines finds room.
    let _ = sheet.rows();
    for span in spans {
        let equation = &terms[span.offset..span.offset + span.length];
        put_line(sheet.variables(), equation, buffer, out)?;
    }
    Ok(())
}

/// Prints the sheet behind what has been printed. Its equations are listed once, in memory of their own, so that
/// printing takes the time of what is printed.
pub fn print_sheet(heap: Global, sheet: &Sheet, out: &mut Vec<u8>) -> Result<(), AllocError>
    ensures { OnOk result (out.new.items ≡ out.old.items ++ sheet_text sheet.now) }
{
    let need = size(sheet);
    let none = Span {
        offset: 0,
        length: 0,
    };
    let mut terms = vec![in heap; Term::value(0, 0); need.terms]?;
    let mut spans = vec![in heap; none; need.equations]?;
    let _ = equations(sheet, &mut terms, &mut spans).unwrap();
    let mut buffer = [0; LINE_BYTES];
    put_header(need.equations, &mut buffer, out)?;
    put_lines(sheet, &terms, &spans, &mut buffer, out)
}
