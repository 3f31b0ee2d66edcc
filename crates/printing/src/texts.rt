//! What is printed of a text: the equations of the sheet that it draws, or its fault.
ghost use Rattle.std.specs.Prelude.{◌≡◌, ◌++◌, IfOk, OnOk};
ghost use Rattle.netlist.specs.Netlist.{Netlist, empty};
ghost use Rattle.sheet_reader.specs.Faults.{fault_line};
ghost use Rattle.sheet_reader.specs.Reading.{ReadsText};
ghost use Rattle.printing.specs.Printing.{Prints, sheet_text};

use crate::sheets::print_sheet;
use draft::Draft;
use sheet_reader::{FAULT_BYTES, TextFault, read, write_fault};
use std::alloc::{AllocError, Global};

/// Prints the fault behind what has been printed.
pub fn print_fault(fault: TextFault, out: &mut Vec<u8>) -> Result<(), AllocError>
    ensures { OnOk result (out.new.items ≡ out.old.items ++ fault_line fault) }
{
    let mut buffer = [0; FAULT_BYTES];
    let end = write_fault(fault, &mut buffer).unwrap();
    out.extend_from_slice(&buffer[..end])
}

// Prints what has been drawn.
fn print_draft(heap: Global, draft: Draft, out: &mut Vec<u8>) -> Result<(), AllocError>
    ensures { OnOk result (out.new.items ≡ out.old.items ++ sheet_text draft) }
{
    print_sheet(heap, &draft.issue(), out)
}

/// Reads the text, prints what it comes to, and answers whether it was read to its end. It fails for want of
/// memory alone.
pub fn print_text(
    heap: Global,
    text: &[u8],
    out: &mut Vec<u8>,
) -> Result<Result<(), TextFault>, AllocError>
    ensures { IfOk result (λ r. Prints text.now r out.old.items out.new.items) }
{
    let mut draft = Draft::new(heap)?;
    let answer = read(text, &mut draft);
    match answer {
        Ok(()) => print_draft(heap, draft, out)?,
        Err(fault) => print_fault(fault, out)?,
    }
    Ok(answer)
}
