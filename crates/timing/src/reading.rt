//! What is read off a sheet: its equations, their lines, and whether readings agree.
use checking::{Verdict, check};
use equation::lines::{LINE_BYTES, line};
use equation::listing::{equations, size};
use netlist::spans::Span;
use netlist::terms::Term;
use printing::print_sheet;
use quantity::{Quantity, Whole};
use reading_sums::Readings;
use sheet::Sheet;
use std::time::Instant;
use walk_test::{ByVariable, Finding, Workspace, test_walks};

// How many terms and equations are listed.
pub(crate) fn list(rt: &HostRuntime, sheet: &Sheet) -> anyhow::Result<()> {
    let need = size(sheet);
    let none = Term::value(0, 0);
    let start = Span {
        offset: 0,
        length: 0,
    };
    let mut terms = vec![in rt.alloc(); none; need.terms]?;
    let mut spans = vec![in rt.alloc(); start; need.equations]?;
    let began = Instant::now(rt)?;
    let listed = equations(sheet, terms.as_mut_slice(), spans.as_mut_slice());
    let took = began.elapsed(rt)?;
    let listing = listed?;
    println!(rt;
        "{} equations of {} terms listed",
        listing.equations, listing.terms
    )?;
    eprintln!(rt; "{} equations listed in {took:?}", listing.equations)?;
    Ok(())
}

// How many bytes a sheet takes where it is printed from one listing.
pub(crate) fn print(rt: &HostRuntime, sheet: &Sheet) -> anyhow::Result<()> {
    let mut out = Vec::new(rt.alloc());
    let began = Instant::now(rt)?;
    print_sheet(rt.alloc(), sheet, &mut out)?;
    let took = began.elapsed(rt)?;
    println!(rt; "{} bytes printed", out.len())?;
    eprintln!(rt; "{} bytes printed in {took:?}", out.len())?;
    Ok(())
}

// How many bytes all lines take, each printed by itself.
pub(crate) fn print_each(rt: &HostRuntime, sheet: &Sheet) -> anyhow::Result<()> {
    let mut buffer = vec![in rt.alloc(); 0u8; LINE_BYTES]?;
    let count = size(sheet).equations;
    let mut bytes = 0usize;
    let began = Instant::now(rt)?;
    for k in 0..count {
        bytes = bytes.saturating_add(line(sheet, k, buffer.as_mut_slice())?);
    }
    let took = began.elapsed(rt)?;
    println!(rt; "{bytes} bytes printed line by line")?;
    eprintln!(rt; "{bytes} bytes printed line by line in {took:?}")?;
    Ok(())
}

// Checks readings that are all zero.
pub(crate) fn check_zeros(rt: &HostRuntime, sheet: &Sheet) -> anyhow::Result<()> {
    let values = vec![in rt.alloc(); Whole::zero(); sheet.variables()]?;
    let mut potentials = vec![in rt.alloc(); Whole::zero(); sheet.nodes()]?;
    let mut workspace = Workspace::new(rt.alloc())?;
    let readings = Readings {
        values: values.as_slice(),
        rates: values.as_slice(),
    };
    let began = Instant::now(rt)?;
    let verdict = check(sheet, readings, potentials.as_mut_slice(), &mut workspace);
    let took = began.elapsed(rt)?;
    let holds = verdict == Ok(Verdict::Holds);
    println!(rt; "readings hold: {holds}")?;
    eprintln!(rt; "{} nodes checked in {took:?}", sheet.nodes())?;
    Ok(())
}

// Tests the walks along all rows, with every reading at zero.
pub(crate) fn walk(rt: &HostRuntime, sheet: &Sheet) -> anyhow::Result<()> {
    let values = vec![in rt.alloc(); Whole::zero(); sheet.variables()]?;
    let mut potentials = vec![in rt.alloc(); Whole::zero(); sheet.nodes()]?;
    let mut workspace = Workspace::new(rt.alloc())?;
    let across = ByVariable {
        values: values.as_slice(),
    };
    let began = Instant::now(rt)?;
    let found = test_walks(
        sheet.rows(),
        &across,
        potentials.as_mut_slice(),
        &mut workspace,
    );
    let took = began.elapsed(rt)?;
    let close = found == Ok(Finding::WalksClose);
    println!(rt; "walks add up to zero: {close}")?;
    eprintln!(rt; "walks tested in {took:?}")?;
    Ok(())
}
