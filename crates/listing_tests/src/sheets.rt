//! Small sheets, and the lines that they print.
use anyhow::Context;
use draft::Draft;
use equation::lines::line;
use equation::listing::size;
use netlist::terms::RawTerm;
use sheet::Sheet;
use spelling::headers::write_header;
use std::io::Write;

// Writes what was printed into the buffer. `rigcobase` shows lines and prints a sheet in the same few lines,
// for which a crate of their own would be no plainer.
fn show(rt: &HostRuntime, buffer: &[u8], end: usize) -> anyhow::Result<()> {
    let text = buffer.get(..end).context("a line past its buffer")?;
    rt.stdout().write_all(text)?;
    Ok(())
}

fn print(rt: &HostRuntime, sheet: &Sheet, buffer: &mut [u8]) -> anyhow::Result<()> {
    let count = size(sheet).equations;
    let end = write_header(count, buffer)?;
    show(rt, buffer, end)?;
    for k in 0..count {
        let end = line(sheet, k, buffer)?;
        show(rt, buffer, end)?;
    }
    Ok(())
}

// A resistance from node 0 to node 1, which is earthed.
fn resistance(rt: &HostRuntime) -> anyhow::Result<()> {
    let mut draft = Draft::new(rt.alloc())?;
    draft.node(1)?;
    draft.node(1)?;
    draft.variables(4)?;
    draft.branch(0, 1, 0, 1)?;
    draft.earth(2, 3, 1)?;
    draft.law(&[RawTerm::value(200, 0), RawTerm::value(-1, 1)])?;
    draft.law(&[RawTerm::value(1, 3)])?;
    print(rt, &draft.issue(), &mut [0; 64])
}

fn empty(rt: &HostRuntime) -> anyhow::Result<()> {
    let draft = Draft::new(rt.alloc())?;
    print(rt, &draft.issue(), &mut [0; 64])
}

// A node without rows, a branch from a node to itself, rates, and the largest coefficients.
fn edges(rt: &HostRuntime) -> anyhow::Result<()> {
    let mut draft = Draft::new(rt.alloc())?;
    draft.node(4)?;
    draft.node(2)?;
    draft.variables(2)?;
    draft.branch(1, 0, 1, 1)?;
    draft.law(&[
        RawTerm::rate(-1_000_000, 1),
        RawTerm::value(1_000_000, 0),
        RawTerm::rate(7, 0),
    ])?;
    print(rt, &draft.issue(), &mut [0; 64])
}

pub(crate) fn run(rt: &HostRuntime) -> anyhow::Result<()> {
    resistance(rt)?;
    empty(rt)?;
    edges(rt)
}
