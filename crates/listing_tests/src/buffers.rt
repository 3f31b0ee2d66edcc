//! Buffers that just fit and that are one short, and what they hold afterwards.
use crate::answers::tell;
use draft::Draft;
use equation::lines::line;
use equation::listing::equations;
use netlist::spans::Span;
use netlist::terms::{Order, Term};
use sheet::Sheet;
use std::io::Write;

const OLD: Term = Term {
    coefficient: 9,
    order: Order::Rate,
    variable: 9,
};

const OLD_SPAN: Span = Span {
    offset: 9,
    length: 9,
};

// An earth at one node: three terms in two equations.
fn earthed(rt: &HostRuntime) -> anyhow::Result<Sheet> {
    let mut draft = Draft::new(rt.alloc())?;
    draft.node(1)?;
    draft.variables(2)?;
    draft.earth(0, 1, 0)?;
    Ok(draft.issue())
}

// Lists into buffers of so many places, and tells what they hold.
fn list(
    rt: &HostRuntime,
    sheet: &Sheet,
    terms: &mut [Term],
    spans: &mut [Span],
) -> anyhow::Result<()> {
    let answer = equations(sheet, terms, spans);
    tell(rt, "equations", answer.map(|listing| listing.equations))?;
    println!(rt; "{terms:?}")?;
    println!(rt; "{spans:?}")?;
    Ok(())
}

fn print(rt: &HostRuntime, sheet: &Sheet, k: usize, buffer: &mut [u8]) -> anyhow::Result<()> {
    tell(rt, "line", line(sheet, k, buffer))?;
    rt.stdout().write_all(buffer)?;
    println!(rt; ".")?;
    Ok(())
}

pub(crate) fn run(rt: &HostRuntime) -> anyhow::Result<()> {
    let sheet = earthed(rt)?;
    list(rt, &sheet, &mut [OLD; 4], &mut [OLD_SPAN; 3])?;
    list(rt, &sheet, &mut [OLD; 3], &mut [OLD_SPAN; 2])?;
    list(rt, &sheet, &mut [OLD; 2], &mut [OLD_SPAN; 2])?;
    list(rt, &sheet, &mut [OLD; 3], &mut [OLD_SPAN; 1])?;
    print(rt, &sheet, 0, &mut [b'x'; 8])?;
    print(rt, &sheet, 0, &mut [b'x'; 9])?;
    print(rt, &sheet, 0, &mut [b'x'; 11])?;
    // That there is no such equation comes before a short buffer.
    print(rt, &sheet, 2, &mut [b'x'; 2])?;
    print(rt, &sheet, usize::MAX, &mut [b'x'; 2])
}
