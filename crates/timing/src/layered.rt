//! Assemblies in many levels.
use assembly::Assembly;
use draft::Draft;
use parts::single::Single;
use place::place;
use repeat::Repeat;
use std::time::Instant;

const ASKED: usize = 100_000;

// Places an assembly with both ends at one node.
pub(crate) fn place_part<A: Assembly>(
    rt: &HostRuntime,
    name: &str,
    part: &A,
) -> anyhow::Result<()> {
    let mut draft = Draft::new(rt.alloc())?;
    draft.node(2)?;
    let began = Instant::now(rt)?;
    let placed = place(&mut draft, part, 0, 0);
    let took = began.elapsed(rt)?;
    placed?;
    println!(rt; "{name}: {} rows placed", draft.counts().rows)?;
    eprintln!(rt; "{name}: placed in {took:?}")?;
    Ok(())
}

// Asks a chain of so many parts for its last row, again and again.
pub(crate) fn ask(rt: &HostRuntime, part: Single, times: usize) -> anyhow::Result<()> {
    let chain = Repeat::new(part, times);
    let mut found = 0usize;
    let began = Instant::now(rt)?;
    for k in 0..ASKED {
        if chain.row(times.saturating_sub(1 + k % 2)).is_some() {
            found = found.saturating_add(1);
        }
    }
    let took = began.elapsed(rt)?;
    println!(rt; "{found} rows told")?;
    eprintln!(rt; "{ASKED} rows of {times} copies told in {took:?}")?;
    Ok(())
}
