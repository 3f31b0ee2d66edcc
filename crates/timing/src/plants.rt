//! Sheets of one shape and any size.
use draft::Draft;
use netlist::terms::RawTerm;
use sheet::Sheet;
use std::alloc::Global;

// So many nodes of one domain, with so many branches from each to the seventh behind it, and laws of four terms.
pub(crate) fn ring(heap: Global, nodes: usize, rows: usize, laws: usize) -> anyhow::Result<Sheet> {
    let mut draft = Draft::new(heap)?;
    for _ in 0..nodes {
        draft.node(1)?;
    }
    draft.variables(rows.saturating_mul(2))?;
    for k in 0..rows {
        let flow = k.saturating_mul(2);
        let first = k.checked_rem(nodes).unwrap_or(0);
        let second = k.saturating_add(7).checked_rem(nodes).unwrap_or(0);
        draft.branch(flow, flow.saturating_add(1), first, second)?;
    }
    for k in 0..laws {
        let term = RawTerm::rate(-1_000_000, k.saturating_mul(2));
        draft.law(&[term; 4])?;
    }
    Ok(draft.issue())
}
