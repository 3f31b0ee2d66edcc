//! Small sheets.
use draft::Draft;
use netlist::terms::RawTerm;
use sheet::Sheet;
use std::alloc::Global;
use std::test::Fail;

// Three nodes with a branch between each two of them.
pub(super) fn triangle(heap: Global) -> Result<Sheet, Fail> {
    let mut draft = Draft::new(heap)?;
    draft.node(1)?;
    draft.node(1)?;
    draft.node(1)?;
    draft.variables(6)?;
    draft.branch(0, 1, 0, 1)?;
    draft.branch(2, 3, 1, 2)?;
    draft.branch(4, 5, 0, 2)?;
    Ok(draft.issue())
}

// One node, and a branch from it to itself.
pub(super) fn ring(heap: Global) -> Result<Sheet, Fail> {
    let mut draft = Draft::new(heap)?;
    draft.node(1)?;
    draft.variables(2)?;
    draft.branch(0, 1, 0, 0)?;
    Ok(draft.issue())
}

// A branch and an earth behind it: the across of the one is 200 times its flow, that of the other is zero.
pub(super) fn drive(heap: Global) -> Result<Sheet, Fail> {
    let mut draft = Draft::new(heap)?;
    draft.node(1)?;
    draft.node(1)?;
    draft.variables(4)?;
    draft.branch(0, 1, 0, 1)?;
    draft.earth(2, 3, 1)?;
    draft.law(&[RawTerm::value(200, 0), RawTerm::value(-1, 1)])?;
    draft.law(&[RawTerm::value(1, 3)])?;
    Ok(draft.issue())
}

// Two variables without rows: the value of one is the rate of the other.
pub(super) fn rate(heap: Global) -> Result<Sheet, Fail> {
    let mut draft = Draft::new(heap)?;
    draft.variables(2)?;
    draft.law(&[RawTerm::value(1, 0), RawTerm::rate(-1, 1)])?;
    Ok(draft.issue())
}
