//! Every refusal of the calls that draw. A call that breaks several rules shows which comes first.
use crate::answers::tell;
use draft::Draft;
use netlist::terms::RawTerm;

// Any number may stand for the order: a trial shows that a wrong one is refused.
fn term(coefficient: i64, order: u32, variable: usize) -> RawTerm {
    RawTerm {
        coefficient,
        order,
        variable,
    }
}

// The runtime and the draft are passed on as they are: a struct of both would be no plainer.
fn nodes(rt: &HostRuntime, draft: &mut Draft) -> anyhow::Result<()> {
    tell(rt, "node 0", draft.node(0))?;
    tell(rt, "node 5", draft.node(5))?;
    tell(rt, "node 4294967295", draft.node(u32::MAX))?;
    tell(rt, "variables 3995", draft.variables(3995))?;
    tell(rt, "variables 2^64 - 1", draft.variables(usize::MAX))
}

fn branches(rt: &HostRuntime, draft: &mut Draft) -> anyhow::Result<()> {
    tell(rt, "branch 9 9 3 4", draft.branch(9, 9, 3, 4))?;
    tell(rt, "branch 9 9 0 3", draft.branch(9, 9, 0, 3))?;
    tell(rt, "branch 6 9 0 2", draft.branch(6, 9, 0, 2))?;
    tell(rt, "branch 0 6 0 2", draft.branch(0, 6, 0, 2))?;
    tell(rt, "branch 0 1 0 2", draft.branch(0, 1, 0, 2))?;
    tell(rt, "branch 1 1 0 2", draft.branch(1, 1, 0, 2))?;
    tell(rt, "branch 2 0 0 2", draft.branch(2, 0, 0, 2))?;
    tell(rt, "branch 2 2 0 2", draft.branch(2, 2, 0, 2))?;
    tell(rt, "branch 2 3 0 2", draft.branch(2, 3, 0, 2))?;
    tell(rt, "branch 2 3 2 1", draft.branch(2, 3, 2, 1))
}

fn earths(rt: &HostRuntime, draft: &mut Draft) -> anyhow::Result<()> {
    tell(rt, "earth 9 9 3", draft.earth(9, 9, 3))?;
    tell(rt, "earth 6 9 0", draft.earth(6, 9, 0))?;
    tell(rt, "earth 0 6 0", draft.earth(0, 6, 0))?;
    tell(rt, "earth 1 3 0", draft.earth(1, 3, 0))?;
    tell(rt, "earth 3 1 0", draft.earth(3, 1, 0))?;
    tell(rt, "earth 3 3 0", draft.earth(3, 3, 0))
}

fn laws(rt: &HostRuntime, draft: &mut Draft) -> anyhow::Result<()> {
    let good = term(1, 0, 0);
    let zero = term(0, 2, 6);
    let order = term(1_000_000, 2, 6);
    let undrawn = term(-1_000_000, 1, 6);
    tell(rt, "law of no terms", draft.law(&[]))?;
    tell(rt, "law of nine terms", draft.law(&[zero; 9]))?;
    tell(rt, "law zero good", draft.law(&[zero, good]))?;
    tell(rt, "law good zero", draft.law(&[good, zero]))?;
    tell(rt, "law too large", draft.law(&[term(1_000_001, 0, 0)]))?;
    tell(
        rt,
        "law too low",
        draft.law(&[good, term(-1_000_001, 0, 0)]),
    )?;
    tell(rt, "law order zero", draft.law(&[order, zero]))?;
    tell(rt, "law good order", draft.law(&[good, order]))?;
    tell(rt, "law undrawn zero", draft.law(&[undrawn, zero]))?;
    tell(rt, "law good undrawn", draft.law(&[good, undrawn]))
}

// No refusal has drawn anything: the numbers go on where they were.
fn after(rt: &HostRuntime, draft: &mut Draft) -> anyhow::Result<()> {
    tell(rt, "node 4", draft.node(4))?;
    tell(rt, "variables 0", draft.variables(0))?;
    tell(rt, "earth 2 3 2", draft.earth(2, 3, 2))?;
    tell(rt, "law of eight terms", draft.law(&[term(1, 1, 5); 8]))
}

// Nodes 0 and 1 are electrical, node 2 is rotational; a branch has taken variables 0 and 1 of six.
pub(crate) fn run(rt: &HostRuntime) -> anyhow::Result<()> {
    let mut draft = Draft::new(rt.alloc())?;
    tell(rt, "node 1", draft.node(1))?;
    tell(rt, "node 1", draft.node(1))?;
    tell(rt, "node 2", draft.node(2))?;
    tell(rt, "variables 6", draft.variables(6))?;
    tell(rt, "branch 0 1 0 1", draft.branch(0, 1, 0, 1))?;
    nodes(rt, &mut draft)?;
    branches(rt, &mut draft)?;
    earths(rt, &mut draft)?;
    laws(rt, &mut draft)?;
    after(rt, &mut draft)
}
