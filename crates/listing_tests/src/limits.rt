//! The last of each thing is accepted, and the next refused by its table.
use crate::answers::tell;
use draft::Draft;
use netlist::terms::RawTerm;

const TERM: RawTerm = RawTerm {
    coefficient: 1,
    order: 1,
    variable: 3999,
};

fn nodes(rt: &HostRuntime) -> anyhow::Result<()> {
    let mut draft = Draft::new(rt.alloc())?;
    for _ in 0..999 {
        draft.node(1)?;
    }
    tell(rt, "the 1,000th node", draft.node(1))?;
    tell(rt, "one more", draft.node(1))?;
    tell(rt, "one more of domain 5", draft.node(5))
}

fn variables(rt: &HostRuntime) -> anyhow::Result<()> {
    let mut draft = Draft::new(rt.alloc())?;
    tell(rt, "4,000 variables", draft.variables(4000))?;
    tell(rt, "none more", draft.variables(0))?;
    tell(rt, "one more", draft.variables(1))
}

fn rows(rt: &HostRuntime) -> anyhow::Result<()> {
    let mut draft = Draft::new(rt.alloc())?;
    tell(rt, "node 3", draft.node(3))?;
    tell(rt, "4,000 variables", draft.variables(4000))?;
    for k in 0..1499 {
        draft.earth(2 * k, 2 * k + 1, 0)?;
    }
    tell(rt, "the 1,500th row", draft.branch(2998, 2999, 0, 0))?;
    tell(rt, "one more", draft.branch(3000, 3001, 0, 0))?;
    tell(rt, "one more at no node", draft.earth(3000, 3001, 1))
}

fn laws(rt: &HostRuntime) -> anyhow::Result<()> {
    let mut draft = Draft::new(rt.alloc())?;
    tell(rt, "4,000 variables", draft.variables(4000))?;
    for _ in 0..1499 {
        draft.law(&[TERM; 4])?;
    }
    tell(rt, "the 1,500th law", draft.law(&[TERM; 4]))?;
    // Both tables are full, and the laws come first.
    tell(rt, "one more", draft.law(&[TERM]))
}

fn law_terms(rt: &HostRuntime) -> anyhow::Result<()> {
    let mut draft = Draft::new(rt.alloc())?;
    tell(rt, "4,000 variables", draft.variables(4000))?;
    for _ in 0..749 {
        draft.law(&[TERM; 8])?;
    }
    tell(rt, "a law to 5,995 terms", draft.law(&[TERM; 3]))?;
    tell(rt, "six terms more", draft.law(&[TERM; 6]))?;
    tell(rt, "five terms more", draft.law(&[TERM; 5]))
}

pub(crate) fn run(rt: &HostRuntime) -> anyhow::Result<()> {
    nodes(rt)?;
    variables(rt)?;
    rows(rt)?;
    laws(rt)?;
    law_terms(rt)
}
