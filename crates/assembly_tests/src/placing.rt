//! What a placed assembly draws.
use assembly::Assembly;
use assembly::plans::Size;
use draft::{Draft, DraftRefusal, Table};
use equation::lines::line;
use netlist::rows::Row;
use parts::single::Single;
use place::place;
use plan_judging::PlaceRefusal;
use repeat::Repeat;
use sheet::{Counts, Sheet};
use std::test::Fail;

const SPRING: Single = Single {
    domain: 3,
    flow: 0,
    across: -4,
    flow_rate: 1,
    across_rate: 0,
};

fn chain() -> Repeat<Single> {
    Repeat::new(SPRING, 3)
}

fn no_chain() -> Repeat<Single> {
    Repeat::new(SPRING, 0)
}

#[test]
fn chain_of_three(rt: HostRuntime) {
    assert_eq!(rt;
        chain().size(),
        Some(Size {
            ends: 2,
            inner: 2,
            variables: 6,
            rows: 3,
            laws: 3,
        })
    );
    assert!(rt; no_chain().is_void());
}

// Two nodes, an earth at the first, and between them the chain.
fn drawn(draft: &mut Draft) -> Result<Counts, Fail> {
    draft.node(3)?;
    draft.node(3)?;
    draft.variables(2)?;
    draft.earth(0, 1, 0)?;
    Ok(place(draft, &chain(), 0, 1)?)
}

// The two joints are nodes 2 and 3, and the variables are counted on from 2.
#[test]
fn chain_lies_between_its_nodes(rt: HostRuntime) -> Result<(), Fail> {
    let mut draft = Draft::new(rt.alloc())?;
    assert_eq!(rt;
        drawn(&mut draft)?,
        Counts {
            nodes: 2,
            variables: 2,
            rows: 1,
            laws: 0,
        }
    );
    let sheet = draft.issue();
    assert_eq!(rt; sheet.nodes(), 4);
    assert_eq!(rt; sheet.variables(), 8);
    assert_eq!(rt;
        sheet.rows().get(1).copied(),
        Some(Row::Branch {
            flow: 2,
            across: 3,
            first: 0,
            second: 2,
        })
    );
    assert_eq!(rt;
        sheet.rows().get(3).copied(),
        Some(Row::Branch {
            flow: 6,
            across: 7,
            first: 3,
            second: 1,
        })
    );
    let mut text = [0u8; 20];
    assert_eq!(rt; line(&sheet, 0, &mut text)?, 14);
    assert_eq!(rt; &text[..14], b"-4v3 +1r2 = 0\n".as_slice());
    Ok(())
}

// Both ends may be placed at one node.
#[test]
fn ring_of_a_thousand(rt: HostRuntime) -> Result<(), Fail> {
    let ring = Repeat::new(SPRING, 1000);
    let mut draft = Draft::new(rt.alloc())?;
    draft.node(3)?;
    place(&mut draft, &ring, 0, 0)?;
    let counts = draft.counts();
    assert_eq!(rt;
        counts,
        Counts {
            nodes: 1000,
            variables: 2000,
            rows: 1000,
            laws: 1000,
        }
    );
    // A node more is beyond the limit, and so is a second ring.
    let table = Table::Nodes;
    assert_eq!(rt; draft.node(3), Err(DraftRefusal::Limit { table }));
    assert_eq!(rt;
        place(&mut draft, &ring, 0, 0),
        Err(PlaceRefusal::Limit { table })
    );
    assert_eq!(rt; draft.counts(), counts);
    Ok(())
}

fn same(one: &Sheet, other: &Sheet) -> bool {
    one.nodes() == other.nodes()
        && one.variables() == other.variables()
        && one.rows() == other.rows()
        && one.laws().len() == other.laws().len()
        && (0..one.laws().len()).all(|k| one.laws().law(k) == other.laws().law(k))
}

// Fills a draft up to its last node: the chain has four, and a ring of 997 parts has 996 inner nodes.
fn fill(draft: &mut Draft) -> Result<Counts, Fail> {
    drawn(draft)?;
    let ring = Repeat::new(SPRING, 997);
    Ok(place(draft, &ring, 0, 0)?)
}

// A place that is refused leaves a full draft, and what is drawn after it, as it is.
#[test]
fn refused_place_leaves_the_draft(rt: HostRuntime) -> Result<(), Fail> {
    let full = PlaceRefusal::Limit {
        table: Table::Nodes,
    };
    let mut draft = Draft::new(rt.alloc())?;
    fill(&mut draft)?;
    assert_eq!(rt; place(&mut draft, &chain(), 1, 0), Err(full));
    assert_eq!(rt;
        place(&mut draft, &no_chain(), 0, 1),
        Err(PlaceRefusal::Void)
    );
    place(&mut draft, &SPRING, 1, 0)?;
    let mut plain = Draft::new(rt.alloc())?;
    fill(&mut plain)?;
    place(&mut plain, &SPRING, 1, 0)?;
    let sheet = draft.issue();
    assert_eq!(rt; sheet.nodes(), 1000);
    assert!(rt; same(&sheet, &plain.issue()));
    Ok(())
}
