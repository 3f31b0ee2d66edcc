//! What the walk test finds.
use super::rows::{ByRow, branch, earth};
use netlist::limits::MAX_NODES;
use netlist::rows::Row;
use quantity::{Phasor, Whole};
use std::alloc::{AllocError, Global};
use std::test::Fail;
use walk_test::{ByVariable, Finding, Misfit, Workspace, clear, test_walks};

fn triangle() -> [Row; 3] {
    [branch(0, 0, 1), branch(1, 1, 2), branch(2, 0, 2)]
}

#[test]
fn triangle_fits(rt: HostRuntime) -> Result<(), Fail> {
    let mut workspace = Workspace::new(rt.alloc())?;
    let values = [Whole::new(3), Whole::new(4), Whole::new(7)];
    let across = ByVariable { values: &values };
    let mut potentials = [Whole::new(5); 3];
    let found = test_walks(&triangle(), &across, &mut potentials, &mut workspace);
    assert_eq!(rt; found, Ok(Finding::WalksClose));
    assert_eq!(rt; potentials, [Whole::new(0), Whole::new(-3), Whole::new(-7)]);
    Ok(())
}

// A workspace carries nothing over from one test to the next.
#[test]
fn triangle_is_left_open_and_then_closed(rt: HostRuntime) -> Result<(), Fail> {
    let mut workspace = Workspace::new(rt.alloc())?;
    let values = [Whole::new(3), Whole::new(4), Whole::new(8)];
    let across = ByVariable { values: &values };
    let mut potentials = [Whole::new(5); 3];
    let found = test_walks(&triangle(), &across, &mut potentials, &mut workspace);
    assert_eq!(rt; found, Ok(Finding::SomeWalkFails { row: 2 }));
    assert_eq!(rt; potentials, [Whole::new(0); 3]);
    let values = [Whole::new(3), Whole::new(4), Whole::new(7)];
    let across = ByVariable { values: &values };
    let found = test_walks(&triangle(), &across, &mut potentials, &mut workspace);
    assert_eq!(rt; found, Ok(Finding::WalksClose));
    assert_eq!(rt; potentials, [Whole::new(0), Whole::new(-3), Whole::new(-7)]);
    Ok(())
}

// The row that is named closes a walk with those before it. What comes behind does not matter.
#[test]
fn rows_behind_do_not_matter(rt: HostRuntime) -> Result<(), Fail> {
    let mut workspace = Workspace::new(rt.alloc())?;
    let rows = [
        branch(0, 0, 1),
        branch(1, 0, 1),
        branch(2, 1, 2),
        earth(3, 2),
    ];
    let values = [Whole::new(3), Whole::new(4), Whole::new(1), Whole::new(1)];
    let across = ByVariable { values: &values };
    let mut potentials = [Whole::new(5); 3];
    let found = test_walks(&rows, &across, &mut potentials, &mut workspace);
    assert_eq!(rt; found, Ok(Finding::SomeWalkFails { row: 1 }));
    assert_eq!(rt; potentials, [Whole::new(0); 3]);
    Ok(())
}

// Two earths are one point: around them readings add up as around a triangle.
#[test]
fn earths_are_one_point(rt: HostRuntime) -> Result<(), Fail> {
    let mut workspace = Workspace::new(rt.alloc())?;
    let rows = [branch(0, 0, 1), earth(1, 0), earth(2, 1), earth(3, 1)];
    let values = [Whole::new(3), Whole::new(10), Whole::new(7), Whole::new(8)];
    let across = ByVariable { values: &values };
    let mut potentials = [Whole::new(5); 2];
    let found = test_walks(&rows[..3], &across, &mut potentials, &mut workspace);
    assert_eq!(rt; found, Ok(Finding::WalksClose));
    assert_eq!(rt; potentials, [Whole::new(10), Whole::new(7)]);
    let found = test_walks(&rows, &across, &mut potentials, &mut workspace);
    assert_eq!(rt; found, Ok(Finding::SomeWalkFails { row: 3 }));
    assert_eq!(rt; potentials, [Whole::new(0); 2]);
    Ok(())
}

// Nodes 1 and 3 are a part, and nodes 2 and 4; node 0 is a part of its own.
#[test]
fn each_part_has_its_lowest_node_at_zero(rt: HostRuntime) -> Result<(), Fail> {
    let mut workspace = Workspace::new(rt.alloc())?;
    let rows = [branch(0, 4, 2), branch(1, 1, 3)];
    let values = [Whole::new(6), Whole::new(-2)];
    let across = ByVariable { values: &values };
    let mut potentials = [Whole::new(5); 5];
    let found = test_walks(&rows, &across, &mut potentials, &mut workspace);
    assert_eq!(rt; found, Ok(Finding::WalksClose));
    assert_eq!(rt;
        potentials,
        [
            Whole::new(0),
            Whole::new(0),
            Whole::new(0),
            Whole::new(2),
            Whole::new(6)
        ]
    );
    Ok(())
}

// A branch from a node to itself is a closed walk of its own. A reading that the list lacks is zero.
#[test]
fn a_loop_must_read_zero(rt: HostRuntime) -> Result<(), Fail> {
    let mut workspace = Workspace::new(rt.alloc())?;
    let values = [Whole::new(1)];
    let across = ByVariable { values: &values };
    let mut potentials = [Whole::new(5)];
    let found = test_walks(
        &[branch(1, 0, 0), branch(0, 0, 0)],
        &across,
        &mut potentials,
        &mut workspace,
    );
    assert_eq!(rt; found, Ok(Finding::SomeWalkFails { row: 1 }));
    let found = test_walks(&[branch(1, 0, 0)], &across, &mut potentials, &mut workspace);
    assert_eq!(rt; found, Ok(Finding::WalksClose));
    Ok(())
}

#[test]
fn misfits_change_nothing(rt: HostRuntime) -> Result<(), Fail> {
    let mut workspace = Workspace::new(rt.alloc())?;
    let values = [Whole::new(1)];
    let across = ByVariable { values: &values };
    let rows = [branch(0, 0, 1), earth(0, 2), branch(0, 7, 0)];
    let mut potentials = [Whole::new(5); 2];
    let found = test_walks(&rows, &across, &mut potentials, &mut workspace);
    assert_eq!(rt; found, Err(Misfit::Undrawn { row: 1 }));
    assert_eq!(rt; potentials, [Whole::new(5); 2]);
    let mut many = [Whole::new(5); MAX_NODES + 1];
    let found = test_walks(&rows, &across, &mut many, &mut workspace);
    assert_eq!(rt; found, Err(Misfit::TooMany));
    assert!(rt; many.iter().all(|potential| *potential == Whole::new(5)));
    Ok(())
}

// Readings of each row, though both rows name one across variable.
#[test]
fn readings_may_be_listed_by_row(rt: HostRuntime) -> Result<(), Fail> {
    let mut workspace = Workspace::new(rt.alloc())?;
    let readings = [Phasor::new(1, 2), Phasor::new(1, 3)];
    let across = ByRow {
        readings: &readings,
    };
    let mut potentials = [Phasor::new(5, 5); 2];
    let rows = [branch(0, 0, 1), branch(0, 0, 1)];
    let found = test_walks(&rows[..1], &across, &mut potentials, &mut workspace);
    assert_eq!(rt; found, Ok(Finding::WalksClose));
    assert_eq!(rt; potentials, [Phasor::new(0, 0), Phasor::new(-1, -2)]);
    let found = test_walks(&rows, &across, &mut potentials, &mut workspace);
    assert_eq!(rt; found, Ok(Finding::SomeWalkFails { row: 1 }));
    clear(&mut potentials);
    assert_eq!(rt; potentials, [Phasor::new(0, 0); 2]);
    Ok(())
}

// A chain of 1,000 nodes from its end to its start, so that parts move all the way; then an earth at its end;
// and 500 branches that pass over a node.
fn largest(heap: Global) -> Result<Vec<Row>, AllocError> {
    let mut rows = Vec::with_capacity(heap, 1500)?;
    for node in (0..999).rev() {
        rows.push(branch(0, node, node + 1))?;
    }
    rows.push(earth(1, 999))?;
    for node in 0..500 {
        rows.push(branch(2, node, node + 2))?;
    }
    Ok(rows)
}

#[test]
fn the_largest_sheet_fits(rt: HostRuntime) -> Result<(), Fail> {
    let mut workspace = Workspace::new(rt.alloc())?;
    let rows = largest(rt.alloc())?;
    let values = [Whole::new(-7), Whole::new(6993), Whole::new(-14)];
    let across = ByVariable { values: &values };
    let mut potentials = [Whole::new(5); MAX_NODES];
    let found = test_walks(&rows, &across, &mut potentials, &mut workspace);
    assert_eq!(rt; found, Ok(Finding::WalksClose));
    assert_eq!(rt; potentials[0], Whole::new(0));
    assert_eq!(rt; potentials[1], Whole::new(7));
    assert_eq!(rt; potentials[999], Whole::new(6993));
    Ok(())
}
