//! Layers of known parts, and the numbers that they give.
use super::example_parts::{Coupler, Nothing};
use assembly::Assembly;
use assembly::plans::{PlanRow, PlanTerm, Size};
use netlist::domains::Domain;
use repeat::Repeat;
use series::Series;
use side_by_side::SideBySide;
use std::test::Fail;

fn shaft() -> Coupler {
    Coupler {
        first: Domain::Rotational,
        second: Domain::Rotational,
    }
}

fn motor() -> Coupler {
    Coupler {
        first: Domain::Electrical,
        second: Domain::Rotational,
    }
}

#[test]
fn repeat_of_three(rt: HostRuntime) {
    let chain = Repeat::new(shaft(), 3);
    assert_eq!(rt;
        chain.size(),
        Some(Size {
            ends: 2,
            inner: 5,
            variables: 6,
            rows: 6,
            laws: 3,
        })
    );
    // The second copy lies between the joints, nodes 5 and 6.
    assert_eq!(rt;
        chain.row(2),
        Some(PlanRow::Branch {
            flow: 2,
            across: 3,
            first: 5,
            second: 3,
        })
    );
    // What a copy lacks stays absent.
    assert_eq!(rt;
        chain.row(5),
        Some(PlanRow::Earth {
            flow: 5,
            across: 10000,
            node: 10000,
        })
    );
    assert_eq!(rt; chain.row(6), None);
    assert_eq!(rt; chain.domain(6), Some(Domain::Rotational));
    assert_eq!(rt; chain.domain(7), None);
}

#[test]
fn series_has_a_joint(rt: HostRuntime) {
    let drive = Series::new(motor(), shaft());
    assert_eq!(rt;
        drive.size(),
        Some(Size {
            ends: 2,
            inner: 3,
            variables: 4,
            rows: 4,
            laws: 2,
        })
    );
    assert_eq!(rt; drive.domain(0), Some(Domain::Electrical));
    assert_eq!(rt; drive.domain(4), Some(Domain::Rotational));
    assert_eq!(rt; drive.domain(5), None);
    // The second part begins at the joint, node 4.
    assert_eq!(rt;
        drive.row(2),
        Some(PlanRow::Branch {
            flow: 2,
            across: 3,
            first: 4,
            second: 3,
        })
    );
    assert_eq!(rt; drive.law_len(1), Some(1));
    assert_eq!(rt; drive.term(1, 0), Some(PlanTerm::rate(5, 3)));
}

#[test]
fn beside_keeps_its_ends(rt: HostRuntime) {
    let pair = SideBySide::new(motor(), motor());
    assert_eq!(rt;
        pair.size(),
        Some(Size {
            ends: 2,
            inner: 2,
            variables: 4,
            rows: 4,
            laws: 2,
        })
    );
    assert_eq!(rt;
        pair.row(2),
        Some(PlanRow::Branch {
            flow: 2,
            across: 3,
            first: 0,
            second: 3,
        })
    );
    assert_eq!(rt; pair.domain(3), Some(Domain::Rotational));
    assert_eq!(rt; pair.domain(4), None);
}

#[test]
fn void_layers(rt: HostRuntime) {
    assert!(rt; Repeat::new(shaft(), 0).is_void());
    assert!(rt; Repeat::new(shaft(), 1001).is_void());
    assert!(rt; Repeat::new(motor(), 1).is_void());
    assert!(rt; Series::new(shaft(), motor()).is_void());
    assert!(rt; SideBySide::new(shaft(), motor()).is_void());
    assert!(rt; Series::new(shaft(), Nothing).is_void());
    assert!(rt; SideBySide::new(Nothing, shaft()).is_void());
    assert!(rt; !Repeat::new(shaft(), 1).is_void());
    // A thousand copies of a part with seven rows or more have too many.
    let part = Repeat::new(shaft(), 4);
    assert!(rt; Repeat::new(part, 1000).is_void());
}

#[test]
fn nested_layers(rt: HostRuntime) {
    let chain = Repeat::new(shaft(), 2);
    let drive = Series::new(motor(), SideBySide::new(chain, shaft()));
    assert_eq!(rt;
        drive.size(),
        Some(Size {
            ends: 2,
            inner: 6,
            variables: 8,
            rows: 8,
            laws: 4,
        })
    );
    // The motor's inner node is 2, the chain's are 3 to 5, the shaft's is 6, the joint 7.
    assert_eq!(rt;
        drive.row(4),
        Some(PlanRow::Branch {
            flow: 4,
            across: 5,
            first: 5,
            second: 4,
        })
    );
    assert_eq!(rt;
        drive.row(6),
        Some(PlanRow::Branch {
            flow: 6,
            across: 7,
            first: 7,
            second: 6,
        })
    );
}

// What a layer answers, to compare.
fn answers<A: Assembly>(layer: &A) -> (Option<Size>, Option<PlanRow>, Option<PlanTerm>) {
    (layer.size(), layer.row(4), layer.term(1, 0))
}

fn lends<T: Send + Sync>(value: &T) -> &T {
    value
}

#[test]
fn layers_are_copied_and_cloned(rt: HostRuntime) -> Result<(), Fail> {
    let chain = Repeat::new(shaft(), 2);
    // The chain is used three times, the pair and the layer over it twice.
    let pair = SideBySide::new(chain, Series::new(chain, shaft()));
    let drive = Series::new(motor(), pair);
    let copied = drive;
    let cloned = drive.clone()?;
    let size = Some(Size {
        ends: 2,
        inner: 10,
        variables: 12,
        rows: 12,
        laws: 6,
    });
    let row = Some(PlanRow::Branch {
        flow: 4,
        across: 5,
        first: 5,
        second: 4,
    });
    let term = Some(PlanTerm::rate(5, 3));
    assert_eq!(rt; answers(lends(&drive)), (size, row, term));
    assert_eq!(rt; answers(&copied), (size, row, term));
    assert_eq!(rt; answers(&cloned), (size, row, term));
    assert_eq!(rt; pair.row(0), chain.row(0));
    Ok(())
}
