//! Small plans of `parts`, and what they tell.
use assembly::Assembly;
use assembly::plans::{PlanRow, PlanTerm, Size};
use netlist::domains::Domain;
use netlist::spans::Span;
use parts::either::Either;
use parts::single::Single;
use parts::stored::Stored;
use parts::tables::Tables;

const DAMPER: Single = Single {
    domain: 2,
    flow: 0,
    across: 5,
    flow_rate: 0,
    across_rate: -2,
};

const PIPE: PlanRow = PlanRow::Branch {
    flow: 0,
    across: 1,
    first: 0,
    second: 2,
};

const TERM: PlanTerm = PlanTerm {
    coefficient: 7,
    order: 0,
    variable: 1,
};

const PAIRS: [Span; 2] = [
    Span {
        offset: 0,
        length: 1,
    },
    Span {
        offset: 1,
        length: 2,
    },
];

const GAP: Span = Span {
    offset: 1,
    length: 1,
};

const NINE: Span = Span {
    offset: 0,
    length: 9,
};

fn with_laws<'a>(laws: &'a [Span], terms: &'a [PlanTerm], variables: usize) -> Stored<'a> {
    Stored::new(Tables {
        first: 4,
        second: 1,
        inner: &[3],
        variables,
        rows: &[PIPE],
        laws,
        terms,
    })
}

fn count_void<P: Assembly>(parts: &[P]) -> usize {
    parts.iter().filter(|part| part.is_void()).count()
}

#[test]
fn single_leaves_out_zeros(rt: HostRuntime) {
    assert_eq!(rt;
        DAMPER.size(),
        Some(Size {
            ends: 2,
            inner: 0,
            variables: 2,
            rows: 1,
            laws: 1,
        })
    );
    assert_eq!(rt; DAMPER.domain(1), Some(Domain::Rotational));
    assert_eq!(rt; DAMPER.domain(2), None);
    assert_eq!(rt; DAMPER.law_len(0), Some(2));
    assert_eq!(rt; DAMPER.term(0, 0), Some(PlanTerm::value(5, 1)));
    assert_eq!(rt; DAMPER.term(0, 1), Some(PlanTerm::rate(-2, 1)));
    assert_eq!(rt; DAMPER.term(0, 2), None);
}

#[test]
fn single_without_law(rt: HostRuntime) {
    let bare = Single {
        domain: 1,
        flow: 0,
        across: 0,
        flow_rate: 0,
        across_rate: 0,
    };
    assert_eq!(rt; bare.law_len(0), None);
    assert_eq!(rt;
        bare.row(0),
        Some(PlanRow::Branch {
            flow: 0,
            across: 1,
            first: 0,
            second: 1,
        })
    );
    assert!(rt; !bare.is_void());
}

#[test]
fn single_of_no_domain(rt: HostRuntime) {
    let low = Single {
        domain: 0,
        flow: 1,
        across: 1,
        flow_rate: 1,
        across_rate: 1,
    };
    let high = Single {
        domain: 5,
        flow: 1,
        across: 1,
        flow_rate: 1,
        across_rate: 1,
    };
    assert!(rt; low.is_void() && high.is_void());
    assert_eq!(rt; high.row(0), None);
}

#[test]
fn stored_empty_plan(rt: HostRuntime) {
    let empty = Stored::new(Tables {
        first: 1,
        second: 4,
        inner: &[],
        variables: 6000,
        rows: &[],
        laws: &[],
        terms: &[],
    });
    assert_eq!(rt;
        empty.size(),
        Some(Size {
            ends: 2,
            inner: 0,
            variables: 6000,
            rows: 0,
            laws: 0,
        })
    );
    assert_eq!(rt; empty.domain(1), Some(Domain::Hydraulic));
    assert_eq!(rt; empty.domain(2), None);
}

#[test]
fn stored_as_it_stands(rt: HostRuntime) {
    let part = with_laws(&PAIRS, &[TERM, TERM, TERM], 2);
    assert_eq!(rt; part.domain(2), Some(Domain::Translational));
    assert_eq!(rt; part.row(0), Some(PIPE));
    assert_eq!(rt; part.law_len(1), Some(2));
    assert_eq!(rt; part.term(1, 1), Some(TERM));
    assert_eq!(rt; part.term(1, 2), None);
}

#[test]
fn stored_void(rt: HostRuntime) {
    assert!(rt;
        with_laws(&[GAP], &[TERM, TERM], 2).is_void(),
        "a gap before the law"
    );
    assert!(rt;
        with_laws(&PAIRS, &[TERM; 4], 2).is_void(),
        "a term past the laws"
    );
    assert!(rt;
        with_laws(&PAIRS, &[TERM; 2], 2).is_void(),
        "a law past the terms"
    );
    assert!(rt; with_laws(&[], &[TERM], 2).is_void(), "a term without laws");
    assert!(rt; with_laws(&[NINE], &[TERM; 9], 2).is_void(), "nine terms");
    assert!(rt;
        with_laws(&PAIRS, &[TERM; 3], 6001).is_void(),
        "6,001 variables"
    );
    assert!(rt; !with_laws(&PAIRS, &[TERM; 3], 6000).is_void());
}

#[test]
fn either_mixed(rt: HostRuntime) {
    let part = with_laws(&PAIRS, &[TERM, TERM, TERM], 2);
    let none = with_laws(&PAIRS, &[TERM], 2);
    let mixed: [Either<Stored, Single>; 3] = [
        Either::One(part),
        Either::Other(DAMPER),
        Either::One(none),
    ];
    assert_eq!(rt; count_void(&mixed), 1);
    assert_eq!(rt; mixed[0].domain(0), Some(Domain::Hydraulic));
    assert_eq!(rt; mixed[1].law_len(0), Some(2));
}
