//! Why an assembly is not placed: the first of its faults is told.
use assembly::plans::{PlanRow, PlanTerm};
use draft::{Draft, DraftRefusal, Table};
use netlist::spans::Span;
use parts::single::Single;
use parts::stored::Stored;
use parts::tables::Tables;
use place::place;
use plan_judging::PlaceRefusal;
use refusal::Refuses;
use repeat::Repeat;
use sheet::Counts;
use std::test::Fail;

const SHAFT: Single = Single {
    domain: 2,
    flow: 1,
    across: -3,
    flow_rate: 0,
    across_rate: 0,
};

const NO_DOMAIN: Single = Single { domain: 5, ..SHAFT };

const BRANCH: PlanRow = PlanRow::Branch {
    flow: 0,
    across: 1,
    first: 0,
    second: 1,
};

const LAW: [Span; 1] = [Span {
    offset: 0,
    length: 2,
}];

// Three nodes of domains 2, 2 and 1, and two variables that a branch has.
fn draw(draft: &mut Draft) -> Result<usize, DraftRefusal> {
    draft.node(2)?;
    draft.node(2)?;
    draft.node(1)?;
    draft.variables(2)?;
    draft.branch(0, 1, 0, 1)
}

// A plan between two ends of domain 2, with an inner node of domain 1 and four variables.
fn stored<'a>(rows: &'a [PlanRow], laws: &'a [Span], terms: &'a [PlanTerm]) -> Stored<'a> {
    Stored::new(Tables {
        first: 2,
        second: 2,
        inner: &[1],
        variables: 4,
        rows,
        laws,
        terms,
    })
}

// Number, place and cause of what a call answers.
fn told(answer: Result<Counts, PlaceRefusal>) -> Option<(u32, usize, u32)> {
    let why = answer.err()?;
    Some((why.number(), why.place(), why.cause()))
}

#[test]
fn void_before_nodes_before_domains(rt: HostRuntime) -> Result<(), Fail> {
    let mut draft = Draft::new(rt.alloc())?;
    draw(&mut draft)?;
    assert_eq!(rt; told(place(&mut draft, &NO_DOMAIN, 9, 9)), Some((8, 1, 0)));
    assert_eq!(rt; told(place(&mut draft, &SHAFT, 9, 8)), Some((2, 2, 0)));
    assert_eq!(rt; told(place(&mut draft, &SHAFT, 2, 9)), Some((2, 3, 0)));
    assert_eq!(rt; told(place(&mut draft, &SHAFT, 2, 2)), Some((4, 2, 0)));
    assert_eq!(rt; told(place(&mut draft, &SHAFT, 0, 2)), Some((4, 3, 0)));
    assert_eq!(rt; told(place(&mut draft, &SHAFT, 0, 0)), None);
    Ok(())
}

// The fault of a plan with the branch as row 0 and this row behind it.
fn row_fault(draft: &mut Draft, row: PlanRow) -> Option<(u32, usize, u32)> {
    told(place(draft, &stored(&[BRANCH, row], &[], &[]), 0, 1))
}

#[test]
fn rows_of_the_plan(rt: HostRuntime) -> Result<(), Fail> {
    let mut draft = Draft::new(rt.alloc())?;
    draw(&mut draft)?;
    let earth = |flow: u32, across: u32, node: u32| PlanRow::Earth { flow, across, node };
    assert_eq!(rt; row_fault(&mut draft, earth(2, 3, 3)), Some((9, 1, 2)));
    assert_eq!(rt; row_fault(&mut draft, earth(4, 3, 2)), Some((9, 1, 3)));
    assert_eq!(rt; row_fault(&mut draft, earth(0, 3, 2)), Some((9, 1, 5)));
    assert_eq!(rt; row_fault(&mut draft, earth(2, 2, 2)), Some((9, 1, 5)));
    let across = PlanRow::Branch {
        flow: 2,
        across: 3,
        first: 0,
        second: 2,
    };
    assert_eq!(rt; row_fault(&mut draft, across), Some((9, 1, 4)));
    assert_eq!(rt; row_fault(&mut draft, earth(2, 3, 2)), None);
    Ok(())
}

// The fault of a plan with one law of a good term and this one.
fn law_fault(draft: &mut Draft, term: PlanTerm) -> Option<(u32, usize, u32)> {
    let terms = [PlanTerm::value(1, 0), term];
    told(place(draft, &stored(&[BRANCH], &LAW, &terms), 0, 1))
}

#[test]
fn laws_of_the_plan(rt: HostRuntime) -> Result<(), Fail> {
    let mut draft = Draft::new(rt.alloc())?;
    draw(&mut draft)?;
    assert_eq!(rt;
        law_fault(&mut draft, PlanTerm::value(0, 1)),
        Some((9, 10_000, 6))
    );
    assert_eq!(rt;
        law_fault(&mut draft, PlanTerm::value(1_000_001, 1)),
        Some((9, 10_000, 6))
    );
    assert_eq!(rt;
        law_fault(&mut draft, PlanTerm::rate(1, 4)),
        Some((9, 10_000, 3))
    );
    let order = PlanTerm {
        coefficient: 1,
        order: 2,
        variable: 1,
    };
    assert_eq!(rt; law_fault(&mut draft, order), Some((9, 10_000, 10)));
    assert_eq!(rt; law_fault(&mut draft, PlanTerm::rate(1, 3)), None);
    Ok(())
}

// A node that does not fit is told before a row, a row before a law, and the first law at fault.
#[test]
fn ends_before_rows_before_laws(rt: HostRuntime) -> Result<(), Fail> {
    let mut draft = Draft::new(rt.alloc())?;
    draw(&mut draft)?;
    let rows = [BRANCH, BRANCH];
    let laws = [
        Span {
            offset: 0,
            length: 1,
        },
        Span {
            offset: 1,
            length: 1,
        },
    ];
    let terms = [PlanTerm::value(1, 0), PlanTerm::value(0, 1)];
    let twice = stored(&rows, &laws, &terms);
    assert_eq!(rt; told(place(&mut draft, &twice, 0, 2)), Some((4, 3, 0)));
    assert_eq!(rt; told(place(&mut draft, &twice, 0, 1)), Some((9, 1, 5)));
    let once = stored(&rows[..1], &laws, &terms);
    let counts = draft.counts();
    assert_eq!(rt; told(place(&mut draft, &once, 0, 1)), Some((9, 10_001, 6)));
    assert_eq!(rt; draft.counts(), counts);
    Ok(())
}

// The lowest table that has no room is told.
#[test]
fn tables_in_their_order(rt: HostRuntime) -> Result<(), Fail> {
    let mut draft = Draft::new(rt.alloc())?;
    draw(&mut draft)?;
    let right = Repeat::new(SHAFT, 900);
    place(&mut draft, &right, 0, 1)?;
    // 902 nodes, 1,802 variables, 901 rows and 900 laws of two terms are drawn.
    let plan = Stored::new(Tables {
        first: 2,
        second: 2,
        inner: &[],
        variables: 2199,
        rows: &[],
        laws: &[],
        terms: &[],
    });
    let variables = PlaceRefusal::Limit {
        table: Table::Variables,
    };
    assert_eq!(rt; place(&mut draft, &plan, 0, 1), Err(variables));
    let nodes = PlaceRefusal::Limit {
        table: Table::Nodes,
    };
    assert_eq!(rt; place(&mut draft, &right, 0, 1), Err(nodes));
    Ok(())
}

// What is wrong with a plan is told before that it finds no room.
#[test]
fn plan_before_room(rt: HostRuntime) -> Result<(), Fail> {
    let mut draft = Draft::new(rt.alloc())?;
    draw(&mut draft)?;
    let wrong = Single {
        flow: 2_000_000,
        ..SHAFT
    };
    let long = Repeat::new(wrong, 1000);
    assert_eq!(rt; told(place(&mut draft, &long, 0, 1)), Some((9, 10_000, 6)));
    let right = Repeat::new(SHAFT, 1000);
    assert_eq!(rt;
        place(&mut draft, &right, 0, 1),
        Err(PlaceRefusal::Limit {
            table: Table::Nodes,
        })
    );
    Ok(())
}
