//! What is listed and what the check says, of readings of the crane.
use super::crane::{RUNG, calls, calls_again, ladder, law};
use agreement::{Buffers, Request, accept, accept_both};
use checking::{CheckRefusal, Verdict};
use draft::Draft;
use equation::EquationRefusal;
use equation::listing::Listing;
use netlist::spans::Span;
use netlist::terms::{Order, Term};
use parts::either::Either;
use quantity::Whole;
use reading_sums::Readings;
use refusal::Refuses;
use std::alloc::{AllocError, Global};
use std::test::Fail;
use walk_test::Workspace;

const BLANK: Term = Term {
    coefficient: 0,
    order: Order::Value,
    variable: 99,
};

const NOWHERE: Span = Span {
    offset: 99,
    length: 99,
};

// Readings that agree: the potentials of nodes 0, 1 and 2 are 6, 4 and 5.
const VALUES: [i64; 10] = [-9, 2, 0, 4, 3, 1, 3, 1, 6, 2];

const VALUES_AGAIN: [i64; 10] = [0, 4, -9, 2, 6, 2, 3, 1, 3, 1];

// The rate of the across of the branch that the calls draw.
const RATE: i64 = -18;

fn wholes(values: [i64; 10]) -> [Whole; 10] {
    values.map(Whole::new)
}

// One reading is another.
fn with(mut readings: [Whole; 10], variable: usize, reading: i64) -> [Whole; 10] {
    if let Some(one) = readings.get_mut(variable) {
        *one = Whole::new(reading);
    }
    readings
}

fn values() -> [Whole; 10] {
    wholes(VALUES)
}

// Every rate but one is zero.
fn rates() -> [Whole; 10] {
    with([Whole::new(0); 10], 1, RATE)
}

// What the check says, and the potentials then.
fn judged(
    heap: Global,
    values: &[Whole],
    rates: &[Whole],
) -> Result<(Result<Verdict, CheckRefusal>, [Whole; 3]), AllocError> {
    let law = law(0, 1);
    let rung = Either::One(RUNG);
    let ladder = Either::Other(ladder());
    let mut potentials = [Whole::new(8); 3];
    let acceptance = accept(
        Draft::new(heap)?,
        &calls(&law, &rung, &ladder),
        Readings { values, rates },
        &mut Buffers {
            terms: &mut [],
            spans: &mut [],
            potentials: &mut potentials,
        },
        &mut Workspace::new(heap)?,
    );
    Ok((acceptance.checked, potentials))
}

#[test]
fn readings_that_agree(rt: HostRuntime) -> Result<(), Fail> {
    let (checked, potentials) = judged(rt.alloc(), &values(), &rates())?;
    assert_eq!(rt; checked, Ok(Verdict::Holds));
    assert_eq!(rt; potentials, [Whole::new(6), Whole::new(4), Whole::new(5)]);
    Ok(())
}

#[test]
fn readings_that_do_not(rt: HostRuntime) -> Result<(), Fail> {
    let heap = rt.alloc();
    let zeros = [Whole::new(0); 3];
    let first_law = judged(heap, &values(), &with(rates(), 1, RATE + 1))?;
    assert_eq!(rt; first_law, (Ok(Verdict::Law { law: 0 }), zeros));
    let last_law = judged(heap, &with(values(), 8, 7), &rates())?;
    assert_eq!(rt; last_law, (Ok(Verdict::Law { law: 3 }), zeros));
    let node = judged(heap, &with(values(), 2, 1), &rates())?;
    assert_eq!(rt; node, (Ok(Verdict::Node { node: 1 }), zeros));
    let row = judged(heap, &with(values(), 1, 3), &rates())?;
    assert_eq!(rt; row, (Ok(Verdict::Row { row: 3 }), zeros));
    Ok(())
}

#[test]
fn wrong_counts_of_readings(rt: HostRuntime) -> Result<(), Fail> {
    let heap = rt.alloc();
    let untouched = [Whole::new(8); 3];
    let values = values();
    let rates = rates();
    assert_eq!(rt; CheckRefusal::WrongCount.number(), 14);
    let short = judged(heap, &values[..9], &rates)?;
    assert_eq!(rt; short, (Err(CheckRefusal::WrongCount), untouched));
    let none = judged(heap, &values, &[])?;
    assert_eq!(rt; none, (Err(CheckRefusal::WrongCount), untouched));
    Ok(())
}

// The equations do not hang on the readings.
fn listed(
    heap: Global,
    terms: &mut [Term],
    spans: &mut [Span],
) -> Result<Result<Listing, EquationRefusal>, AllocError> {
    let law = law(0, 1);
    let rung = Either::One(RUNG);
    let ladder = Either::Other(ladder());
    let no_readings: [Whole; 0] = [];
    let acceptance = accept(
        Draft::new(heap)?,
        &calls(&law, &rung, &ladder),
        Readings {
            values: &no_readings,
            rates: &no_readings,
        },
        &mut Buffers {
            terms,
            spans,
            potentials: &mut [],
        },
        &mut Workspace::new(heap)?,
    );
    Ok(acceptance.listed)
}

#[test]
fn equations_of_the_crane(rt: HostRuntime) -> Result<(), Fail> {
    let mut terms = [BLANK; 32];
    let mut spans = [NOWHERE; 13];
    let listing = listed(rt.alloc(), &mut terms, &mut spans)?;
    assert_eq!(rt;
        listing,
        Ok(Listing {
            terms: 31,
            equations: 12,
        })
    );
    let last = Span {
        offset: 28,
        length: 3,
    };
    assert_eq!(rt; [spans[11], spans[12]], [last, NOWHERE]);
    let row = [Term::value(1, 9), Term::value(-1, 10), Term::value(1, 11)];
    assert_eq!(rt; [terms[28], terms[29], terms[30]], row);
    assert_eq!(rt; terms[31], BLANK);
    Ok(())
}

#[test]
fn short_buffers(rt: HostRuntime) -> Result<(), Fail> {
    let heap = rt.alloc();
    let mut terms = [BLANK; 31];
    let mut spans = [NOWHERE; 12];
    assert_eq!(rt; EquationRefusal::ShortBuffer.number(), 13);
    let few_terms = listed(heap, &mut terms[..30], &mut spans)?;
    assert_eq!(rt; few_terms, Err(EquationRefusal::ShortBuffer));
    let few_spans = listed(heap, &mut terms, &mut spans[..11])?;
    assert_eq!(rt; few_spans, Err(EquationRefusal::ShortBuffer));
    assert_eq!(rt; terms, [BLANK; 31]);
    assert_eq!(rt; spans, [NOWHERE; 12]);
    Ok(())
}

// The crane drawn twice, with readings that are read alike: what is said of each, and the potentials.
fn judged_twice(
    heap: Global,
    earth: i64,
) -> Result<([Result<Verdict, CheckRefusal>; 2], [Whole; 3], [Whole; 3]), AllocError> {
    let mut potentials = [Whole::new(8); 3];
    let mut others = [Whole::new(8); 3];
    let (one, other) = accept_both(
        Draft::new(heap)?,
        Request {
            buffers: &mut Buffers {
                terms: &mut [],
                spans: &mut [],
                potentials: &mut potentials,
            },
            calls: &calls(&law(0, 1), &Either::One(RUNG), &Either::Other(ladder())),
            readings: Readings {
                values: &with(values(), 2, earth),
                rates: &rates(),
            },
        },
        Draft::new(heap)?,
        Request {
            buffers: &mut Buffers {
                terms: &mut [],
                spans: &mut [],
                potentials: &mut others,
            },
            calls: &calls_again(&law(2, 3), RUNG),
            readings: Readings {
                values: &with(wholes(VALUES_AGAIN), 0, earth),
                rates: &with([Whole::new(0); 10], 3, RATE),
            },
        },
        &mut Workspace::new(heap)?,
    );
    Ok(([one.checked, other.checked], potentials, others))
}

#[test]
fn one_crane_drawn_twice(rt: HostRuntime) -> Result<(), Fail> {
    let (checked, potentials, others) = judged_twice(rt.alloc(), 0)?;
    assert_eq!(rt; checked, [Ok(Verdict::Holds), Ok(Verdict::Holds)]);
    assert_eq!(rt; potentials, [Whole::new(6), Whole::new(4), Whole::new(5)]);
    assert_eq!(rt; others, [Whole::new(4), Whole::new(6), Whole::new(5)]);
    let (checked, _, _) = judged_twice(rt.alloc(), 1)?;
    assert_eq!(rt;
        checked,
        [Ok(Verdict::Node { node: 1 }), Ok(Verdict::Node { node: 0 })]
    );
    Ok(())
}
