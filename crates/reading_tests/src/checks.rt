//! What the check says of them.
use super::sheets::{drive, rate, ring, triangle};
use checking::{CheckRefusal, Verdict, check, one_verdict};
use draft::Draft;
use quantity::{Phasor, Quantity, Whole};
use reading_sums::Readings;
use refusal::Refuses;
use sheet::Sheet;
use std::test::Fail;
use walk_test::Workspace;

// The flows go once round, and the across readings are a, b and c.
fn round(a: i64, b: i64, c: i64) -> [Whole; 6] {
    let one = Whole::new(1);
    let back = Whole::new(-1);
    [one, Whole::new(a), one, Whole::new(b), back, Whole::new(c)]
}

// The check of values and rates that are borrowed apart.
fn judged<K: Quantity>(
    sheet: &Sheet,
    values: &[K],
    rates: &[K],
    potentials: &mut [K],
    workspace: &mut Workspace,
) -> Result<Verdict, CheckRefusal> {
    check(sheet, Readings { values, rates }, potentials, workspace)
}

#[test]
fn triangle_holds(rt: HostRuntime) -> Result<(), Fail> {
    let sheet = triangle(rt.alloc())?;
    let mut workspace = Workspace::new(rt.alloc())?;
    let rates = [Whole::new(0); 6];
    let mut potentials = [Whole::new(5); 3];
    let verdict = judged(
        &sheet,
        &round(3, 4, 7),
        &rates,
        &mut potentials,
        &mut workspace,
    );
    assert_eq!(rt; verdict, Ok(Verdict::Holds));
    assert_eq!(rt; potentials, [Whole::new(0), Whole::new(-3), Whole::new(-7)]);
    Ok(())
}

#[test]
fn triangle_is_open(rt: HostRuntime) -> Result<(), Fail> {
    let sheet = triangle(rt.alloc())?;
    let mut workspace = Workspace::new(rt.alloc())?;
    let rates = [Whole::new(0); 6];
    let mut potentials = [Whole::new(5); 3];
    let verdict = judged(
        &sheet,
        &round(3, 4, 8),
        &rates,
        &mut potentials,
        &mut workspace,
    );
    assert_eq!(rt; verdict, Ok(Verdict::Row { row: 2 }));
    assert_eq!(rt; potentials, [Whole::new(0); 3]);
    Ok(())
}

// Small readings are judged as integers are. Of others a sum may wrap to zero.
#[test]
fn small_readings_are_exact(rt: HostRuntime) -> Result<(), Fail> {
    let sheet = triangle(rt.alloc())?;
    let mut workspace = Workspace::new(rt.alloc())?;
    let rates = [Whole::new(0); 6];
    let mut potentials = [Whole::new(5); 3];
    let most = 1 << 40;
    let verdict = judged(
        &sheet,
        &round(most, -most, 0),
        &rates,
        &mut potentials,
        &mut workspace,
    );
    assert_eq!(rt; verdict, Ok(Verdict::Holds));
    assert_eq!(rt;
        potentials,
        [Whole::new(0), Whole::new(-most), Whole::new(0)]
    );
    let verdict = judged(
        &sheet,
        &round(most, most, -most),
        &rates,
        &mut potentials,
        &mut workspace,
    );
    assert_eq!(rt; verdict, Ok(Verdict::Row { row: 2 }));
    let verdict = judged(
        &sheet,
        &round(i64::MAX, 1, i64::MIN),
        &rates,
        &mut potentials,
        &mut workspace,
    );
    assert_eq!(rt; verdict, Ok(Verdict::Holds));
    Ok(())
}

// All flows the same way: at node 0 two of them leave.
#[test]
fn triangle_leaks(rt: HostRuntime) -> Result<(), Fail> {
    let sheet = triangle(rt.alloc())?;
    let mut workspace = Workspace::new(rt.alloc())?;
    let mut values = round(3, 4, 7);
    values[4] = Whole::new(1);
    let rates = [Whole::new(0); 6];
    let mut potentials = [Whole::new(5); 3];
    let verdict = judged(&sheet, &values, &rates, &mut potentials, &mut workspace);
    assert_eq!(rt; verdict, Ok(Verdict::Node { node: 0 }));
    assert_eq!(rt; potentials, [Whole::new(0); 3]);
    Ok(())
}

// What flows round the ring is of no matter, and what lies across it is zero.
#[test]
fn ring_closes(rt: HostRuntime) -> Result<(), Fail> {
    let sheet = ring(rt.alloc())?;
    let mut workspace = Workspace::new(rt.alloc())?;
    let rates = [Whole::new(0); 2];
    let mut potentials = [Whole::new(5)];
    let values = [Whole::new(9), Whole::new(0)];
    let verdict = judged(&sheet, &values, &rates, &mut potentials, &mut workspace);
    assert_eq!(rt; verdict, Ok(Verdict::Holds));
    assert_eq!(rt; potentials, [Whole::new(0)]);
    let values = [Whole::new(9), Whole::new(1)];
    let verdict = judged(&sheet, &values, &rates, &mut potentials, &mut workspace);
    assert_eq!(rt; verdict, Ok(Verdict::Row { row: 0 }));
    assert_eq!(rt; potentials, [Whole::new(0)]);
    Ok(())
}

#[test]
fn empty_sheet_holds(rt: HostRuntime) -> Result<(), Fail> {
    let sheet = Draft::new(rt.alloc())?.issue();
    let mut workspace = Workspace::new(rt.alloc())?;
    let none: [Whole; 0] = [];
    let verdict = judged(&sheet, &none, &none, &mut [], &mut workspace);
    assert_eq!(rt; verdict, Ok(Verdict::Holds));
    Ok(())
}

#[test]
fn drive_rests(rt: HostRuntime) -> Result<(), Fail> {
    let sheet = drive(rt.alloc())?;
    let mut workspace = Workspace::new(rt.alloc())?;
    let rates = [Whole::new(0); 4];
    let mut values = [Whole::new(0); 4];
    let mut potentials = [Whole::new(5); 2];
    let verdict = judged(&sheet, &values, &rates, &mut potentials, &mut workspace);
    assert_eq!(rt; verdict, Ok(Verdict::Holds));
    assert_eq!(rt; potentials, [Whole::new(0); 2]);
    values[1] = Whole::new(5);
    let verdict = judged(&sheet, &values, &rates, &mut potentials, &mut workspace);
    assert_eq!(rt; verdict, Ok(Verdict::Law { law: 0 }));
    Ok(())
}

// Both laws, both nodes and no row are wrong: the law is named, the lower of the two.
#[test]
fn laws_come_before_nodes(rt: HostRuntime) -> Result<(), Fail> {
    let sheet = drive(rt.alloc())?;
    let mut workspace = Workspace::new(rt.alloc())?;
    let rates = [Whole::new(0); 4];
    let values = [Whole::new(1), Whole::new(7), Whole::new(3), Whole::new(2)];
    let mut potentials = [Whole::new(5); 2];
    let verdict = judged(&sheet, &values, &rates, &mut potentials, &mut workspace);
    assert_eq!(rt; verdict, Ok(Verdict::Law { law: 0 }));
    let values = [Whole::new(1), Whole::new(200), Whole::new(3), Whole::new(2)];
    let verdict = judged(&sheet, &values, &rates, &mut potentials, &mut workspace);
    assert_eq!(rt; verdict, Ok(Verdict::Law { law: 1 }));
    let values = [Whole::new(1), Whole::new(200), Whole::new(3), Whole::new(0)];
    let verdict = judged(&sheet, &values, &rates, &mut potentials, &mut workspace);
    assert_eq!(rt; verdict, Ok(Verdict::Node { node: 0 }));
    Ok(())
}

// Phasors are checked as whole numbers are, and a law may ask for a rate.
#[test]
fn rates_are_read(rt: HostRuntime) -> Result<(), Fail> {
    one_verdict::<Phasor>();
    let sheet = rate(rt.alloc())?;
    let mut workspace = Workspace::new(rt.alloc())?;
    let values = [Phasor::new(3, 4), Phasor::new(5, 6)];
    let rates = [Phasor::new(7, 8), Phasor::new(3, 4)];
    let verdict = judged(&sheet, &values, &rates, &mut [], &mut workspace);
    assert_eq!(rt; verdict, Ok(Verdict::Holds));
    let verdict = judged(&sheet, &rates, &values, &mut [], &mut workspace);
    assert_eq!(rt; verdict, Ok(Verdict::Law { law: 0 }));
    Ok(())
}

#[test]
fn wrong_counts_are_refused(rt: HostRuntime) -> Result<(), Fail> {
    let sheet = drive(rt.alloc())?;
    let mut workspace = Workspace::new(rt.alloc())?;
    let readings = [Whole::new(0); 5];
    let mut potentials = [Whole::new(5); 2];
    let why = CheckRefusal::WrongCount;
    assert_eq!(rt; why.number(), 14);
    let refused = judged(
        &sheet,
        &readings[..3],
        &readings[..4],
        &mut potentials,
        &mut workspace,
    );
    assert_eq!(rt; refused, Err(why));
    let refused = judged(
        &sheet,
        &readings[..4],
        &readings,
        &mut potentials,
        &mut workspace,
    );
    assert_eq!(rt; refused, Err(why));
    let refused = judged(
        &sheet,
        &readings[..4],
        &readings[..4],
        &mut potentials[..1],
        &mut workspace,
    );
    assert_eq!(rt; refused, Err(why));
    assert_eq!(rt; potentials, [Whole::new(5); 2]);
    Ok(())
}
