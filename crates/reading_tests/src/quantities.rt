//! The kinds of quantity: where numbers wrap, part by part, and in generic code.
use quantity::{Phasor, Quantity, Whole, difference, multiple_of_total, total};

// The least number is its own negation, and 0 is the other that is.
#[test]
fn negations_wrap(rt: HostRuntime) {
    assert_eq!(rt; Whole::new(i64::MIN).negation().value, i64::MIN);
    assert_eq!(rt; Whole::new(i64::MAX).negation().value, i64::MIN + 1);
    assert_eq!(rt; Whole::zero().negation().value, 0);
}

// A sum past either end comes in at the other.
#[test]
fn sums_wrap(rt: HostRuntime) {
    let least = Whole::new(i64::MIN);
    let most = Whole::new(i64::MAX);
    assert_eq!(rt; most.sum(Whole::new(1)).value, i64::MIN);
    assert_eq!(rt; least.sum(Whole::new(-1)).value, i64::MAX);
    assert_eq!(rt; least.sum(least).value, 0);
    assert_eq!(rt; most.sum(most).value, -2);
    assert_eq!(rt; most.sum(least).value, -1);
}

// So does a multiple, however often it goes round.
#[test]
fn multiples_wrap(rt: HostRuntime) {
    let quarter = Whole::new(1 << 62);
    assert_eq!(rt; quarter.multiple(2).value, i64::MIN);
    assert_eq!(rt; quarter.multiple(3).value, -(1 << 62));
    assert_eq!(rt; quarter.multiple(-4).value, 0);
    assert_eq!(rt; Whole::new(i64::MIN).multiple(-1).value, i64::MIN);
    assert_eq!(rt; Whole::new(1 << 33).multiple(i32::MIN).value, 0);
    assert_eq!(rt;
        Whole::new(i64::MAX).multiple(i32::MAX).value,
        i64::MAX - 2147483646
    );
    assert_eq!(rt; Whole::new(7).multiple(0).value, 0);
}

#[test]
fn equality_is_exact(rt: HostRuntime) {
    assert!(rt; Whole::new(i64::MIN).equals(Whole::new(i64::MIN)));
    assert!(rt; !Whole::new(i64::MIN).equals(Whole::new(i64::MAX)));
    assert!(rt; !Whole::new(1).equals(Whole::new(-1)));
}

// The parts of a phasor wrap apart, and both count for equality.
#[test]
fn phasors_go_by_parts(rt: HostRuntime) {
    let x = Phasor::new(i64::MAX, -3);
    let sum = x.sum(Phasor::new(1, 5));
    assert_eq!(rt; sum.real.value, i64::MIN);
    assert_eq!(rt; sum.imaginary.value, 2);
    assert!(rt; sum.negation().equals(Phasor::new(i64::MIN, -2)));
    assert!(rt; x.multiple(-2).equals(Phasor::new(2, 6)));
    assert!(rt; x.sum(x.negation()).equals(Phasor::zero()));
    assert!(rt; !x.equals(Phasor::new(i64::MAX, 3)));
    assert!(rt; !x.equals(Phasor::new(0, -3)));
}

// Sums that leave the range on the way and come back.
#[test]
fn generic_code_takes_whole_numbers(rt: HostRuntime) {
    let readings = [
        Whole::new(i64::MAX),
        Whole::new(i64::MAX),
        Whole::new(10),
        Whole::new(-i64::MAX),
        Whole::new(-i64::MAX),
    ];
    assert_eq!(rt; total(&readings).value, 10);
    assert_eq!(rt; multiple_of_total(-3, &readings).value, -30);
    assert_eq!(rt;
        difference(Whole::new(i64::MIN), Whole::new(1)).value,
        i64::MAX
    );
}

#[test]
fn generic_code_takes_phasors(rt: HostRuntime) {
    let readings = [Phasor::new(1, i64::MIN), Phasor::new(2, i64::MIN)];
    let backwards = [Phasor::new(2, i64::MIN), Phasor::new(1, i64::MIN)];
    assert!(rt; total(&readings).equals(Phasor::new(3, 0)));
    assert!(rt; difference(total(&readings), total(&backwards)).equals(Phasor::zero()));
    assert!(rt; multiple_of_total(2, &readings).equals(Phasor::new(6, 0)));
}
