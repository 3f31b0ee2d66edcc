//! What counts as a small reading: at the bounds, one past them, and one among many.
use quantity::Whole;
use small_readings::all_small;

const MOST: i64 = 1 << 40;

#[test]
fn bounds_are_small(rt: HostRuntime) {
    assert!(rt; all_small(&[]));
    assert!(rt; all_small(&[Whole::new(0)]));
    assert!(rt; all_small(&[Whole::new(MOST), Whole::new(-MOST)]));
}

#[test]
fn past_the_bounds_is_not(rt: HostRuntime) {
    assert!(rt; !all_small(&[Whole::new(MOST + 1)]));
    assert!(rt; !all_small(&[Whole::new(-MOST - 1)]));
    assert!(rt; !all_small(&[Whole::new(i64::MAX)]));
    assert!(rt; !all_small(&[Whole::new(i64::MIN)]));
}

// One that is not small is enough, first, last or between.
#[test]
fn each_counts(rt: HostRuntime) {
    let near = Whole::new(7);
    let far = Whole::new(MOST + 1);
    assert!(rt; all_small(&[near, near, near]));
    assert!(rt; !all_small(&[far, near, near]));
    assert!(rt; !all_small(&[near, far, near]));
    assert!(rt; !all_small(&[near, near, far]));
}
