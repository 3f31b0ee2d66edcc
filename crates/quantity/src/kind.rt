//! What a quantity can do, whatever its kind.
ghost use Rattle.std.specs.Prelude.{◌≡◌, Decides};
ghost use Rattle.quantity.specs.Group.{Group};

/// A kind of quantity. Each operation gives exactly what the kind's group says.
pub trait Quantity: Copy {
    // The operations and, in the same record, the proof of each law: an `impl` owes them of every value of the type.
    ghost group: { Group Self };

    /// What changes nothing in a sum.
    fn zero() -> Self
        ensures { result ≡ group.zero };

    /// The two together.
    fn sum(self, other: Self) -> Self
        ensures { result ≡ group.sum self other };

    /// What makes the quantity zero when it is added.
    fn negation(self) -> Self
        ensures { result ≡ group.negation self };

    /// The quantity so many times, where less than no times is of its negation.
    fn multiple(self, coefficient: i32) -> Self
        ensures { result ≡ group.multiple coefficient self };

    /// True exactly when the two are equal. A `==` under a bound tells only what the type calls equal, so
    /// it is no plainer: the trait would need a law beside it.
    fn equals(self, other: Self) -> bool
        ensures { Decides result (self ≡ other) };
}
