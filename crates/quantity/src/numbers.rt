//! What quantities are held in.
ghost use Rattle.std.specs.Prelude.{◌^◌, ◌<◌};
ghost use Rattle.std.specs.Int.Signed.{mag};

/// One of the 2^64 whole numbers from -2^63 to 2^63 - 1; what is computed goes round at the ends.
#[derive(Clone, Copy, PartialEq, Eq, Debug)]
pub struct Whole {
    /// The number from -2^63 to 2^63 - 1.
    pub value: i64,
    // The laws of a kind speak of every value of the type, so no value of this one is outside an `i64`.
    ghost held: { mag value < 2 ^ 63 },
}

/// A quantity in two parts.
#[derive(Clone, Copy, PartialEq, Eq, Debug)]
pub struct Phasor {
    /// The real part.
    pub real: Whole,
    /// The imaginary part.
    pub imaginary: Whole,
}
