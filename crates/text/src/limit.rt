//! How long a text may be.
ghost use Rattle.std.specs.Prelude.{◌≡◌, length, nat_le};
ghost use Rattle.text.specs.Limits.{most_bytes};

/// No sheet text is longer.
pub const MOST_BYTES: usize = 65_536;

/// Whether the text is no longer than a sheet text may be.
pub fn fits(text: &[u8]) -> bool
    ensures { result ≡ nat_le (length text.now) most_bytes }
{
    text.len() <= MOST_BYTES
}
