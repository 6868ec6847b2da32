//! A caller of the check on numbers: what it was told of an instant is enough, on either way.
ghost use Rattle.std.specs.Prelude.{◌≡◌, ◌^◌, min};

use times::{Instant, MOST};

/// A number, cut to the largest that is an instant.
pub fn clipped(nanos: u64) -> u64
    ensures { result ≡ min nanos (2 ^ 62) }
{
    Instant::try_from(nanos).map_or(MOST, Instant::nanos)
}
