//! When something is over.
ghost use Rattle.std.specs.Prelude.{◌≡◌};
ghost use Rattle.times.specs.Expiry.{over, expired, span_of};
ghost use Rattle.times.specs.Laws.{ExpiryEdge, ExpiryLasts, SumsFit};

use crate::nanos::{Duration, Instant};

impl Duration {
    /// Whether this span is over at `now`, begun at `from`.
    pub fn is_over(self, from: Instant, now: Instant) -> bool
        ensures answer { result ≡ over self.nanos from.nanos now.nanos }
        ensures edge { ExpiryEdge }
        ensures fits { SumsFit }
    {
        from.nanos() + self.nanos() <= now.nanos()
    }
}

/// Whether what began at `from` has expired at `now`; with no span it never does.
pub fn is_expired(span: Option<Duration>, from: Instant, now: Instant) -> bool
    ensures answer { result ≡ expired (span_of span) from.nanos now.nanos }
    ensures lasts { ExpiryLasts }
{
    is_expired_since(span, from.nanos(), now)
}

/// The same from a plain number, as it lies in memory; one that is no instant is never reached.
// A number from memory has no bound, so the sum stops at the largest number, which no instant reaches.
pub fn is_expired_since(span: Option<Duration>, from: u64, now: Instant) -> bool
    ensures { result ≡ expired (span_of span) from now.nanos }
{
    span.is_some_and(|d| from.saturating_add(d.nanos()) <= now.nanos())
}
