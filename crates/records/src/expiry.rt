//! Whether an entry is over, by its record.
ghost use Rattle.std.specs.Prelude.{◌≡◌};
ghost use Rattle.times.specs.Expiry.{span_of};
ghost use Rattle.records.specs.Instants.{over_since};

use crate::access_time::AccessTime;
use times::{Duration, Instant, is_expired_since};

/// Whether what began at an instant, if there is one, is over.
fn is_over_since(span: Option<Duration>, from: Option<u64>, now: Instant) -> bool
    ensures { result ≡ over_since (span_of span) from now.nanos }
{
    from.is_some_and(|nanos| is_expired_since(span, nanos, now))
}

/// Whether the idle time of a record's entry is over.
pub fn is_expired_entry_ao<R: AccessTime>(idle: Option<Duration>, entry: &R, at: Instant) -> bool
    ensures { result ≡ over_since (span_of idle) (R.touched entry.now) at.nanos }
{
    is_over_since(idle, entry.last_accessed(), at)
}

/// Whether the life of a record's entry is over.
pub fn is_expired_entry_wo<R: AccessTime>(life: Option<Duration>, entry: &R, at: Instant) -> bool
    ensures { result ≡ over_since (span_of life) (R.written entry.now) at.nanos }
{
    is_over_since(life, entry.last_modified(), at)
}
