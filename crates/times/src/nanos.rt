//! Numbers of nanoseconds with the bound in their type: made from plain numbers, and read again.
ghost use Rattle.std.specs.Prelude.{◌≡◌, ◌^◌, ◌≤◌};
ghost use Rattle.times.specs.Ranges.{in_range, numbered};

use crate::refusal::Refusal;
use std::alloc::AllocError;
use std::marker::PhantomData;

/// The largest number that is an instant or a duration: 2^62.
pub const MOST: u64 = 4611686018427387904;

/// So many nanoseconds: as a point in time, or as a length of time.
pub struct Nanos<As> {
    nanos: u64,
    marker: PhantomData<As>,
    ghost ok: { nanos ≤ 2 ^ 62 },
}

impl<As> Copy for Nanos<As> {}

// A derive is refused on a generic struct with a ghost field.
impl<As> Clone for Nanos<As> {
    ghost is_clone = { λ one other. other ≡ one };

    ghost is_infallible = { λ _. Unit {0} };

    /// The same number.
    fn clone(&self) -> Result<Self, AllocError> {
        Ok(*self)
    }
}

/// What makes nanoseconds a point in time.
pub struct Point;

/// What makes nanoseconds a length of time.
pub struct Span;

/// A point in time, in nanoseconds from a start that the caller chooses.
pub type Instant = Nanos<Point>;

/// A length of time, in nanoseconds.
pub type Duration = Nanos<Span>;

impl<As> TryFrom<u64> for Nanos<As> {
    type Error = Refusal;

    ghost try_from_gives = { λ n made. numbered (λ t. t.nanos) made ≡ in_range n };

    /// So many nanoseconds, unless the number is above 2^62.
    fn try_from(nanos: u64) -> Result<Self, Refusal> {
        if nanos <= MOST {
            Ok(Nanos {
                nanos,
                marker: PhantomData,
            })
        } else {
            Err(Refusal::BeyondRange)
        }
    }
}

impl<As> Nanos<As> {
    /// The plain number, as it lies in memory.
    pub fn nanos(self) -> u64
        ensures answer { result ≡ self.nanos }
        ensures bounded { result ≤ 2 ^ 62 }
    {
        self.nanos
    }
}
