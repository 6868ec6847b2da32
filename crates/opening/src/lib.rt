//! For how much the sketch of a cache opens: the capacity, or where entries are weighed, as many as there are times
//! the share of the capacity that is recorded, in f64.
//!
//! It promises the size that the rules define in whole numbers (`opening_size`), with each of the two f64 operations
//! rounded to 53 significant bits, a tie to the even one, and the fraction dropped. Every argument is taken: one
//! above what a cache can have (4,096 entries, a weight of 2^44 recorded, a capacity of 2^48) counts as that limit.
//! It leaves to the caller when to open.
//!
//! The idea of the proof: below these limits each number is exact in f64, so that quotient and product are roundings
//! of fractions of whole numbers, and the result is far below 2^64.
#![tactic(auto)]

ghost use Rattle.std.specs.Prelude.{◌≡◌, ◌^◌, ◌<◌, ◌≤◌, min};
ghost use Rattle.rules.specs.Opening.{opening_size};
ghost use Rattle.rules.specs.Rounding.{weighed_size};

use std::num::{nearest_u64_to_f64, truncating_f64_to_u64};

/// The most entries that a cache can hold: 2^12.
const MOST_ENTRIES: u64 = 4096;

/// The most weight that so many entries can have: 2^44.
const MOST_RECORDED: u64 = 0x1000_0000_0000;

/// The largest capacity: 2^48.
const MOST_CAPACITY: u64 = 0x1_0000_0000_0000;

/// For how much the sketch opens.
// `weighed` is a constant of the kind, and the definition has these four too: an `Option` of two of them says no more.
pub fn opening_size(weighed: bool, entries: u64, recorded: u64, capacity: u64) -> u64
    ensures { result ≡ opening_size weighed (min entries (2 ^ 12)) (min recorded (2 ^ 44)) (min capacity (2 ^ 48)) }
{
    let capacity = capacity.min(MOST_CAPACITY);
    if !weighed {
        return capacity;
    }
    if capacity == 0 {
        return 0;
    }
    weighed_opening(
        entries.min(MOST_ENTRIES),
        recorded.min(MOST_RECORDED),
        capacity,
    )
}

/// The same where entries are weighed.
fn weighed_opening(entries: u64, recorded: u64, capacity: u64) -> u64
    requires entries { entries ≤ 2 ^ 12 }
    requires recorded { recorded ≤ 2 ^ 44 }
    requires capacity { (0 < capacity) × (capacity ≤ 2 ^ 48) }
    ensures { result ≡ weighed_size entries recorded capacity }
{
    let share = nearest_u64_to_f64(recorded) / nearest_u64_to_f64(capacity);
    truncating_f64_to_u64(nearest_u64_to_f64(entries) * share)
}
