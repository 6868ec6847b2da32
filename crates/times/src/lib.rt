//! Instants and durations, and the test whether something that began at an instant is over.
//!
//! Every `Instant` and every `Duration` that can exist is at most 2^62 nanoseconds: the bound is part
//! of their one type, and the only way to one is `try_from`, which refuses a larger number.
//! It promises that something begun at `from` with the span `span` is over at `now` exactly when
//! `from + span <= now`, that what is over stays over, and that no sum on the way overflows.
//! It leaves to the caller what an instant is counted from, and allows instants to go back.
//! In memory an instant lies as the plain number of its nanoseconds; a test on such a number asks
//! nothing of it. The idea of the proof: two numbers of at most 2^62 sum to at most 2^63.
#![tactic(auto)]

mod expiry;
mod nanos;
mod refusal;

pub use expiry::{is_expired, is_expired_since};
pub use nanos::{Duration, Instant, MOST, Nanos, Point, Span};
pub use refusal::Refusal;
