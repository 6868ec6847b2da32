//! The frequency sketch: how often each hash was seen lately, in four bits a counter.
//!
//! A table of words, lent at making, holds sixteen counters of four bits a word. A hash has four of them, one
//! for each depth, and its frequency is the least of the four. An increment raises all four, none past 15. Each
//! increment that raised one counts towards a sample of ten for each hash that the table is made for; when the
//! sample is full, every counter is halved, so that what was popular long ago fades.
//!
//! Every call is defined for every hash, every capacity asked for and every number of lent words. What the calls
//! do to the counters is promised counter by counter, and a frequency is promised to be at least the smaller of
//! 15 and the increments of its hash since the opening, until the first halving. A frequency that is too high
//! is always possible: other hashes may share all four counters.
//!
//! The idea of the proof: a word is the list of its counters, and the tricks with shifts and masks are shown
//! equal to what happens in that list; above that, only counters are spoken of. Where they stand is known by the
//! meter of an open sketch, whose type says that its table's length is a power of two.
#![tactic(auto)]

ghost use Rattle.std.specs.Prelude.{◌≤◌, length};
ghost use Rattle.sketch.specs.Openness.{table_len};

mod counters;
pub mod frequency_sketch;
pub mod increment;
mod meter;

pub use increment::Increment;
use meter::Meter;

/// A frequency sketch over lent words: once it is open its table is their front.
#[derive(Drop)]
pub struct FrequencySketch<'a> {
    // The table's length stands beside the words: lent memory is all there is, and a table may grow within it.
    words: &'a mut [u64],
    meter: Option<Meter>,
    ghost fits: { table_len meter ≤ length words.now },
}
