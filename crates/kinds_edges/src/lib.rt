//! What the two bottom crates are like to use, and how they behave at their edges.
//!
//! `citing` is generic code over any kind: each function rests on one law, which the check finds by
//! itself. `clipping` calls the check on instants. `by_room` is a third kind, lawful and of another shape than the hub's two: its keys
//! have 32 bits, its values are an enum. The tests stand at the edges: letters and their neighbours,
//! bytes 0 and 255, weights at their stop, instants at 2^62 and beyond.
//! It promises what those functions say; nothing above rests on it.
#![tactic(auto)]

mod by_room;
mod citing;
mod clipping;
#[cfg(test)]
mod kind_edges;
#[cfg(test)]
mod tag_edges;
#[cfg(test)]
mod time_edges;

pub use by_room::{Rooms, Size};
pub use citing::{
    adds_up, counts_as_one, finds_itself, hash_of_other, hash_past_third, same_either_way,
    same_through, weight_of_other,
};
pub use clipping::clipped;
