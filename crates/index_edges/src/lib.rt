//! The index at its edges, and a caller that holds it by reference.
//!
//! `Holder` is the shape of the layer above: it has the index behind a `&mut`, with a fact of its own beside it, and
//! is proved against the index's promises alone: it looks a key up, replaces what is there or takes a cell, and so
//! never holds a key twice. The tests run the index where it could go wrong: every cell in one chain, no cell, no
//! head, a number of heads that is no power of two, cells given up and taken again, memory that was used before,
//! and one key in two spellings. The check finds every proof alone.
#![tactic(auto)]

mod holder;

pub use holder::{Holder, hold};

#[cfg(test)]
mod tests;
