//! Chained cells over lent memory: the part of the index that knows of no kind of key.
//!
//! A `Table` keeps entries in lent cells, each in the chain that its hash names, with one lent head for each
//! chain. It takes a free cell for an entry, reads or replaces what a held cell has, and gives a cell up. A cell
//! never used is told by a mark that rises, one given up stands in a chain of its own, so that making writes
//! no cell. Every call is safe and ends on any memory; where the memory is `Sound`, which making gives and each
//! call keeps, the call does what its record says (`Took`, `Parted`, `Renewed`, `Emptied`).
//! It leaves to the index above it whose keys are the same, and the keeping of `Sound` as a ghost field.
//! The idea of the proof: the free cells are one more chain, so each used cell stands in exactly one chain, and
//! taking and giving up are one move of one cell from a chain to the front of another.
#![tactic(auto)]

mod cell;
mod lent;
mod taking;
mod vacancy;
mod walk;
mod writes;

pub use cell::{Cell, Content, Entry};
pub use lent::Table;
pub use walk::Walk;
pub use writes::clear_heads;
