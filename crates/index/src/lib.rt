//! The index: which lent cell has a key.
//!
//! An `Index` is a map from cells to entries over lent memory: it finds the cell of a key, takes a free cell for a
//! new entry, reads and replaces what a cell has, and gives it up. Contracts speak of that map alone (`entries`);
//! which free cell is taken and how the chains lie is the `Layout`, which every index has by its type: each held cell
//! stands in the chain of its hash and in no other, and each cell is held or free and never both.
//! What depends on the kind of key is the predicate `Lawful`: each entry's hash and weight are its kind's, and no
//! two held keys are the same. Making gives it and each call keeps it; what needs it has it as a premise, and
//! without it every call is still safe and ends. It leaves to the caller to ask for a key before it takes a
//! cell for one, and to weigh an entry as its kind does. A call walks one chain at most, and none scans the cells.
//! The idea of the proof: `find` promises one equation over all cells, whether an entry's key is the same as the
//! one sought and whether its cell is the answer; with the answer none that is what `take` needs to stay lawful.
#![tactic(auto)]

mod calls;
mod kept;

pub use kept::Index;
