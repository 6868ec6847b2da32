//! The queue at its edges, as tests, and a caller that holds it by reference.
//!
//! The desk keeps a queue that was lent to it behind a reference, next to a slice of names: that is how a layer above
//! holds the queue, and its contracts stand on the queue's contracts alone.
#![tactic(auto)]

ghost use Rattle.std.specs.Prelude.{◌≡◌, length};
ghost use Rattle.deque.specs.Meaning.{items};

mod calls;
#[cfg(test)]
mod tests;

pub use calls::{open, serve_one};
use deque::Deque;

/// The names of those who can wait, by node number, the line that they wait in, and how many wait; the count is right.
// Names lie in lent memory of their own beside the queue's nodes: so a layer above has to hold a queue, with no heap.
#[derive(Drop)]
pub struct Desk<'b, 'q, 'n> {
    names: &'b mut [u64],
    line: &'q mut Deque<'n, u32>,
    waiting: usize,
    ghost counted: { waiting ≡ length (items line.now) },
}
