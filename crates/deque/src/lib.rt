//! One queue over lent nodes, for any element.
//!
//! A caller lends a slice of nodes; the queue links some of them, by their numbers, in an order. What it means is the
//! list of the linked node numbers with their elements, front first, and each call promises its answer and the list
//! after it as definitions on that list (`items`, in specs/Meaning.antt). A call that cannot be done is refused, by a
//! numbered refusal, and leaves the memory as it was; no call asks anything of its caller.
//!
//! Left to the caller: which number a new element gets (the queue never looks for a free node), and the elements of
//! nodes that are out, which stay as they were.
//!
//! The idea of the proof: what a link says is a function of the order, for every node with no condition
//! (`next_of ns j ≡ after xs j`), so that each write is one equation about lists.
#![tactic(auto)]

ghost use Rattle.deque.specs.Chain.{Kept};

mod calls;
pub mod iter;
pub mod node;
pub mod refusal;

use links::Link;
use node::Node;

/// A queue over lent nodes, with the first and the last of its order and how many are linked; the links lie as the order says.
#[derive(Drop)]
pub struct Deque<'n, T> {
    nodes: &'n mut [Node<T>],
    head: Link,
    tail: Link,
    len: usize,
    ghost kept: { Kept nodes.now head tail len },
}
