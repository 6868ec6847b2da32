//! A walk along a queue.
ghost use Rattle.std.specs.Prelude.{◌≡◌};
ghost use Rattle.std.specs.Iterator.{YieldsFirst, item_count};
ghost use Rattle.deque.specs.Coming.{coming};

use crate::node::Node;
use links::Link;

/// The numbers and elements of the linked nodes that are still to come, front first.
#[derive(Drop)]
pub struct Iter<'q, T> {
    pub(crate) nodes: &'q [Node<T>],
    pub(crate) next: Link,
    pub(crate) left: usize,
}

impl<T: Copy> Iterator for Iter<'_, T> {
    type Item = (usize, T);

    ghost next_gives = { YieldsFirst coming };

    ghost remaining = { item_count coming };

    /// The next linked node's number and element; none past the last.
    fn next(&mut self) -> Option<(usize, T)> {
        let left = self.left.checked_sub(1)?;
        let i = self.next.target()?;
        let n = *self.nodes.get(i)?;
        self.left = left;
        self.next = n.next;
        Some((i, n.element))
    }
}
