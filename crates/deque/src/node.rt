//! One place of the memory that is lent to a queue.
ghost use Rattle.std.specs.Prelude.{◌≡◌};
ghost use Rattle.deque.specs.Views.{view_of, out_with};

use links::Link;

// Numbered nodes in a lent slice, and links of 32 bits, since no part allocates; and a mark beside the element in
// place of an Option, since the elements of nodes that are out stay.

/// An element with its links; the mark says whether a queue has it in its order.
#[derive(Clone, Copy)]
pub struct Node<T> {
    pub(crate) next: Link,
    pub(crate) prev: Link,
    pub(crate) linked: bool,
    pub(crate) element: T,
}

impl<T> Node<T> {
    /// A node that is out, to lend.
    pub fn new(element: T) -> Node<T>
        ensures { view_of result ≡ out_with element }
    {
        Node {
            next: Link::none(),
            prev: Link::none(),
            linked: false,
            element,
        }
    }
}
