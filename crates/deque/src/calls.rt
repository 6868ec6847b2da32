//! The calls.
ghost use Rattle.std.specs.Prelude.{◌≡◌, ℕ, min, true, false, [], length, map, take, if◌then◌else◌, Some, None, MatchResult};
ghost use Rattle.links.specs.Places.{has, last};
ghost use Rattle.links.specs.Links.{most};
ghost use Rattle.deque.specs.Views.{views, element_of};
ghost use Rattle.deque.specs.Chain.{Lies};
ghost use Rattle.deque.specs.Edits.{loose};
ghost use Rattle.deque.specs.Refusals.{refused_by};
ghost use Rattle.deque.specs.Meaning.{items, nodes, lender, lent, value_at, places, pushed, dropped, front, rest, found, replaced, moved, free, by_ok, when_pushed, when_linked, next_answer, found_answer, at_place, Untouched, Linked, Unlinked, Becomes};
ghost use Rattle.deque.specs.Coming.{coming};
ghost use Rattle.deque.specs.Laws.{EachOnce, LastHasNoNext, MovesToBack, UnlinkThenPushMoves, FirstInFirstOut};

use crate::Deque;
use crate::iter::Iter;
use crate::node::Node;
use crate::refusal::Refusal;
use links::Link;

// The clauses size, owner and values stand at each call that writes: they compare the queue before with the queue after,
// which no invariant of one queue says, and a record of both would hide the names that crates above cite.

impl<'n, T: Copy> Deque<'n, T> {
    /// An empty queue over the first nodes of the slice, 2^32 - 1 of them at most; each is taken out, and its element stays.
    pub fn new(nodes: &'n mut [Node<T>]) -> Deque<'n, T>
        ensures order { items result ≡ [] }
        ensures size { lent result ≡ min (length nodes.old) most }
        ensures values { (j : ℕ) → value_at result j ≡ element_of (take (lent result) (views nodes.old)) j }
    {
        let n = nodes.len().min(Link::MOST);
        let lent = &mut nodes[..n];
        take_out_all(lent);
        Deque {
            nodes: lent,
            head: Link::none(),
            tail: Link::none(),
            len: 0,
        }
    }

    /// Takes every linked node out; the elements stay.
    pub fn clear(&mut self)
        ensures order { items self.new ≡ [] }
        ensures size { lent self.new ≡ lent self.old }
        ensures owner { lender self.new ≡ lender self.old }
        ensures values { (j : ℕ) → value_at self.new j ≡ value_at self.old j }
    {
        take_out_all(self.nodes);
        self.head = Link::none();
        self.tail = Link::none();
        self.len = 0;
    }

    /// Links node i, with the element x, behind all others. Refused (9) where it is not lent or already linked.
    pub fn push_back(&mut self, i: usize, x: T) -> Result<(), Refusal>
        ensures answer { result ≡ when_pushed self.old i }
        ensures number { refused_by result ≡ (if free (lent self.old) (items self.old) i then None else Some 9) }
        ensures order { items self.new ≡ by_ok result (pushed (items self.old) i x) (items self.old) }
        ensures size { lent self.new ≡ lent self.old }
        ensures owner { lender self.new ≡ lender self.old }
        ensures values { (j : ℕ) → value_at self.new j ≡ by_ok result (at_place i x j (value_at self.old j)) (value_at self.old j) }
        ensures refused { Untouched result self.old self.new }
    {
        if i >= self.nodes_lent() || self.contains(i) {
            return Err(Refusal::NotFree);
        }
        self.link(i, x);
        Ok(())
    }

    /// Takes the front out, and hands out its number and its element.
    #[tactic(auto, using(crate::proofs::Outcomes::head_here))]
    pub fn pop_front(&mut self) -> Option<(usize, T)>
        ensures answer { result ≡ front (items self.old) }
        ensures order { items self.new ≡ rest (items self.old) }
        ensures size { lent self.new ≡ lent self.old }
        ensures owner { lender self.new ≡ lender self.old }
        ensures values { (j : ℕ) → value_at self.new j ≡ value_at self.old j }
        ensures runs { FirstInFirstOut (lent self.old) (items self.old) }
    {
        let i = self.head.target()?;
        let n = self.nodes[i];
        self.cut(i, n);
        Some((i, n.element))
    }

    /// The front's number and element.
    #[tactic(auto, using(crate::proofs::Outcomes::head_here))]
    pub fn peek_front(&self) -> Option<(usize, T)>
        ensures { result ≡ front (items self.now) }
    {
        let i = self.head.target()?;
        Some((i, self.nodes[i].element))
    }

    /// Moves node i behind all others; where it is the last, nothing is written. Refused (8) where it is not linked.
    pub fn move_to_back(&mut self, i: usize) -> Result<(), Refusal>
        ensures answer { result ≡ when_linked self.old i }
        ensures number { refused_by result ≡ (if has (places (items self.old)) i then None else Some 8) }
        ensures order { items self.new ≡ by_ok result (moved i (items self.old)) (items self.old) }
        ensures size { lent self.new ≡ lent self.old }
        ensures owner { lender self.new ≡ lender self.old }
        ensures values { (j : ℕ) → value_at self.new j ≡ value_at self.old j }
        ensures stays { last (places (items self.old)) ≡ Some i → self.new ≡ self.old }
        ensures refused { Untouched result self.old self.new }
        ensures moves { MovesToBack (items self.old) }
    {
        let moved = self.linked(i)?;
        if self.tail.target() == Some(i) {
            return Ok(());
        }
        self.cut(i, moved);
        self.link(i, moved.element);
        Ok(())
    }

    /// Takes node i out; its element stays. Refused (8) where it is not linked.
    pub fn unlink(&mut self, i: usize) -> Result<(), Refusal>
        ensures answer { result ≡ when_linked self.old i }
        ensures number { refused_by result ≡ (if has (places (items self.old)) i then None else Some 8) }
        ensures order { items self.new ≡ by_ok result (dropped i (items self.old)) (items self.old) }
        ensures size { lent self.new ≡ lent self.old }
        ensures owner { lender self.new ≡ lender self.old }
        ensures values { (j : ℕ) → value_at self.new j ≡ value_at self.old j }
        ensures out { has (places (items self.new)) i ≡ false }
        ensures refused { Untouched result self.old self.new }
        ensures again { UnlinkThenPushMoves (items self.old) }
    {
        let n = self.linked(i)?;
        self.cut(i, n);
        Ok(())
    }

    /// The node behind node i, none where it is the last. Refused (8) where it is not linked.
    #[tactic(auto, using(crate::proofs::Outcomes::next_told))]
    pub fn next(&self, i: usize) -> Result<Option<usize>, Refusal>
        ensures answer { result ≡ next_answer self.now i }
        ensures number { refused_by result ≡ (if has (places (items self.now)) i then None else Some 8) }
        ensures end { LastHasNoNext (items self.now) }
    {
        Ok(self.linked(i)?.next.target())
    }

    /// The linked nodes' numbers and elements, front first.
    pub fn iter(&self) -> Iter<'_, T>
        ensures { coming result ≡ items self.now }
    {
        Iter {
            nodes: self.nodes,
            next: self.head,
            left: self.len,
        }
    }

    /// Whether node i is linked.
    pub fn contains(&self, i: usize) -> bool
        ensures answer { result ≡ has (places (items self.now)) i }
        ensures once { EachOnce (lent self.now) (items self.now) }
    {
        self.linked(i).is_ok()
    }

    /// How many nodes are linked.
    pub fn len(&self) -> usize
        ensures { result ≡ length (items self.now) }
    {
        self.len
    }

    /// How many nodes are lent.
    pub fn nodes_lent(&self) -> usize
        ensures { result ≡ lent self.now }
    {
        self.nodes.len()
    }

    /// The element of node i. Refused (8) where it is not linked.
    #[tactic(auto, using(crate::proofs::Orderly::found_absent, crate::proofs::Outcomes::element_told))]
    pub fn get(&self, i: usize) -> Result<T, Refusal>
        ensures answer { result ≡ found_answer (found i (items self.now)) }
        ensures number { refused_by result ≡ (if has (places (items self.now)) i then None else Some 8) }
    {
        Ok(self.linked(i)?.element)
    }

    /// Replaces the element of node i by x. Refused (8) where it is not linked.
    pub fn set(&mut self, i: usize, x: T) -> Result<(), Refusal>
        ensures answer { result ≡ when_linked self.old i }
        ensures number { refused_by result ≡ (if has (places (items self.old)) i then None else Some 8) }
        ensures order { items self.new ≡ by_ok result (replaced i x (items self.old)) (items self.old) }
        ensures size { lent self.new ≡ lent self.old }
        ensures owner { lender self.new ≡ lender self.old }
        ensures values { (j : ℕ) → value_at self.new j ≡ by_ok result (at_place i x j (value_at self.old j)) (value_at self.old j) }
        ensures refused { Untouched result self.old self.new }
    {
        self.linked(i)?;
        self.nodes[i].element = x;
        Ok(())
    }

    /// The lent nodes again, as they lie: the order that they were in can be read off them.
    pub fn release(self) -> &'n mut [Node<T>]
        ensures memory { views result.now ≡ nodes self.entry }
        ensures owner { result.ghost_name ≡ lender self.entry }
        ensures links { ∥ Lies (views result.now) (places (items self.entry)) ∥₁ }
    {
        let Deque {
            nodes: handed,
            head: _,
            tail: _,
            len: _,
        } = self;
        handed
    }

    /// Node i as it lies. Refused where it is not linked.
    fn linked(&self, i: usize) -> Result<Node<T>, Refusal>
        ensures { MatchResult result (Linked self.now i) (Unlinked self.now i) }
    {
        match self.nodes.get(i) {
            Some(n) if n.linked => Ok(*n),
            _ => Err(Refusal::NotLinked),
        }
    }

    // Here and in `cut` the nodes are written through a reference of their own, so that between the writes the links need
    // not lie as the order says.

    /// Puts node i, with the element x, behind all others.
    #[tactic(auto, using(crate::proofs::Outcomes::last_here))]
    fn link(&mut self, i: usize, x: T)
        requires { free (lent self.old) (items self.old) i ≡ true }
        ensures { Becomes self.old self.new (pushed (items self.old) i x) (λ j. at_place i x j (value_at self.old j)) }
    {
        let link = Link::to(i);
        let nodes = &mut *self.nodes;
        nodes[i] = Node {
            next: Link::none(),
            prev: self.tail,
            linked: true,
            element: x,
        };
        match self.tail.target() {
            Some(last) => nodes[last].next = link,
            None => self.head = link,
        }
        self.tail = link;
        self.len += 1;
    }

    /// Takes node i, which lies as n, out.
    fn cut(&mut self, i: usize, n: Node<T>)
        requires { Linked self.old i n }
        ensures { Becomes self.old self.new (dropped i (items self.old)) (value_at self.old) }
    {
        let nodes = &mut *self.nodes;
        match n.prev.target() {
            Some(before) => nodes[before].next = n.next,
            None => self.head = n.next,
        }
        match n.next.target() {
            Some(behind) => nodes[behind].prev = n.prev,
            None => self.tail = n.prev,
        }
        nodes[i] = Node::new(nodes[i].element);
        self.len -= 1;
    }
}

/// Takes every node out, with its element as it was.
fn take_out_all<T: Copy>(nodes: &mut [Node<T>])
    ensures { views nodes.new ≡ map loose (views nodes.old) }
{
    for node in nodes.iter_mut() {
        *node = Node::new(node.element);
    }
}
