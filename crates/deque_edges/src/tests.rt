//! The queue at its edges: calls, each with what the queue is to tell.
use deque::Deque;
use deque::node::Node;
use deque::refusal::Refusal;
use std::process::Abort;

/// The greatest number that a caller can name.
const FAR: usize = 0xffff_ffff_ffff_ffff;

// Repeated pushes and pops are loops, and single answers are compared by assert!: tried with assert_eq! on each of some
// fifty calls in a row, the check of the tests took 194 s, where a crate may take 90.

/// Pushes, each at a node with an element, and with the answer that is wanted.
fn pushes(rt: &impl Abort, d: &mut Deque<u8>, calls: &[(usize, u8, Result<(), Refusal>)]) {
    for (i, x, want) in calls {
        assert_eq!(rt; d.push_back(*i, *x), *want);
    }
}

/// Pops, each with the answer that is wanted.
fn pops(rt: &impl Abort, d: &mut Deque<u8>, answers: &[Option<(usize, u8)>]) {
    for want in answers {
        assert_eq!(rt; d.pop_front(), *want);
    }
}

#[test]
fn refusal_numbers(rt: HostRuntime) {
    assert_eq!(rt; Refusal::NotLinked.number(), 8);
    assert_eq!(rt; Refusal::NotFree.number(), 9);
}

#[test]
fn no_node_lent(rt: HostRuntime) {
    let mut nodes = [Node::new(0u8), Node::new(0), Node::new(0), Node::new(0)];
    let mut d = Deque::new(&mut nodes[0..0]);
    assert!(rt; d.nodes_lent() == 0);
    pushes(&rt, &mut d, &[(0, 1, Err(Refusal::NotFree))]);
    assert!(rt; d.unlink(0) == Err(Refusal::NotLinked));
    assert!(rt; d.peek_front() == None);
    pops(&rt, &mut d, &[None]);
    d.clear();
    assert!(rt; d.len() == 0);
}

#[test]
fn one_node(rt: HostRuntime) {
    let mut nodes = [Node::new(0u8), Node::new(0), Node::new(0), Node::new(0)];
    let mut d = Deque::new(&mut nodes[0..1]);
    assert!(rt; d.nodes_lent() == 1);
    pushes(
        &rt,
        &mut d,
        &[
            (0, 6, Ok(())),
            (0, 7, Err(Refusal::NotFree)),
            (1, 7, Err(Refusal::NotFree)),
        ],
    );
    assert!(rt; d.move_to_back(0) == Ok(()));
    assert!(rt; d.next(0) == Ok(None));
    assert!(rt; d.set(0, 8) == Ok(()));
    assert!(rt; d.get(0) == Ok(8));
    pops(&rt, &mut d, &[Some((0, 8))]);
    assert!(rt; d.get(0) == Err(Refusal::NotLinked));
    assert!(rt; d.len() == 0);
}

#[test]
fn all_linked(rt: HostRuntime) {
    let mut nodes = [Node::new(0u8), Node::new(0), Node::new(0), Node::new(0)];
    let mut d = Deque::new(&mut nodes[0..3]);
    assert!(rt; d.nodes_lent() == 3);
    pushes(
        &rt,
        &mut d,
        &[
            (1, 10, Ok(())),
            (2, 20, Ok(())),
            (0, 30, Ok(())),
            (3, 40, Err(Refusal::NotFree)),
        ],
    );
    assert!(rt; d.len() == 3);
    assert!(rt; d.next(1) == Ok(Some(2)));
    assert!(rt; d.move_to_back(2) == Ok(()));
    assert!(rt; d.move_to_back(2) == Ok(()));
    assert!(rt; d.next(2) == Ok(None));
    pops(
        &rt,
        &mut d,
        &[Some((1, 10)), Some((0, 30)), Some((2, 20)), None],
    );
}

#[test]
fn greatest_number(rt: HostRuntime) {
    let mut nodes = [Node::new(0u8), Node::new(0), Node::new(0), Node::new(0)];
    let mut d = Deque::new(&mut nodes[0..2]);
    assert!(rt; d.nodes_lent() == 2);
    pushes(
        &rt,
        &mut d,
        &[(1, 10, Ok(())), (FAR, 1, Err(Refusal::NotFree))],
    );
    assert!(rt; d.unlink(FAR) == Err(Refusal::NotLinked));
    assert!(rt; d.move_to_back(FAR) == Err(Refusal::NotLinked));
    assert!(rt; d.next(FAR) == Err(Refusal::NotLinked));
    assert!(rt; d.get(FAR) == Err(Refusal::NotLinked));
    assert!(rt; d.set(FAR, 1) == Err(Refusal::NotLinked));
    assert!(rt; !d.contains(FAR));
    assert!(rt; d.peek_front() == Some((1, 10)));
}

#[test]
fn refusals(rt: HostRuntime) {
    let mut nodes = [Node::new(0u8), Node::new(0), Node::new(0), Node::new(0)];
    let mut d = Deque::new(&mut nodes);
    assert!(rt; d.nodes_lent() == 4);
    assert!(rt; d.unlink(3) == Err(Refusal::NotLinked));
    pushes(
        &rt,
        &mut d,
        &[(2, 1, Ok(())), (2, 2, Err(Refusal::NotFree))],
    );
    assert!(rt; d.get(2) == Ok(1));
    assert!(rt; d.unlink(2) == Ok(()));
    assert!(rt; !d.contains(2));
    assert!(rt; d.unlink(2) == Err(Refusal::NotLinked));
    pushes(&rt, &mut d, &[(2, 3, Ok(()))]);
    d.clear();
    assert!(rt; !d.contains(2));
}

#[test]
fn first_in_first_out(rt: HostRuntime) {
    let mut nodes = [Node::new(0u8), Node::new(0), Node::new(0), Node::new(0)];
    let mut d = Deque::new(&mut nodes);
    assert!(rt; d.nodes_lent() == 4);
    pushes(&rt, &mut d, &[(2, 1, Ok(())), (0, 2, Ok(()))]);
    pops(&rt, &mut d, &[Some((2, 1))]);
    pushes(&rt, &mut d, &[(2, 3, Ok(())), (3, 4, Ok(()))]);
    pops(
        &rt,
        &mut d,
        &[Some((0, 2)), Some((2, 3)), Some((3, 4)), None],
    );
}

#[test]
fn lent_again(rt: HostRuntime) {
    let mut nodes = [Node::new(7u8), Node::new(8)];
    let mut d = Deque::new(&mut nodes);
    pushes(&rt, &mut d, &[(1, 9, Ok(()))]);
    let mut e = Deque::new(d.release());
    assert!(rt; !e.contains(1));
    pushes(&rt, &mut e, &[(1, 3, Ok(()))]);
}

#[test]
fn walked(rt: HostRuntime) {
    let mut nodes = [Node::new(0u8), Node::new(0), Node::new(0)];
    let mut d = Deque::new(&mut nodes);
    pushes(
        &rt,
        &mut d,
        &[(1, 10, Ok(())), (2, 20, Ok(())), (0, 30, Ok(()))],
    );
    assert!(rt; d.move_to_back(2) == Ok(()));
    for (item, want) in d.iter().zip([(1, 10), (0, 30), (2, 20)]) {
        assert_eq!(rt; item, want);
    }
    assert!(rt; d.iter().last() == Some((2, 20)));
    assert!(rt; d.iter().nth(3) == None);
}
