//! The index at its edges.
use crate::holder::hold;
use index::Index;
use kinds::{Log, Reading, Serials, Tags};
use links::Link;
use std::process::Abort;
use table::{Cell, Content, Entry, Table};

/// A cell as memory may be found: its mark says that it is held.
fn found() -> Cell<u64, Reading> {
    Cell {
        entry: Entry {
            key: 4,
            value: reading(1),
            weight: 3,
            hash: 4,
            touched: 7,
            written: 6,
            ticket: 5,
        },
        held: true,
        chain: Link::none(),
    }
}

/// A reading of a serial.
fn reading(descents: u32) -> Reading {
    Reading { descents, day: 2 }
}

/// This value with this weight, at the first instant.
fn content<Value>(value: Value, weight: u32) -> Content<Value> {
    Content {
        value,
        weight,
        touched: 0,
        written: 0,
    }
}

/// Taking a cell for this key answers this cell.
fn takes(rt: &impl Abort, x: &mut Index<'_, Serials>, key: u64, cell: Option<usize>) {
    assert_eq!(rt; x.take(key, content(reading(1), 1), key), cell);
}

/// Giving this cell up finds it held, or not.
fn gives_up(rt: &impl Abort, x: &mut Index<'_, Serials>, cell: usize, held: bool) {
    assert_eq!(rt; x.give_up(cell).is_some(), held);
}

/// Asking for this key answers this cell.
fn finds(rt: &impl Abort, x: &Index<'_, Serials>, key: u64, cell: Option<usize>) {
    assert_eq!(rt; x.find(&key), cell);
}

/// As many are held.
fn holds(rt: &impl Abort, x: &Index<'_, Serials>, count: usize) {
    assert_eq!(rt; x.held(), count);
}

#[test]
fn one_head_has_every_cell(rt: HostRuntime) {
    let mut cells = [found(), found(), found(), found()];
    let mut heads = [Link::none()];
    let mut x = Index::<Serials>::new(&mut cells, &mut heads);
    finds(&rt, &x, 4, None);
    takes(&rt, &mut x, 4, Some(0));
    takes(&rt, &mut x, 6, Some(1));
    takes(&rt, &mut x, 8, Some(2));
    takes(&rt, &mut x, 5, Some(3));
    takes(&rt, &mut x, 7, None);
    gives_up(&rt, &mut x, 1, true);
    gives_up(&rt, &mut x, 1, false);
    finds(&rt, &x, 6, None);
    finds(&rt, &x, 4, Some(0));
    gives_up(&rt, &mut x, 3, true);
    gives_up(&rt, &mut x, 0, true);
    finds(&rt, &x, 8, Some(2));
    holds(&rt, &x, 1);
}

#[test]
fn all_are_given_up_and_taken_again(rt: HostRuntime) {
    let mut cells = [found(), found(), found()];
    let mut heads = [Link::none(), Link::none()];
    let mut x = Index::<Serials>::new(&mut cells, &mut heads);
    takes(&rt, &mut x, 1, Some(0));
    takes(&rt, &mut x, 2, Some(1));
    takes(&rt, &mut x, 3, Some(2));
    gives_up(&rt, &mut x, 0, true);
    gives_up(&rt, &mut x, 2, true);
    gives_up(&rt, &mut x, 1, true);
    holds(&rt, &x, 0);
    takes(&rt, &mut x, 4, Some(1));
    takes(&rt, &mut x, 5, Some(2));
    takes(&rt, &mut x, 6, Some(0));
    takes(&rt, &mut x, 7, None);
    finds(&rt, &x, 1, None);
    finds(&rt, &x, 6, Some(0));
}

#[test]
fn three_heads(rt: HostRuntime) {
    let mut cells = [found(), found(), found(), found()];
    let mut heads = [Link::none(), Link::none(), Link::none()];
    let mut x = Index::<Serials>::new(&mut cells, &mut heads);
    takes(&rt, &mut x, 2, Some(0));
    takes(&rt, &mut x, 3, Some(1));
    takes(&rt, &mut x, 5, Some(2));
    takes(&rt, &mut x, 8, Some(3));
    finds(&rt, &x, 5, Some(2));
    gives_up(&rt, &mut x, 2, true);
    finds(&rt, &x, 2, Some(0));
    finds(&rt, &x, 8, Some(3));
    finds(&rt, &x, 3, Some(1));
}

#[test]
fn no_cell(rt: HostRuntime) {
    let mut heads = [Link::none(), Link::none()];
    let mut x = Index::<Serials>::new(&mut [], &mut heads);
    takes(&rt, &mut x, 1, None);
    finds(&rt, &x, 1, None);
    gives_up(&rt, &mut x, 0, false);
}

#[test]
fn no_head(rt: HostRuntime) {
    let mut cells = [found(), found()];
    let mut x = Index::<Serials>::new(&mut cells, &mut []);
    takes(&rt, &mut x, 4, None);
    finds(&rt, &x, 4, None);
    holds(&rt, &x, 0);
}

#[test]
fn a_cleared_index_holds_nothing(rt: HostRuntime) {
    let mut cells = [found(), found()];
    let mut heads = [Link::none()];
    let mut x = Index::<Serials>::new(&mut cells, &mut heads);
    takes(&rt, &mut x, 1, Some(0));
    takes(&rt, &mut x, 2, Some(1));
    x.clear();
    finds(&rt, &x, 2, None);
    takes(&rt, &mut x, 2, Some(0));
}

#[test]
fn one_key_has_two_spellings(rt: HostRuntime) {
    let log = Log {
        length: 9,
        place: 0,
    };
    let blank = Cell {
        entry: Entry {
            key: 0,
            value: log,
            weight: 0,
            hash: 0,
            touched: 0,
            written: 0,
            ticket: 0,
        },
        held: false,
        chain: Link::none(),
    };
    let mut cells = [blank, blank];
    let mut heads = [Link::none(), Link::none()];
    let mut x = Index::<Tags>::new(&mut cells, &mut heads);
    assert_eq!(rt; x.take(0x4162, content(log, 11), 1), Some(0));
    assert_eq!(rt; x.find(&0x6142), Some(0));
    assert_eq!(rt; x.find(&0x6163), None);
}

#[test]
fn a_holder_holds_no_key_twice(rt: HostRuntime) {
    let mut cells = [found(), found()];
    let mut heads = [Link::none(), Link::none()];
    let mut x = Index::<Serials>::new(&mut cells, &mut heads);
    let mut h = hold::<Serials>(&mut x);
    assert_eq!(rt; h.put(5, reading(1)), Some(0));
    assert_eq!(rt; h.put(5, reading(2)), Some(0));
    assert_eq!(rt; h.count(), 1);
}

/// A cell as memory may be found, with a link to this cell.
fn found_before(cell: usize) -> Cell<u64, Reading> {
    Cell {
        chain: Link::to(cell),
        ..found()
    }
}

#[test]
fn a_table_of_any_memory_is_safe(rt: HostRuntime) {
    let mut cells = [found_before(1), found_before(1)];
    let mut heads = [Link::to(0)];
    let mut t = Table {
        cells: &mut cells,
        heads: &mut heads,
        used: 9,
        free: Link::to(7),
        held: 5,
    };
    assert!(rt; t.capacity() == 2 && t.first(4) == Some(0) && t.cell(2).is_none());
    assert!(rt; t.take(found().entry).is_none());
    assert!(rt; t.get(1).is_some() && t.get(2).is_none());
    assert!(rt; t.give_up(0).is_some() && t.held == 4);
    assert!(rt; t.replace(1, content(reading(3), 2)).is_some());
    assert!(rt; t.chain(4).last() == Some(1));
    t.held = 0;
    assert!(rt; t.give_up(1).is_some() && t.held == 0);
    t.clear();
    assert!(rt; t.get(0).is_none() && t.take(found().entry) == Some(0));
}
