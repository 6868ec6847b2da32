//! The writes that a call is made of: each says what memory it leaves.
// Cells and heads come as two slices, and a place below their length: one call says what both hold after it, and no
// type ties a number to a slice.
ghost use Rattle.std.specs.Prelude.{◌≡◌, ℕ, ◌<◌, length, slice_set, None};
ghost use Rattle.std.specs.List.{slice_get};
ghost use Rattle.links.specs.Links.{most, to_place};
ghost use Rattle.links.specs.Places.{pick};
ghost use Rattle.table.specs.Chain.{head_of};
ghost use Rattle.table.specs.Edits.{edited, edited_at, chain_to, filled, emptied, link_or};

use crate::cell::{Cell, Entry, cell_at};
use links::Link;

/// Leaves every chain of a head without a cell.
pub fn clear_heads(heads: &mut [Link])
    ensures { (b : ℕ) → head_of heads.new b ≡ None }
{
    heads.fill(Link::none());
}

/// Writes cell i whole.
pub(crate) fn put<Key: Copy, Value: Copy>(
    cells: &mut [Cell<Key, Value>],
    i: usize,
    cell: Cell<Key, Value>,
)
    requires { i < length cells.old }
    ensures { cells.new ≡ slice_set cells.old i cell }
{
    cells[i] = cell;
}

/// Cell i to the front of chain b, with this entry.
pub(crate) fn join<Key: Copy, Value: Copy>(
    cells: &mut [Cell<Key, Value>],
    heads: &mut [Link],
    i: usize,
    b: usize,
    entry: Entry<Key, Value>,
)
    requires here { i < length cells.old }
    requires small { i < most }
    requires chain { b < length heads.old }
    ensures cells { cells.new ≡ slice_set cells.old i (filled entry (link_or (slice_get heads.old b))) }
    ensures heads { heads.new ≡ slice_set heads.old b (to_place i) }
{
    let chain = heads[b];
    cells[i] = Cell {
        entry,
        held: true,
        chain,
    };
    heads[b] = Link::to(i);
}

/// The link of cell i goes where `to` goes.
fn link<Key: Copy, Value: Copy>(cells: &mut [Cell<Key, Value>], i: usize, to: Link)
    ensures { cells.new ≡ edited (chain_to to) cells.old i }
{
    if let Some(c) = cell_at(cells, i) {
        put(cells, i, Cell { chain: to, ..c });
    }
}

/// Cell i, which is c, out of chain b, where p stands before it, and to the front of the free cells, which start
/// at `free`.
pub(crate) fn part<Key: Copy, Value: Copy>(
    cells: &mut [Cell<Key, Value>],
    heads: &mut [Link],
    i: usize,
    c: Cell<Key, Value>,
    p: Option<usize>,
    b: usize,
    free: Link,
)
    requires here { i < length cells.old }
    requires chain { b < length heads.old }
    ensures cells { cells.new ≡ slice_set (edited_at (chain_to c.chain) cells.old p) i (emptied c.entry free) }
    ensures heads { heads.new ≡ pick p (slice_set heads.old b c.chain) heads.old }
{
    match p {
        None => heads[b] = c.chain,
        Some(q) => link(cells, q, c.chain),
    }
    cells[i] = Cell {
        held: false,
        chain: free,
        ..c
    };
}
