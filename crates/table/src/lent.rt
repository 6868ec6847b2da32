//! The lent cells and heads, and how they are read.
ghost use Rattle.std.specs.Prelude.{◌≡◌, ◌%◌, ◌<◌};

use crate::cell::{Cell, cell_at};
use crate::walk::Walk;
use links::Link;

// Cells by their numbers in lent slices, since no part allocates.

/// Cells in chains. Chain b starts at head b; the free cells that were used before are in a chain that starts at
/// `free`; cells from `used` on were never used. `held` counts the cells that are held. No literal owes that: any
/// memory with any numbers is a table, and every call is safe on it.
#[derive(Drop)]
pub struct Table<'m, Key, Value> {
    pub cells: &'m mut [Cell<Key, Value>],
    pub heads: &'m mut [Link],
    pub used: usize,
    pub free: Link,
    pub held: usize,
}

/// The remainder of a by n, as a mask where n is a power of two.
fn remainder(a: usize, n: usize) -> usize
    requires { 0 < n }
    ensures { result ≡ a % n }
{
    let mask = n - 1;
    if n & mask == 0 { a & mask } else { a % n }
}

impl<Key: Copy, Value: Copy> Table<'_, Key, Value> {
    ghost use Rattle.std.specs.Prelude.{◌≡◌, ◌%◌, ◌<◌, length};
    ghost use Rattle.std.specs.List.{slice_get};
    ghost use Rattle.table.specs.Chain.{capacity, first_of};
    ghost use Rattle.table.specs.Meaning.{state, chain_from, to_come};

    /// How many cells can be held: those lent, at most `Link::MOST`, and none without a head.
    pub fn capacity(&self) -> usize
        ensures { result ≡ capacity (state self.now) }
    {
        if self.heads.is_empty() {
            0
        } else {
            self.cells.len().min(Link::MOST)
        }
    }

    /// The cell at place i, if one is lent there.
    pub fn cell(&self, i: usize) -> Option<Cell<Key, Value>>
        ensures { result ≡ slice_get (state self.now).cs i }
    {
        cell_at(self.cells, i)
    }

    /// The number of the chain of a hash.
    pub(crate) fn bucket(&self, hash: u64) -> usize
        requires { 0 < length (state self.now).hs }
        ensures { result ≡ hash % length (state self.now).hs }
    {
        remainder(hash as usize, self.heads.len())
    }

    /// The first cell of the chain of a hash.
    pub fn first(&self, hash: u64) -> Option<usize>
        ensures { result ≡ first_of (state self.now) hash }
    {
        if self.heads.is_empty() {
            return None;
        }
        let b = self.bucket(hash);
        self.heads[b].target()
    }

    /// The cells of the chain of a hash, from the first on.
    pub fn chain(&self, hash: u64) -> Walk<'_, Key, Value>
        ensures { to_come result ≡ chain_from (state self.now) hash }
    {
        Walk::new(self.cells, self.first(hash))
    }
}
