//! The calls: each is safe on any memory, and does what its record says where the memory is `Sound`.
ghost use Rattle.std.specs.Prelude.{◌≡◌, length, None, MatchOption, not, ◌==◌};
ghost use Rattle.std.specs.List.{last_or, take_while};
ghost use Rattle.table.specs.Chain.{entry_at, Sound};
ghost use Rattle.table.specs.Calls.{Marked, vacancy_in, Took, Parted, Renewed, Emptied};
ghost use Rattle.table.specs.Meaning.{state, chain_from};

use crate::cell::{Cell, Content, Entry};
use crate::lent::Table;
use crate::vacancy::Vacancy;
use crate::writes::{clear_heads, join, part, put};
use links::Link;

impl<'m, Key: Copy, Value: Copy> Table<'m, Key, Value> {
    /// A table that holds nothing. It empties the heads, and leaves the cells as they are lent.
    pub fn new(cells: &'m mut [Cell<Key, Value>], heads: &'m mut [Link]) -> Table<'m, Key, Value>
        ensures { Emptied cells.old (length heads.old) (state result) }
    {
        clear_heads(heads);
        Table {
            cells,
            heads,
            free: Link::none(),
            used: 0,
            held: 0,
        }
    }

    /// Cell i, if it is held.
    fn held_cell(&self, i: usize) -> Option<Cell<Key, Value>>
        ensures { MatchOption result (Sound (state self.now) → entry_at (state self.now) i ≡ None) (Marked (state self.now) i) }
    {
        if i >= self.used || i >= self.capacity() {
            return None;
        }
        let c = self.cell(i)?;
        c.held.then_some(c)
    }

    /// The cell to take next: the one given up last, or else the first never used.
    fn vacancy(&self) -> Option<Vacancy>
        ensures { result ≡ vacancy_in (state self.now) }
    {
        match self.free.target() {
            Some(place) => {
                if place >= self.capacity() {
                    return None;
                }
                let c = self.cell(place)?;
                Some(Vacancy {
                    place,
                    used: self.used,
                    rest: c.chain,
                })
            }
            None if self.used < self.capacity() => Some(Vacancy {
                place: self.used,
                used: self.used + 1,
                rest: self.free,
            }),
            None => None,
        }
    }

    /// Takes a free cell for this entry; none where every cell is held.
    pub fn take(&mut self, entry: Entry<Key, Value>) -> Option<usize>
        ensures { Sound (state self.old) → Took (state self.old) (state self.new) entry result }
    {
        if self.held >= self.capacity() {
            return None;
        }
        let v = self.vacancy()?;
        let b = self.bucket(entry.hash);
        join(self.cells, self.heads, v.place, b, entry);
        self.used = v.used;
        self.free = v.rest;
        self.held += 1;
        Some(v.place)
    }

    /// What stands before cell i in the chain of a hash.
    fn before(&self, hash: u64, i: usize) -> Option<usize>
        ensures { result ≡ last_or None (take_while (λ j. not (j == i)) (chain_from (state self.now) hash)) }
    {
        self.chain(hash).take_while(|j| *j != i).last()
    }

    /// Gives cell i up: the entry that it held, if it was held.
    pub fn give_up(&mut self, i: usize) -> Option<Entry<Key, Value>>
        ensures { Sound (state self.old) → Parted (state self.old) (state self.new) i result }
    {
        let c = self.held_cell(i)?;
        let b = self.bucket(c.entry.hash);
        let p = self.before(c.entry.hash, i);
        let free = self.free;
        part(self.cells, self.heads, i, c, p, b, free);
        self.free = Link::to(i);
        self.held = self.held.saturating_sub(1);
        Some(c.entry)
    }

    /// Another content for the entry of cell i: the entry as it was, if the cell is held.
    pub fn replace(&mut self, i: usize, content: Content<Value>) -> Option<Entry<Key, Value>>
        ensures { Sound (state self.old) → Renewed (state self.old) (state self.new) i content result }
    {
        let c = self.held_cell(i)?;
        let entry = c.entry.renewed(content);
        put(self.cells, i, Cell { entry, ..c });
        Some(c.entry)
    }

    /// The entry of cell i, if it is held.
    pub fn get(&self, i: usize) -> Option<Entry<Key, Value>>
        ensures { Sound (state self.now) → result ≡ entry_at (state self.now) i }
    {
        Some(self.held_cell(i)?.entry)
    }

    /// Gives every cell up.
    pub fn clear(&mut self)
        ensures { Emptied (state self.old).cs (length (state self.old).hs) (state self.new) }
    {
        clear_heads(self.heads);
        self.free = Link::none();
        self.used = 0;
        self.held = 0;
    }
}
