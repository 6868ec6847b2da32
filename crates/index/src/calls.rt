//! The calls.
// `Lawful` stays a premise: no call asks (no `requires`), so a caller may give an unlawful weight.
// Six calls pass on to `Table`, which knows no kind of key: so no proof of a write sees a trait.
// `held` and `capacity` are said of the index before and after, so no type can carry them.
ghost use Rattle.std.specs.Prelude.{◌≡◌, ℕ, ◌+◌, ◌<◌, true, length, is_some, if◌then◌else◌, Some, None, nat_eq, nat_lt};
ghost use Rattle.links.specs.Places.{is, pick};
ghost use Rattle.table.specs.Chain.{capacity_of, key_of};
ghost use Rattle.table.specs.Calls.{anew_in};
ghost use Rattle.table.specs.Meaning.{state};
ghost use Rattle.index.specs.Lawful.{hit, Finds, Lawful};
ghost use Rattle.index.specs.Meaning.{entries, capacity_in, memory, held_in, made};

use crate::kept::Index;
use kinds::EntryKind;
use links::Link;
use table::{Cell, Content, Entry, Table};

#[tactic(auto, unfolding(crate::specs::Meaning::entries, crate::specs::Meaning::capacity_in, crate::specs::Meaning::held_in))]
impl<'m, K: EntryKind> Index<'m, K> {
    /// An index that holds nothing. It empties the heads, and leaves the cells as they are lent.
    pub fn new(cells: &'m mut [Cell<K::Key, K::Value>], heads: &'m mut [Link]) -> Index<'m, K>
        ensures holds { (j : ℕ) → entries result j ≡ None }
        ensures held { held_in result ≡ 0 }
        ensures lawful { Lawful K.alike K.hashed K.weighs (entries result) }
        ensures untouched { memory result ≡ cells.old }
        ensures capacity { capacity_in result ≡ capacity_of (length cells.old) (length heads.old) }
    {
        let table = Table::new(cells, heads);
        Index { table }
    }

    /// Whether the key of cell i, held or not, is the same as this one.
    fn is_key_of(&self, i: usize, key: &K::Key) -> bool
        ensures { result ≡ key_of K.alike (state self.now.table).cs key.now i }
    {
        let cell = self.table.cell(i);
        cell.is_some_and(|c| K::same(&c.entry.key, key))
    }

    /// The cell that holds the key.
    pub fn find(&self, key: &K::Key) -> Option<usize>
        ensures held { (i : ℕ) → result ≡ Some i → hit K.alike (entries self.now i) key.now ≡ true }
        ensures found { Lawful K.alike K.hashed K.weighs (entries self.now) → Finds K.alike (entries self.now) key.now result }
    {
        let mut chain = self.table.chain(K::hash(key));
        chain.find(|i| self.is_key_of(*i, key))
    }

    /// A free cell for a new entry; none where every cell is held.
    pub fn take(&mut self, key: K::Key, content: Content<K::Value>, ticket: u64) -> Option<usize>
        ensures answer { is_some result ≡ nat_lt (held_in self.old) (capacity_in self.old) }
        ensures holds { (j : ℕ) → entries self.new j ≡ (if is result j then Some (made K.hashed key content ticket) else entries self.old j) }
        ensures fresh { (i : ℕ) → result ≡ Some i → entries self.old i ≡ None }
        ensures within { (i : ℕ) → result ≡ Some i → i < capacity_in self.old }
        ensures held { held_in self.new ≡ held_in self.old + pick result 0 1 }
        ensures capacity { capacity_in self.new ≡ capacity_in self.old }
        ensures lawful { Lawful K.alike K.hashed K.weighs (entries self.old) → Finds K.alike (entries self.old) key None → content.weight ≡ K.weighs key content.value → Lawful K.alike K.hashed K.weighs (entries self.new) }
    {
        let hash = K::hash(&key);
        self.table.take(Entry {
            key,
            value: content.value,
            weight: content.weight,
            hash,
            touched: content.touched,
            written: content.written,
            ticket,
        })
    }

    /// Gives cell i up: the entry that it held, if it was held.
    pub fn give_up(&mut self, i: usize) -> Option<Entry<K::Key, K::Value>>
        ensures answer { result ≡ entries self.old i }
        ensures holds { (j : ℕ) → entries self.new j ≡ (if nat_eq j i then None else entries self.old j) }
        ensures held { held_in self.new + (if is_some result then 1 else 0) ≡ held_in self.old }
        ensures capacity { capacity_in self.new ≡ capacity_in self.old }
        ensures lawful { Lawful K.alike K.hashed K.weighs (entries self.old) → Lawful K.alike K.hashed K.weighs (entries self.new) }
    {
        self.table.give_up(i)
    }

    /// Another content for the entry of cell i: the entry as it was, if the cell is held. The entry stays
    /// lawful if the weight is that of the value with any key that is the same as the entry's.
    pub fn replace(
        &mut self,
        i: usize,
        content: Content<K::Value>,
    ) -> Option<Entry<K::Key, K::Value>>
        ensures answer { result ≡ entries self.old i }
        ensures holds { (j : ℕ) → entries self.new j ≡ (if nat_eq j i then anew_in content (entries self.old j) else entries self.old j) }
        ensures held { held_in self.new ≡ held_in self.old }
        ensures capacity { capacity_in self.new ≡ capacity_in self.old }
        ensures lawful { (k : _) → hit K.alike (entries self.old i) k ≡ true → content.weight ≡ K.weighs k content.value → Lawful K.alike K.hashed K.weighs (entries self.old) → Lawful K.alike K.hashed K.weighs (entries self.new) }
    {
        self.table.replace(i, content)
    }

    /// The entry of cell i, if it is held.
    pub fn get(&self, i: usize) -> Option<Entry<K::Key, K::Value>>
        ensures { result ≡ entries self.now i }
    {
        self.table.get(i)
    }

    /// How many cells are held.
    pub fn held(&self) -> usize
        ensures { result ≡ held_in self.now }
    {
        self.table.held
    }

    /// How many cells can be held: those lent, at most 2^32 - 1, and none without a head.
    pub fn capacity(&self) -> usize
        ensures { result ≡ capacity_in self.now }
    {
        self.table.capacity()
    }

    /// Gives every cell up.
    pub fn clear(&mut self)
        ensures holds { (j : ℕ) → entries self.new j ≡ None }
        ensures held { held_in self.new ≡ 0 }
        ensures capacity { capacity_in self.new ≡ capacity_in self.old }
        ensures lawful { Lawful K.alike K.hashed K.weighs (entries self.new) }
    {
        self.table.clear();
    }
}
