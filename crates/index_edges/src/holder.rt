//! A holder of an index, whose count is that of its index by its type.
ghost use Rattle.std.specs.Prelude.{◌≡◌, ℕ, true, Some};
ghost use Rattle.index.specs.Lawful.{hit, Lawful};
ghost use Rattle.index.specs.Meaning.{entries, held_in};
ghost use Rattle.index_edges.specs.Counted.{Counted};

use index::Index;
use kinds::EntryKind;
use table::Content;

/// An index behind a reference, and how many entries it holds.
#[derive(Drop)]
pub struct Holder<'q, 'm, K: EntryKind> {
    pub(crate) index: &'q mut Index<'m, K>,
    pub(crate) count: usize,
    ghost counted: { Counted index.now count },
}

/// A holder of this index, as it stands.
pub fn hold<'q, 'm, K: EntryKind>(index: &'q mut Index<'m, K>) -> Holder<'q, 'm, K>
    ensures { result.index.now ≡ index.old }
{
    let n = index.held();
    Holder { index, count: n }
}

impl<'q, 'm, K: EntryKind> Holder<'q, 'm, K> {
    /// The cell that now has the key with this value; none where every cell is held by others.
    pub fn put(&mut self, key: K::Key, value: K::Value) -> Option<usize>
        ensures lawful { Lawful K.alike K.hashed K.weighs (entries self.old.index.now) → Lawful K.alike K.hashed K.weighs (entries self.new.index.now) }
        ensures there { (i : ℕ) → result ≡ Some i → hit K.alike (entries self.new.index.now i) key ≡ true }
    {
        let weight = K::weight(&key, &value);
        let content = Content {
            value,
            weight,
            touched: 0,
            written: 0,
        };
        let index: &mut Index<'m, K> = &mut *self.index;
        let cell = match index.find(&key) {
            Some(i) => {
                let _ = index.replace(i, content);
                Some(i)
            }
            None => index.take(key, content, 1),
        };
        let n = index.held();
        self.count = n;
        cell
    }

    /// How many entries the index holds.
    pub fn count(&self) -> usize
        ensures { result ≡ held_in self.now.index.now }
    {
        self.count
    }
}
