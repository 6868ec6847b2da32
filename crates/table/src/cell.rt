//! One place of the lent memory, and what is put there.
ghost use Rattle.std.specs.Prelude.{◌≡◌};
ghost use Rattle.std.specs.List.{slice_get};
ghost use Rattle.table.specs.Edits.{anew};

use links::Link;

/// What a key is given: a value, its weight, and the instants at which it was last touched and written.
#[derive(Clone, Copy)]
pub struct Content<Value> {
    pub value: Value,
    pub weight: u32,
    pub touched: u64,
    pub written: u64,
}

/// What a held cell has: its meaning, whatever the layout.
// The parts of a content stand flat in it: records and definitions above read an entry's weight and instants by name.
#[derive(Clone, Copy)]
pub struct Entry<Key, Value> {
    pub key: Key,
    pub value: Value,
    pub weight: u32,
    pub hash: u64,
    pub touched: u64,
    pub written: u64,
    pub ticket: u64,
}

// The mark stays beside the entry: an `Option` of the entry takes 72 bytes of lent memory for a serial, this 64.
/// A lent cell: an entry, the mark that it is held, and the link to the next cell of its chain.
#[derive(Clone, Copy)]
pub struct Cell<Key, Value> {
    pub entry: Entry<Key, Value>,
    pub held: bool,
    pub chain: Link,
}

impl<Key: Copy, Value: Copy> Entry<Key, Value> {
    /// The same entry with another content: its key, hash and ticket stay.
    pub(crate) fn renewed(self, content: Content<Value>) -> Entry<Key, Value>
        ensures { result ≡ anew content self }
    {
        Entry {
            value: content.value,
            weight: content.weight,
            touched: content.touched,
            written: content.written,
            ..self
        }
    }
}

/// The cell at place i, if one is lent there.
pub(crate) fn cell_at<Key: Copy, Value: Copy>(
    cells: &[Cell<Key, Value>],
    i: usize,
) -> Option<Cell<Key, Value>>
    ensures { result ≡ slice_get cells.now i }
{
    cells.get(i).copied()
}
