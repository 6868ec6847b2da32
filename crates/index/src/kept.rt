//! The index, with what holds of each.
ghost use Rattle.table.specs.Meaning.{Kept, state};
ghost use Rattle.index.specs.Layout.{Layout};

use kinds::EntryKind;
use table::Table;

/// A map from lent cells to entries. Its memory is sound, by its type, and so lies as the layout says.
#[derive(Drop)]
pub struct Index<'m, K: EntryKind> {
    pub(crate) table: Table<'m, K::Key, K::Value>,
    ghost sound: { Kept table },
    pub ghost laid: { ∥ Layout (state table) ∥₁ },
}
