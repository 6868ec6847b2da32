//! The walk along one chain.
ghost use Rattle.std.specs.Prelude.{◌≡◌, length};
ghost use Rattle.std.specs.Iterator.{YieldsFirst, item_count};
ghost use Rattle.table.specs.Chain.{link_of, walk};

use crate::cell::{Cell, cell_at};

/// Where the link of cell i leads; nowhere past the last cell.
fn link_at<Key: Copy, Value: Copy>(cells: &[Cell<Key, Value>], i: usize) -> Option<usize>
    ensures { result ≡ link_of cells.now i }
{
    cell_at(cells, i)?.chain.target()
}

/// The cells of a chain, by their places, from one cell on.
#[derive(Drop)]
pub struct Walk<'a, Key, Value> {
    cells: &'a [Cell<Key, Value>],
    here: Option<usize>,
    left: usize,
}

impl<'a, Key: Copy, Value: Copy> Walk<'a, Key, Value> {
    /// The walk from the cell that `here` names.
    pub(crate) fn new(cells: &'a [Cell<Key, Value>], here: Option<usize>) -> Walk<'a, Key, Value>
        ensures { walk (link_of result.cells.now) result.left result.here ≡ walk (link_of cells.now) (length cells.now) here }
    {
        Walk {
            cells,
            here,
            left: cells.len(),
        }
    }
}

impl<Key: Copy, Value: Copy> Iterator for Walk<'_, Key, Value> {
    type Item = usize;

    ghost next_gives = { YieldsFirst (λ w. walk (link_of w.cells.now) w.left w.here) };

    ghost remaining = { item_count (λ w. walk (link_of w.cells.now) w.left w.here) };

    /// The next cell; none past the last, and none once as many came as are lent.
    fn next(&mut self) -> Option<usize> {
        let i = self.here?;
        self.left = self.left.checked_sub(1)?;
        self.here = link_at(self.cells, i);
        Some(i)
    }
}
