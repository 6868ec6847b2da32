//! The record of the touch order.
ghost use Rattle.std.specs.Prelude.{◌≡◌, ℕ, Some, None};
ghost use Rattle.records.specs.Instants.{touched_at};
ghost use Rattle.std.proofs.Common.{rules};

use crate::access_time::AccessTime;

/// An entry in touch order: its cell, its hash, and when it was touched.
#[derive(Clone, Copy)]
pub struct Touch {
    pub cell: usize,
    pub hash: u64,
    pub touched: u64,
}

impl AccessTime for Touch {
    ghost touched = { λ r. Some r.touched };

    ghost written = { λ r. None };

    ghost touching = { λ r n. touched_at n r };

    ghost writing = { λ r n. r };

    ghost touches = { Prim.search rules };

    ghost touch = { Prim.search rules };

    ghost writes = { Prim.search rules };

    ghost write = { Prim.search rules };

    fn last_accessed(&self) -> Option<u64> {
        Some(self.touched)
    }

    fn set_last_accessed(&mut self, nanos: u64) {
        self.touched = nanos;
    }

    fn last_modified(&self) -> Option<u64> {
        None
    }

    fn set_last_modified(&mut self, _nanos: u64) {}
}
