//! The record of the write order.
ghost use Rattle.std.specs.Prelude.{◌≡◌, ℕ, Some, None};
ghost use Rattle.records.specs.Instants.{written_at};
ghost use Rattle.std.proofs.Common.{rules};

use crate::access_time::AccessTime;

/// An entry in write order: its cell, and when it was written.
#[derive(Clone, Copy)]
pub struct Write {
    pub cell: usize,
    pub written: u64,
}

impl AccessTime for Write {
    ghost touched = { λ r. None };

    ghost written = { λ r. Some r.written };

    ghost touching = { λ r n. r };

    ghost writing = { λ r n. written_at n r };

    ghost touches = { Prim.search rules };

    ghost touch = { Prim.search rules };

    ghost writes = { Prim.search rules };

    ghost write = { Prim.search rules };

    fn last_accessed(&self) -> Option<u64> {
        None
    }

    fn set_last_accessed(&mut self, _nanos: u64) {}

    fn last_modified(&self) -> Option<u64> {
        Some(self.written)
    }

    fn set_last_modified(&mut self, nanos: u64) {
        self.written = nanos;
    }
}
