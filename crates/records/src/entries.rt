//! An entry's own instants.
ghost use Rattle.std.specs.Prelude.{ℕ, Some};
ghost use Rattle.records.specs.Instants.{entry_touched_at, entry_written_at};
ghost use Rattle.std.proofs.Common.{rules};

use crate::access_time::AccessTime;
use table::Entry;

impl<Key: Copy, Value: Copy> AccessTime for Entry<Key, Value> {
    ghost touched = { λ e. Some e.touched };

    ghost written = { λ e. Some e.written };

    ghost touching = { λ e n. entry_touched_at n e };

    ghost writing = { λ e n. entry_written_at n e };

    ghost touches = { Prim.search rules };

    ghost touch = { Prim.search rules };

    ghost writes = { Prim.search rules };

    ghost write = { Prim.search rules };

    fn last_accessed(&self) -> Option<u64> {
        Some(self.touched)
    }

    fn set_last_accessed(&mut self, nanos: u64) {
        self.touched = nanos;
    }

    fn last_modified(&self) -> Option<u64> {
        Some(self.written)
    }

    fn set_last_modified(&mut self, nanos: u64) {
        self.written = nanos;
    }
}
