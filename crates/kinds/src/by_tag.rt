//! Logs by tag: capitals and small letters make one tag, and a log weighs its length and its tag's.
ghost use Rattle.std.specs.Prelude.{ℕ, ◌+◌, ◌-◌, ◌^◌, min, true};
ghost use Rattle.kinds.specs.Tags.{folded_tag, same_tag};
ghost use Rattle.kinds.specs.Weights.{tag_weight};
ghost use Rattle.std.proofs.Common.{ap, rules};
ghost use Rattle.kinds.specs.Folding.{same_filled};

use crate::EntryKind;
use crate::spelling::{filled_bytes, folded_tag};

/// A log: how long it is, and where it lies.
#[derive(Clone, Copy)]
pub struct Log {
    pub length: u32,
    pub place: u32,
}

/// The kind of logs by tag.
#[derive(Clone, Copy)]
pub struct Tags;

impl EntryKind for Tags {
    type Key = u64;

    type Value = Log;

    const WEIGHED: bool = true;

    ghost WEIGHED = { true };

    ghost alike = { same_tag };

    ghost hashed = { folded_tag };

    ghost weighs = { λ k v. tag_weight k v.length };

    ghost refl = { Prim.search rules };

    ghost symm = { Prim.search rules };

    ghost trans = { Prim.search rules };

    ghost hashes = { Prim.search rules };

    ghost weights = { λ k l v e. ap (λ (n : ℕ). min (v.length + n) (2 ^ 32 - 1)) (same_filled k l e) };

    ghost light = { Prim.search rules };

    ghost bounded = { Prim.search rules };

    // No derive says it: see the trait.
    fn same(a: &u64, b: &u64) -> bool {
        folded_tag(*a) == folded_tag(*b)
    }

    fn hash(k: &u64) -> u64 {
        folded_tag(*k)
    }

    fn weight(k: &u64, v: &Log) -> u32 {
        v.length.saturating_add(filled_bytes(*k))
    }
}
