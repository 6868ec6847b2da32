//! Readings by serial: a serial is its own hash, and nothing is weighed.
ghost use Rattle.std.specs.Prelude.{false, nat_eq};
ghost use Rattle.std.proofs.Common.{rules};

use crate::EntryKind;

/// What was read of a serial: how often it went down, and the day of its webbing.
#[derive(Clone, Copy)]
pub struct Reading {
    pub descents: u32,
    pub day: u32,
}

/// The kind of readings by serial.
#[derive(Clone, Copy)]
pub struct Serials;

impl EntryKind for Serials {
    type Key = u64;

    type Value = Reading;

    const WEIGHED: bool = false;

    ghost WEIGHED = { false };

    ghost alike = { nat_eq };

    ghost hashed = { λ k. k };

    ghost weighs = { λ _ _. 1 };

    ghost refl = { Prim.search rules };

    ghost symm = { Prim.search rules };

    ghost trans = { Prim.search rules };

    ghost hashes = { Prim.search rules };

    ghost weights = { Prim.search rules };

    ghost light = { Prim.search rules };

    ghost bounded = { Prim.search rules };

    // No derive says it: see the trait.
    fn same(a: &u64, b: &u64) -> bool {
        *a == *b
    }

    fn hash(k: &u64) -> u64 {
        *k
    }

    fn weight(_k: &u64, _v: &Reading) -> u32 {
        1
    }
}
