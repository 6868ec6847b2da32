//! A third kind: rooms by number, where the sixteen rooms of a hall are the same.
ghost use Rattle.std.specs.Prelude.{◌/◌, true, ◌==◌};
ghost use Rattle.kinds_edges.specs.Rooms.{size_weight};
ghost use Rattle.std.proofs.Common.{rules};

use kinds::EntryKind;

/// How large a room's booking is.
#[derive(Clone, Copy)]
pub enum Size {
    Small,
    Large,
}

/// The kind of bookings by room.
#[derive(Clone, Copy)]
pub struct Rooms;

impl EntryKind for Rooms {
    type Key = u32;

    type Value = Size;

    const WEIGHED: bool = true;

    ghost WEIGHED = { true };

    ghost alike = { λ k l. (k / 16 == l / 16) };

    ghost hashed = { λ k. k / 16 };

    ghost weighs = { λ _ v. size_weight v };

    ghost refl = { Prim.search rules };

    ghost symm = { Prim.search rules };

    ghost trans = { Prim.search rules };

    ghost hashes = { Prim.search rules };

    ghost weights = { Prim.search rules };

    ghost light = { Prim.search rules };

    ghost bounded = { Prim.search rules };

    // No derive says it: see the trait.
    fn same(a: &u32, b: &u32) -> bool {
        *a / 16 == *b / 16
    }

    fn hash(k: &u32) -> u64 {
        (*k / 16) as u64
    }

    fn weight(_k: &u32, v: &Size) -> u32 {
        match *v {
            Size::Small => 1,
            Size::Large => 4,
        }
    }
}
