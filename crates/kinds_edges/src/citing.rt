//! Generic code that uses the laws of a kind, one law to a function.
ghost use Rattle.std.specs.Prelude.{◌≡◌, ◌+◌, ◌^◌, ◌<◌, true, ◌&&◌};
ghost use Rattle.kinds_edges.specs.When.{when};

use kinds::EntryKind;

/// A key is found where it lies: by `refl`.
pub fn finds_itself<K: EntryKind>(k: &K::Key) -> bool
    ensures { result ≡ true }
{
    K::same(k, k)
}

/// It doesn't matter which of two keys is asked about the other: by `symm`.
pub fn same_either_way<K: EntryKind>(k: &K::Key, l: &K::Key) -> bool
    ensures { result ≡ K.alike l.now k.now }
{
    K::same(k, l)
}

/// Two keys that are both the same as a third are the same: by `trans`.
pub fn same_through<K: EntryKind>(a: &K::Key, third: &K::Key, b: &K::Key) -> bool
    ensures answer { result ≡ (K.alike a.now third.now && K.alike third.now b.now) }
    ensures so { result ≡ true → K.alike a.now b.now ≡ true }
{
    K::same(a, third) && K::same(third, b)
}

/// The hash of a key, worked out from one that is the same: by `hashes`.
pub fn hash_of_other<K: EntryKind>(known: &K::Key, asked: &K::Key) -> Option<u64>
    ensures { result ≡ when (K.alike known.now asked.now) (K.hashed asked.now) }
{
    K::same(known, asked).then(|| K::hash(known))
}

/// The weight of a key with a value, worked out from a key that is the same: by `weights`.
pub fn weight_of_other<K: EntryKind>(known: &K::Key, asked: &K::Key, v: &K::Value) -> Option<u32>
    ensures { result ≡ when (K.alike known.now asked.now) (K.weighs asked.now v.now) }
{
    K::same(known, asked).then(|| K::weight(known, v))
}

/// An entry is weighed, or counts as 1: by `light`.
pub fn counts_as_one<K: EntryKind>(k: &K::Key, v: &K::Value) -> bool
    ensures { result ≡ true }
{
    K::WEIGHED || K::weight(k, v) == 1
}

/// Two weights add up within 33 bits: by `bounded`.
pub fn adds_up<K: EntryKind>(k: &K::Key, v: &K::Value, l: &K::Key, w: &K::Value) -> u64
    ensures sum { result ≡ K.weighs k.now v.now + K.weighs l.now w.now }
    ensures fits { K.weighs k.now v.now + K.weighs l.now w.now < 2 ^ 33 }
{
    K::weight(k, v) as u64 + K::weight(l, w) as u64
}

/// The hash of a key, worked out from one that is the same as a third: by `trans`, `symm` and `hashes`.
pub fn hash_past_third<K: EntryKind>(a: &K::Key, third: &K::Key, b: &K::Key) -> Option<u64>
    ensures { result ≡ when (K.alike a.now third.now && K.alike b.now third.now) (K.hashed b.now) }
{
    (K::same(a, third) && K::same(b, third)).then(|| K::hash(a))
}
