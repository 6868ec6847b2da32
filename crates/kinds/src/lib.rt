//! The entry kind: what a cache is to know of its keys and values, and the two kinds that the hub uses.
//!
//! A kind names a key and a value type, both copied, and says when two keys are the same, what hash a
//! key has, whether entries are weighed at all, and what key and value weigh.
//! It promises laws that generic code may cite: sameness is reflexive, symmetric and transitive, the
//! same keys have the same hash and with one value the same weight, a kind that isn't weighed gives 1,
//! and every weight is below 2^32. An impl that breaks one is refused by the check.
//! It leaves to the caller how hashes are spread over an index, and what a weight is measured against.
//! The idea of the proof: a word of eight bytes is worked on as a whole, and an operation on words that
//! carries nothing from byte to byte is the same operation on each byte, of which there are 256.
#![tactic(auto)]

ghost use Rattle.std.specs.Prelude.{◌≡◌, ℕ, ◌^◌, ◌<◌, Bool, true, false};

mod by_serial;
mod by_tag;
mod spelling;

pub use by_serial::{Reading, Serials};
pub use by_tag::{Log, Tags};
pub use spelling::{filled_bytes, folded_tag};

/// A kind of key and value, as the code above asks after it.
pub trait EntryKind {
    // What an entry is found by.
    type Key: Copy;

    // What an entry holds.
    type Value: Copy;

    /// Whether entries of this kind are weighed: a fixed yes or no.
    const WEIGHED: bool;

    // The same, for clauses.
    ghost WEIGHED: { Bool };

    // Whether two keys are the same.
    ghost alike: { Self.Key → Self.Key → Bool };

    // The hash of a key.
    ghost hashed: { Self.Key → ℕ };

    // The weight of a key with a value.
    ghost weighs: { Self.Key → Self.Value → ℕ };

    /// Whether two keys are the same.
    // No derive says it: the keys are plain numbers, and a kind may take two of them for one key.
    fn same(a: &Self::Key, b: &Self::Key) -> bool
        ensures { result ≡ alike a.now b.now };

    /// The hash of a key.
    fn hash(k: &Self::Key) -> u64
        ensures { result ≡ hashed k.now };

    /// The weight of a key with a value.
    fn weight(k: &Self::Key, v: &Self::Value) -> u32
        ensures { result ≡ weighs k.now v.now };

    // A key is the same as itself.
    ghost refl: { (k : Self.Key) → alike k k ≡ true };

    // Sameness goes both ways.
    ghost symm: { (k l : Self.Key) → alike k l ≡ true → alike l k ≡ true };

    // Sameness goes on from key to key.
    ghost trans: { (k l m : Self.Key) → alike k l ≡ true → alike l m ≡ true → alike k m ≡ true };

    // The same keys have the same hash.
    ghost hashes: { (k l : Self.Key) → alike k l ≡ true → hashed k ≡ hashed l };

    // The same keys with one value weigh the same.
    ghost weights: { (k l : Self.Key) (v : Self.Value) → alike k l ≡ true → weighs k v ≡ weighs l v };

    // Where entries aren't weighed, each counts as 1.
    ghost light: { (k : Self.Key) (v : Self.Value) → WEIGHED ≡ false → weighs k v ≡ 1 };

    // Every weight is a number of 32 bits, which sums of weights rest on.
    ghost bounded: { (k : Self.Key) (v : Self.Value) → weighs k v < 2 ^ 32 };
}
