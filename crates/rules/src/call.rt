//! What a cache can be asked.

/// A call, with its arguments; an instant is in nanoseconds.
#[derive(Clone, Copy)]
pub enum Call<Key, Value> {
    /// Hand out the value of a key.
    Get(Key, u64),
    /// Say whether a key is held.
    Contains(Key, u64),
    /// Take a key's value in.
    Insert(Key, Value, u64),
    /// Strike a key.
    Invalidate(Key, u64),
    /// Sweep everything out.
    InvalidateAll,
}
