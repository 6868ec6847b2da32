//! What the maker of a cache chooses.

/// Each choice can be left open. The capacity is the greatest weight to be recorded, life and idle
/// time are in nanoseconds.
#[derive(Clone, Copy)]
pub struct Choices {
    pub capacity: Option<u64>,
    pub life: Option<u64>,
    pub idle: Option<u64>,
}
