//! What an increment came to.

/// What an increment came to.
#[derive(Clone, Copy, PartialEq, Eq, Debug)]
pub enum Increment {
    /// The sketch was never opened: nothing changed.
    Closed,
    /// All four counters are 15 already: nothing changed.
    Full,
    /// A counter rose, and one more of the sample is counted.
    Counted,
    /// A counter rose, which filled the sample: every counter was halved.
    Halved,
}
