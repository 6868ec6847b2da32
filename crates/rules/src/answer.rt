//! What a cache answers.
use refusals::Refusal;

/// The answer of a call.
#[derive(Clone, Copy)]
pub enum Answer<Value> {
    /// A get found the key: its value.
    Hit(Value),
    /// A get did not.
    Miss,
    /// The key is held.
    Yes,
    /// It is not.
    No,
    /// A newcomer was taken in: its ticket.
    New(u64),
    /// A held key has a new value: its ticket.
    Replaced(u64),
    /// A newcomer was turned away.
    TurnedAway,
    /// The key's entry was struck.
    Struck,
    /// There was none to strike.
    Absent,
    /// All entries were swept out.
    Swept,
    /// The call was refused.
    Refused(Refusal),
}
