//! Every refusal there is, with the number by which it is told.
//!
//! A call that cannot be done is refused for one of nine reasons, and a script is told the reason by its number.
//! A part that can refuse for few of them has an error type of its own, which converts to this one.
#![tactic(auto)]

ghost use Rattle.std.specs.Prelude.{◌≡◌};
ghost use Rattle.refusals.specs.Numbers.{refusal_number};

/// Why a call is refused.
#[derive(Clone, Copy, Debug, PartialEq, Eq)]
pub enum Refusal {
    /// The cells are not 1 to 4,096.
    Cells = 1,
    /// The index's length is no power of two from 1 to 8,192.
    IndexLength = 2,
    /// A queue's nodes, or the departures, are fewer than the cells.
    TooFewNodes = 3,
    /// The sketch's words are no power of two from 128 to 8,192.
    SketchWords = 4,
    /// The capacity is above 2^48, or above the cells where nothing is weighed.
    Capacity = 5,
    /// An instant or a duration is above 2^62.
    BeyondRange = 6,
    /// A newcomer is due in, nobody leaves for it, and no cell is free.
    NoCell = 7,
    /// A queue's node is not linked, or not lent.
    NotLinked = 8,
    /// A queue's node is linked already, or not lent.
    NotFree = 9,
}

impl Refusal {
    /// The number by which the refusal is told.
    pub fn number(self) -> u8
        ensures { result ≡ refusal_number self }
    {
        self as u8
    }
}
