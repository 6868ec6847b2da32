//! Who left, and why.
ghost use Rattle.std.specs.Prelude.{◌≡◌};
ghost use Rattle.rules.specs.Numbers.{cause_number};

/// Why an entry left.
#[derive(Clone, Copy, Debug, PartialEq, Eq)]
pub enum Cause {
    /// Its life was over.
    LivedOut = 1,
    /// Its idle time was over.
    IdledOut = 2,
    /// The recorded weight was above the capacity.
    Trimmed = 3,
    /// A newcomer was more popular.
    Outvoted = 4,
    /// It was struck by its key.
    StruckOut = 5,
    /// Everything was swept out.
    SweptOut = 6,
}

impl Cause {
    /// The number by which the cause is told.
    pub fn number(self) -> u8
        ensures { result ≡ cause_number self }
    {
        self as u8
    }
}

/// That an entry left: the ticket it had, and why.
#[derive(Clone, Copy)]
pub struct Departure {
    pub ticket: u64,
    pub cause: Cause,
}
