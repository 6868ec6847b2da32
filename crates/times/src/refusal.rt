//! Why a number is refused.
ghost use Rattle.std.specs.Prelude.{◌≡◌};
ghost use Rattle.times.specs.Refusals.{refusal_of, refusal_number};

/// What is wrong with a number that was to become an instant or a duration.
#[derive(Clone, Copy, Debug, PartialEq, Eq)]
pub enum Refusal {
    /// It is above 2^62.
    BeyondRange,
}

impl From<Refusal> for refusals::Refusal {
    ghost from_gives = { λ why told. told ≡ refusal_of why };

    /// The refusal among all that there are.
    fn from(why: Refusal) -> refusals::Refusal {
        match why {
            Refusal::BeyondRange => refusals::Refusal::BeyondRange,
        }
    }
}

impl Refusal {
    /// The number by which the refusal is told.
    pub fn number(self) -> u8
        ensures { result ≡ refusal_number self }
    {
        refusals::Refusal::from(self).number()
    }
}
