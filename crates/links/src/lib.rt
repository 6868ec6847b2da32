//! Links in memory: the number of a place among those that are lent, or none, in 32 bits.
//!
//! A link lies as one number; the largest of 32 bits stands for none, so that no more than 2^32 - 1 places are ever
//! used. An `Option<usize>` would say the same, in four times the memory and with a tag to test at each step; it is
//! what signatures and contracts speak of. Lists of places, and what stands first, last, before and after in them,
//! are defined here too (specs/Places.antt), with their lemmas (proofs/Orders.antt): the queue's order and the
//! chains of the index are such lists.
#![tactic(auto)]

ghost use Rattle.std.specs.Prelude.{◌≡◌, ◌%◌, ◌^◌, ◌<◌, None};
ghost use Rattle.links.specs.Links.{goes_to, to_place, most};

/// The number that no used place has, so that it can stand for none; as many places are used at most.
const NOWHERE: u32 = 0xffff_ffff;

/// The way to a place, or to none.
// 32 bits for each, by a rule of the project: an `Option` of a number has a tag beside it, and made moves slower.
#[derive(Clone, Copy)]
pub struct Link {
    number: u32,
}

// No `From` either way: `Link::to(i)` and `target()` say at the place what is made, which `from` would not.
impl Link {
    /// As many places can be led to: numbers below this one.
    pub const MOST: usize = NOWHERE as usize;

    /// A link that leads nowhere.
    pub fn none() -> Link
        ensures { goes_to result ≡ None }
    {
        Link { number: NOWHERE }
    }

    /// A link to place i.
    pub fn to(i: usize) -> Link
        ensures number { result.number ≡ i % 2 ^ 32 }
        ensures place { i < most → result ≡ to_place i }
    {
        Link {
            number: (i & 0xffff_ffff) as u32,
        }
    }

    /// The place that it leads to, if it leads anywhere.
    pub fn target(self) -> Option<usize>
        ensures { result ≡ goes_to self }
    {
        (self.number != NOWHERE).then_some(self.number as usize)
    }
}
