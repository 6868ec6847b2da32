//! The counters of words: reading one, raising one, halving all.
ghost use Rattle.std.specs.Prelude.{◌≡◌, ℕ, ◌*◌, ◌/◌, ◌<◌, nat_lt};
ghost use Rattle.sketch.specs.Counters.{most, counter, raised};
ghost use Rattle.sketch.specs.Tables.{halved_all, odds_all};

/// The largest number that a counter holds.
const MOST: u64 = 15;

/// The low three bits of each counter.
const RESET_MASK: u64 = 0x7777_7777_7777_7777;

/// The lowest bit of each counter.
const ONE_MASK: u64 = 0x1111_1111_1111_1111;

/// The counter of a word with a number.
pub(crate) fn counter_of(word: u64, number: u32) -> u64
    requires { number < 16 }
    ensures { result ≡ counter word number }
{
    (word >> (4 * number)) & MOST
}

/// Raises a counter of a word unless it is 15, and says whether it rose.
pub(crate) fn raise_counter(word: &mut u64, number: u32) -> bool
    requires { number < 16 }
    ensures word { word.new ≡ raised word.old number }
    ensures rose { result ≡ nat_lt (counter word.old number) most }
{
    let rises = counter_of(*word, number) < MOST;
    if rises {
        *word += 1 << (4 * number);
    }
    rises
}

/// Halves every counter of a table, rounding down, and says how many were odd.
pub(crate) fn halve(table: &mut [u64]) -> u64
    ensures words { table.new ≡ halved_all table.old }
    ensures odd { result ≡ odds_all table.old }
{
    let mut odd = 0;
    for word in table.iter_mut() {
        odd += (*word & ONE_MASK).count_ones() as u64;
        *word = (*word >> 1) & RESET_MASK;
    }
    odd
}
