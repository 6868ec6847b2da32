//! The calls of the frequency sketch.
ghost use Rattle.std.specs.Prelude.{◌≡◌, ℕ, ◌≤◌, true, length, replicate, Some};
ghost use Rattle.sketch.specs.Counters.{most};
ghost use Rattle.sketch.specs.Powers.{LeastPower};
ghost use Rattle.sketch.specs.Sketches.{closed, made_for, opens_over, ensured, frequency, outcome, incremented, halved_sketch};
ghost use Rattle.sketch.specs.Laws.{HalvingHalves, IncrementRaises, FewNeverHalve, FrequencyIsAtLeast, EarlyFrequencyIsAtLeast};
ghost use Rattle.sketch.specs.Meaning.{lent_words, meaning, lent, Becomes};

use crate::FrequencySketch;
use crate::increment::Increment;
use crate::meter::Meter;

impl<'a> FrequencySketch<'a> {
    /// A sketch that is closed, over these words, which become 0.
    #[tactic(auto, unfolding(crate::specs::Meaning::sketch_in))]
    pub fn new(words: &'a mut [u64]) -> FrequencySketch<'a>
        ensures closed { meaning result ≡ closed }
        ensures words { lent_words result ≡ replicate (length words.old) 0 }
    {
        words.fill(0);
        FrequencySketch { words, meter: None }
    }

    /// Opens the sketch for `cap` hashes: all counters 0, and a table whose length is the least power of two that is
    /// not below `cap` raised to 128 or cut to the number of lent words. A table that is large enough stays as it is;
    /// over a number of words that is no power of two from 128 to 8,192 the sketch stays closed.
    pub fn ensure_capacity(&mut self, cap: u64)
        ensures memory { Becomes self.old self.new (ensured (lent self.old) cap (meaning self.old)) }
        ensures least { opens_over (lent self.old) ≡ true → meaning self.old ≡ closed → LeastPower (made_for (lent self.old) cap) (length (meaning self.new).words) }
    {
        let lent = self.words.len();
        if !FrequencySketch::opens_over(lent) {
            return;
        }
        let meter = Meter::made_for(cap.clamp(128, lent as u64));
        if self.table_len() < meter.table_len {
            self.words[..meter.table_len].fill(0);
            self.meter = Some(meter);
        }
    }

    /// How often a hash was seen: the least of its four counters, 0 without words.
    pub fn frequency(&self, hash: u64) -> u8
        ensures is { result ≡ frequency (meaning self.now) hash }
        ensures most { result ≤ most }
        ensures bound { FrequencyIsAtLeast result (meaning self.now) hash }
        ensures early { EarlyFrequencyIsAtLeast result (meaning self.now) hash }
    {
        self.meter.map_or(0, |meter| {
            meter.estimate(&self.words[..meter.table_len], hash)
        })
    }

    /// Counts a hash once more: raises each of its four counters that is below 15, and halves the sketch where that
    /// fills the sample.
    pub fn increment(&mut self, hash: u64) -> Increment
        ensures answer { result ≡ outcome (meaning self.old) hash }
        ensures memory { Becomes self.old self.new (incremented (meaning self.old) hash) }
        ensures raises { IncrementRaises result (meaning self.old) (meaning self.new) hash }
        ensures few { FewNeverHalve }
    {
        let Some(meter) = self.meter else {
            return Increment::Closed;
        };
        let table = &mut self.words[..meter.table_len];
        if !meter.raise(table, hash) {
            return Increment::Full;
        }
        let size = meter.size + 1;
        if size < meter.sample_size {
            self.meter = Some(meter.with_size(size));
            Increment::Counted
        } else {
            self.meter = Some(meter.halve(table, size));
            Increment::Halved
        }
    }

    /// Halving: every counter becomes half of what it was, rounding down.
    pub fn reset(&mut self)
        ensures memory { Becomes self.old self.new (halved_sketch (meaning self.old)) }
        ensures halves { HalvingHalves (meaning self.old) (meaning self.new) }
    {
        if let Some(meter) = self.meter {
            self.meter = Some(meter.halve(&mut self.words[..meter.table_len], meter.size));
        }
    }

    /// Whether a sketch opens over this many lent words: a power of two from 128 to 8,192.
    pub fn opens_over(lent: usize) -> bool
        ensures { result ≡ opens_over lent }
    {
        (128..=8192).contains(&lent) && lent.is_power_of_two()
    }

    /// How many words the table has: none while the sketch is closed.
    pub fn table_len(&self) -> usize
        ensures { result ≡ length (meaning self.now).words }
    {
        self.meter.map_or(0, |meter| meter.table_len)
    }

    /// How many increments that raise a counter fill the sample.
    #[tactic(auto, unfolding(crate::specs::Meaning::sketch_in, crate::specs::Sketches::closed))]
    pub fn sample_size(&self) -> u64
        ensures { result ≡ (meaning self.now).sample }
    {
        self.meter.map_or(0, |meter| meter.sample_size)
    }

    /// How much of the sample is counted.
    #[tactic(auto, unfolding(crate::specs::Meaning::sketch_in, crate::specs::Sketches::closed))]
    pub fn size(&self) -> u64
        ensures { result ≡ (meaning self.now).size }
    {
        self.meter.map_or(0, |meter| meter.size)
    }
}
