//! How large the table of an open sketch is, how full its sample, and where the counters of a hash stand in it.
ghost use Rattle.std.specs.Prelude.{◌≡◌, ℕ, ◌-◌, ◌*◌, ◌/◌, ◌%◌, ◌<◌, ◌≤◌, length};
ghost use Rattle.sketch.specs.Powers.{least_power, LeastPower};
ghost use Rattle.sketch.specs.Tables.{mixed, spread, estimate, raised_all, rises, halved_all, odds_all};

use crate::counters::{self, counter_of};

/// A mixture of seeds from FNV-1a, CityHash, and Murmur3. (Taken from Caffeine)
const SEED: [u64; 4] = [
    0xc3a5_c85c_97cb_3127,
    0xb492_b66f_be98_f273,
    0x9ae1_6a3b_2f90_404f,
    0xcbf2_9ce4_8422_2325,
];

/// How many words the table has, how many increments fill the sample, and how many are counted of it: fewer, in
/// every value of the type.
#[derive(Clone, Copy)]
pub struct Meter {
    pub table_len: usize,
    pub sample_size: u64,
    pub size: u64,
    ghost short: { size < sample_size },
    ghost tens: { sample_size % 10 ≡ 0 },
    ghost power: { table_len ≡ least_power (sample_size / 10) },
    ghost few: { table_len ≤ 8192 },
}

impl Meter {
    /// The meter of a sketch just opened that is made for so many hashes.
    pub(crate) fn made_for(hashes: u64) -> Meter
        requires { (0 < hashes) × (hashes ≤ 8192) }
        ensures table_len { result.table_len ≡ least_power hashes }
        ensures least { LeastPower hashes result.table_len }
        ensures sample_size { result.sample_size ≡ 10 * hashes }
        ensures size { result.size ≡ 0 }
    {
        Meter {
            table_len: hashes.next_power_of_two() as usize,
            sample_size: 10 * hashes,
            size: 0,
        }
    }

    /// The word of a hash at the depth that has this seed.
    fn index_of(&self, hash: u64, seed: u64) -> usize
        ensures is { result ≡ spread (mixed hash seed) % self.now.table_len }
        ensures below { result < self.now.table_len }
    {
        let mixed = hash.wrapping_add(seed).wrapping_mul(seed);
        let spread = mixed.wrapping_add(mixed >> 32);
        (spread & (self.table_len as u64 - 1)) as usize
    }

    /// The estimate of a hash in the table: the least of its four counters.
    pub(crate) fn estimate(&self, table: &[u64], hash: u64) -> u8
        requires { length table.now ≡ self.now.table_len }
        ensures { result ≡ estimate table.now hash }
    {
        let start = 4 * (hash & 3) as u32;
        let counters = SEED.iter().enumerate().map(|(depth, seed)| {
            counter_of(table[self.index_of(hash, *seed)], start + depth as u32)
        });
        counters.min().unwrap_or(0) as u8
    }

    /// Raises each of the four counters of a hash in the table that is below 15, and says whether one rose.
    pub(crate) fn raise(&self, table: &mut [u64], hash: u64) -> bool
        requires { length table.old ≡ self.now.table_len }
        ensures words { table.new ≡ raised_all table.old hash }
        ensures rose { result ≡ rises table.old hash }
    {
        let start = 4 * (hash & 3) as u32;
        let mut rose = false;
        for (depth, seed) in SEED.iter().enumerate() {
            let index = self.index_of(hash, *seed);
            rose |= counters::raise_counter(&mut table[index], start + depth as u32);
        }
        rose
    }

    /// Halves every counter of the table, where `size` of the sample are counted, and gives the meter after it.
    pub(crate) fn halve(self, table: &mut [u64], size: u64) -> Meter
        requires { size ≤ self.sample_size }
        ensures words { table.new ≡ halved_all table.old }
        ensures table_len { result.table_len ≡ self.table_len }
        ensures sample_size { result.sample_size ≡ self.sample_size }
        ensures size { result.size ≡ size / 2 - odds_all table.old / 4 }
    {
        let odd = counters::halve(table);
        self.with_size((size >> 1).saturating_sub(odd >> 2))
    }

    /// The meter with another size.
    pub(crate) fn with_size(self, size: u64) -> Meter
        requires { size < self.sample_size }
        ensures table_len { result.table_len ≡ self.table_len }
        ensures sample_size { result.sample_size ≡ self.sample_size }
        ensures size { result.size ≡ size }
    {
        Meter {
            table_len: self.table_len,
            sample_size: self.sample_size,
            size,
        }
    }
}
