//! What a cache is made of: no fact stands in these types.
use deque::Deque;
use index::Index;
use kinds::EntryKind;
use records::{Touch, Write};
use rules::Departure;
use sketch::FrequencySketch;
use times::Duration;

/// What was chosen at making, and accepted.
#[derive(Clone, Copy)]
pub struct Policy {
    pub max_capacity: Option<u64>,
    pub time_to_live: Option<Duration>,
    pub time_to_idle: Option<Duration>,
}

/// The parts of a cache: entries in cells, their two orders, the sketch, the lent list of departures, what was
/// chosen, and the numbers kept beside the entries.
#[derive(Drop)]
pub struct Parts<'q, 'm, 'n, 'w, 's, 'd, K: EntryKind> {
    pub index: &'q mut Index<'m, K>,
    pub touch: &'q mut Deque<'n, Touch>,
    pub write: &'q mut Deque<'w, Write>,
    pub sketch: &'q mut FrequencySketch<'s>,
    pub departures: &'d mut [Departure],
    pub policy: Policy,
    pub next_ticket: u64,
    pub weighted_size: u64,
    pub entry_count: u64,
}
