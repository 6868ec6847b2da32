//! The records of the two orders, and the instants that they have.
//!
//! A queue of the cache carries one record for each entry: a `Touch` in the touch order, a `Write` in the write order.
//! `AccessTime` reads and sets the instants of either: a touch has the instant at which its entry was touched, a
//! write the one at which it was written, and setting the one that a record lacks changes nothing. An entry in its
//! cell has both. Whether an entry is over is asked of any of the three. Instants lie as plain numbers; one that no
//! clock can show is never over.
//! It leaves to the caller to keep a record and its entry in step. There is no proof to write.
#![tactic(auto)]

mod access_time;
mod entries;
mod expiry;
mod touches;
mod writes;

pub use access_time::AccessTime;
pub use expiry::{is_expired_entry_ao, is_expired_entry_wo};
pub use touches::Touch;
pub use writes::Write;
