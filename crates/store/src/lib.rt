//! Entries over an index and two queues.
#![tactic(auto)]

mod parts;

pub use parts::{Parts, Policy};
