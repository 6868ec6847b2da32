//! The rules of the cache: what each call does, and what holds of every list of calls.
//!
//! It has the words in which a cache is asked and answers (`Call`, `Answer`, `Departure`, `Refusal`,
//! `Choices`), and in specs/ the step: for each state and call the state after it, the answer and who
//! left. There is no cache in here: the code above is proved equal to the step, call by call.
//! It promises that every list of calls is accounted for by a ledger that sees only what is told: each
//! entry that left, each newcomer and each hit (`account_of`, `served_of`, `goes_on_of`), that sums
//! stay true (`sums_of`), and the laws of the rules that step and ledger share (the module `laws`).
//! It leaves to the caller which free cell a newcomer gets: no answer depends on it.
//! The idea of the proof: a state without its cells and hashes is a ledger, and each part of a call
//! does the same to both; "cells differ", "tickets differ" and "keys differ" are each a count of at
//! most one, so that look-up, membership and the account are sums.
#![tactic(auto)]

mod answer;
mod call;
mod choices;
mod departure;
mod laws;
mod theorems;

pub use answer::Answer;
pub use call::Call;
pub use choices::Choices;
pub use departure::{Cause, Departure};
pub use laws::{
    expires_exactly, fitting_is_exact, late_is_refused, looking_no_further, opens_once,
    others_stay, passes_clear_fronts, sums_stop,
};
pub use refusals::Refusal;
pub use theorems::{account_of, goes_on_of, samples_stand, served_of, sums_of, values_of};
