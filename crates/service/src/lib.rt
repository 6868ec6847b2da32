//! The hub's service: what each part of the hub answers to a command of a script, and what it then is.
//!
//! One function for each part takes the part and a command, asks it and answers. It promises both, the answer and
//! the part's meaning after it, as definitions (`sketch_answer`, `sketch_after` and their like in specs/) over the
//! meaning before. Streams are no matter here: where commands come from and answers go is the caller's.
//!
//! The idea of the proof: there is none to write; each definition says case by case which call is made.
#![tactic(auto)]

mod queue_service;
mod sketch_service;

pub use queue_service::ask_queue;
pub use sketch_service::ask_sketch;
