//! The script format: the words of a line, the numbers among them, what a line asks for and what an answer says.
//!
//! A script is read line by line. Everything here is about one line: `lines::read` says what it asks for, and an
//! `Answer` says by `Display` what is written back. Both are proved, byte for byte, equal to definitions in specs/;
//! where lines come from, and what is done for them, is another crate's.
//!
//! The idea of the proof: a line is a list of words, defined by recursion on its bytes; the reader takes one word
//! after the other off that list.
#![tactic(auto)]

pub mod answer;
pub mod command;
pub mod lines;
pub mod numbers;
pub mod queue_lines;
pub mod sketch_lines;
pub mod words;
