//! Scripts served over streams: lines come in, answers go out.
//!
//! A `Desk` reads lines and writes answers; `serve::run` goes from making to making over memory that it is lent,
//! and between two of them one part of the hub is at hand, which answers its commands. What a line asks for, what
//! each part answers and what the answers say is proved in the crates below; here it is proved that every call is
//! safe and ends. That the answers come in the order of the lines is tested, since no contract speaks of streams.
#![tactic(auto)]

pub mod desk;
pub mod serve;
