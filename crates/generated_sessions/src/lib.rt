//! A session that is made from a seed and a number of rounds, for trials of any size.
//!
//! Its board has six housekeeping structures, each of which it reports in every round. In every sixteenth round the ground
//! sends a request that changes an interval. Some packets are lost, repeated or late.
#![tactic(auto)]

mod laws;
mod packets;
mod payload;
mod rounds;
mod schedule;
mod structures;

pub use laws::{entries_are_short, rounds_come_one_by_one};
pub use rounds::{last_entries, round_entries};
pub use structures::tailoring;
