//! The text of a session, by its entries: what became of each is kept, and the text is written from that.
#![tactic(auto)]

mod blocks;
mod changed;
mod counts;
mod decommutator;
mod due;
mod fault;
mod following;
mod laws;
mod looking;
mod output;
mod rest;
mod row;
mod rows;
mod taking;
mod tally;
mod text;
mod verdicts;
mod waiting;

pub use decommutator::Decommutator;
pub use fault::FollowFault;
pub use laws::{entries_are_followed, entries_stand};
pub use row::ValueRow;
pub use session_texts::{RecordProblem, Tally};
