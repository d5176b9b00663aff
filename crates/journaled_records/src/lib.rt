//! Records with a journal, and the worlds that they tell by their own lines.
#![tactic(auto)]

mod laws;

pub use laws::{
    agreeing_sessions, cut_records, cut_records_are_replayed, own_worlds, steps_are_determined,
    told_worlds,
};
