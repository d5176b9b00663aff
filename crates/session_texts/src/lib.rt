//! What is written of a session, as definitions: a block for each report that was kept, and counts.
#![tactic(auto)]

mod laws;
mod problem;

pub use laws::{
    empty_records, entries_come_one_by_one, example_texts, followed_lines_are_true, lines_are_true,
    records_of_worlds_have_no_problem, texts_are_true, true_verdicts,
};
pub use problem::{RecordProblem, Tally};
