//! Which verdicts a new entry can change.
#![tactic(auto)]

mod changes;
mod touched;

pub use changes::{changed_by_kept, changed_by_sent};
pub use touched::{sent_touches_none, touched_by_kept};
