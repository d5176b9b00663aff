//! The bases of verdicts on the reports of one structure at many tags, found in one sweep over the tags.
#![tactic(auto)]

mod bounded;
mod cursors;
mod gathering;
mod group;
mod naming;
mod narrowing;
mod opening_groups;
mod settling;
mod start;
mod sweep;
mod tail;

pub use gathering::{boot_start, starts_rise, told_start};
pub use naming::first_after;
pub use start::Start;
pub use sweep::bases;
