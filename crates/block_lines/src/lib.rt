//! The lines that are written of a session: the block of a report that was kept, counts, and the numbers of a session.
//!
//! Each writer puts its lines last. When memory runs out, the octets that were there before are still in front.
#![tactic(auto)]

mod counts;
mod parameters;
mod parts;
mod reports;
mod summary;
mod values;

pub use counts::{Counts, write_counts};
pub use parameters::{write_current, write_statistics};
pub use reports::write_report;
pub use summary::write_summary;

#[cfg(test)]
mod tests;
