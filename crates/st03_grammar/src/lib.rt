//! The bodies of housekeeping requests and reports (ECSS-E-ST-70-41C, service 3), read and written.
#![tactic(auto)]

mod bodies;
mod fields;
mod instructions;
mod laws;
mod lists;
mod reports;
mod requests;
mod subtypes;
mod writing;

pub use bodies::{Added, Change, Each, Pair, PeriodicRow, Report03, Request03};
pub use laws::{reports_are_spelled, requests_are_spelled};
pub use reports::{decode_report, knows_report};
pub use requests::{decode_request, knows_request};
pub use writing::{encode_report, encode_request};

#[cfg(test)]
mod tests;
