//! Requests and reports of the parameter statistics service, ST[04] of ECSS-E-ST-70-41C, as bodies of packets.
#![tactic(auto)]

mod bodies;
mod fields;
mod laws;
mod numeric;
mod reports;
mod requests;
mod rows;

pub use bodies::{Report04, Request04, StatReport, StatRow};
pub use laws::{reports_are_spelled, requests_are_spelled};
pub use reports::{decode_report, encode_report, knows_report};
pub use requests::{decode_request, encode_request, knows_request};

#[cfg(test)]
mod tests;
