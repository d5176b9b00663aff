//! Requests and reports of the parameter management service, ST[20] of ECSS-E-ST-70-41C, as bodies of packets.
#![tactic(auto)]

mod bodies;
mod laws;
mod reading;
mod writing;

pub use bodies::{Report20, Request20, Setting};
pub use laws::{reports_are_spelled, requests_are_spelled};
pub use reading::{decode_report, decode_request, knows_report, knows_request};
pub use writing::{encode_report, encode_request};

#[cfg(test)]
mod tests;
