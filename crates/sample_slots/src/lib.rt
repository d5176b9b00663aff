//! The parameter and the slot of each sample of a report, and the values of its payload.
#![tactic(auto)]

mod bits;
mod laws;
mod packing;
mod payload;
mod slots;
mod window;
mod writing;

pub use hk_base::{PayloadFault, Place};
pub use laws::payloads;
pub use payload::{read_payload, size};
pub use slots::{place, place_count};
pub use window::Window;
pub use writing::write_payload;

#[cfg(test)]
mod tests;
