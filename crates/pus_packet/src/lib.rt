//! Packets of requests and reports: their headers, their faults and their checksum.
#![tactic(auto)]

mod checksum;
mod header;
mod join;
mod laws;
mod split;
#[cfg(test)]
mod tests;

pub use checksum::crc16;
pub use header::{JoinFault, PacketFault, TcHeader, TmHeader};
pub use join::{join_tc, join_tm, request_id};
pub use laws::packets;
pub use split::{apid_of, split_tc, split_tm};
