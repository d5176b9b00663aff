//! What a board is at a moment, kept up to date moment by moment: its requests by stage, its report structures, its values
//! with their latest samples, and its statistics.
#![tactic(auto)]

mod channels;
mod instruction;
mod members;
mod requests;
mod running;
mod structures;

pub use channels::{Channel, Channels};
pub use instruction::{Instruction, StatisticsChange, instruction_at};
pub use members::{MOST_MEMBERS, Members};
pub use requests::Requests;
pub use running::{Asked, Running, packet_id};
pub use structures::{Held, Structures, ends_interval};
