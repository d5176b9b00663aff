//! The board's application process as a core that goes step by step: it takes requests, works on them, files samples and
//! reports (ECSS-E-ST-70-41C, services 1, 3, 4 and 20).
#![tactic(auto)]

mod board;
mod causes;
mod closing;
mod counters;
mod effect;
mod execution;
mod laws;
mod log;
mod packets;
mod samples;
mod statistics_work;
mod uplink;
mod values_work;
mod work;

pub use board::BoardCore;
pub use board_steps::{BoardFault, Event, Sample};
pub use laws::answers_make_runs;
