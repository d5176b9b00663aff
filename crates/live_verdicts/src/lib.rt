//! Verdicts on parameter reports while entries come, from a cache of what was found for other reports: the marks.
#![tactic(auto)]

mod behind;
mod between;
mod counting;
mod finds;
mod firm;
mod forgetting;
mod growing;
mod held;
mod later;
mod leaving;
mod live;
mod mark;
mod reaching;
mod told;
mod unsure;

pub use live::LiveVerdicts;
