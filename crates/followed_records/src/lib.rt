//! A record that is followed: what is written of an entry is written before the next one is read.
#![tactic(auto)]

mod entries;
mod fault;
mod following;
mod laws;

pub use fault::FollowingFault;
pub use following::follow_record;
pub use laws::followed_texts;
