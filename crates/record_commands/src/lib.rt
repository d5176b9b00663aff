//! What a program does with a record entry by entry: trimming it, showing it, and making one.
#![tactic(auto)]

mod encoding;
mod laws;
mod lines;
mod packets;
mod showing;
mod trim;

pub use encoding::encode;
pub use laws::trimmed_octets_are_the_longest_record;
pub use showing::show;
pub use trim::trimmed;
