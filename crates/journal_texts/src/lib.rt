//! The texts of moments: one line of ASCII for each, as a session record holds them.
#![tactic(auto)]

mod acts;
mod fault;
mod laws;
mod reading;
mod writing;

pub use fault::JournalFault;
pub use laws::lines_are_read_back;
pub use reading::read_journal;
pub use writing::journal_text;

#[cfg(test)]
mod tests;
