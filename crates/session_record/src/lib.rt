//! The record of a session: a header and entries in order, each with the offset of its first octet.
#![tactic(auto)]

mod entry;
mod found;
mod header;
mod held;
mod laws;
mod reader;
mod writer;

pub use entry::{Entry, RecordFault, WriteFault};
pub use laws::{records_are_read_back, trimmed_is_the_longest_record};
pub use reader::RecordReader;
pub use writer::{RecordWriter, write_all};

#[cfg(test)]
mod tests;
