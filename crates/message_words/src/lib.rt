//! The words of whole requests and reports: one line of ASCII for each message, its words divided by one blank.
#![tactic(auto)]

mod bodies;
mod commands;
mod fault;
mod laws;
mod lines;
mod lists;
mod numbers;
mod octets;
mod reading;
mod reports;
mod requests;
mod words;

pub use fault::WordsFault;
pub use laws::{lines_are_divided, numbers_are_read_back, words_are_read_back};
pub use lines::{ascii_text, sections_in, words_in};
pub use numbers::{number_in, value_in, wide_number_in};
pub use reading::read_words;
pub use reports::report_words;
pub use requests::request_words;
pub use words::push_numbers;

#[cfg(test)]
mod tests;
