//! Transcripts: what is asked of a board, line by line, and what it answers and does.
#![tactic(auto)]

#[cfg(test)]
mod filing;
#[cfg(test)]
mod replay;
#[cfg(test)]
mod tests;
