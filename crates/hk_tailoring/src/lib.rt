//! Tailoring files: the order in which a document is checked, and what it stands for.
#![tactic(auto)]

mod arrays;
mod definitions;
mod fault;
mod file;
mod ids;
mod keys;
mod known;
mod lists;
mod params;
mod section;
mod structures;
mod texts;
mod widths;

pub use fault::TailoringFault;
pub use file::read;

#[cfg(test)]
mod tests;
