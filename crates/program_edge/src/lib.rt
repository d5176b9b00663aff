//! What the programs share at their edge: words, inputs, the tailoring, output, and the answers that each of them may end with.
#![tactic(auto)]

mod decimals;
mod draft;
mod edge;
mod fault;
mod inputs;
mod numbers;
mod outside;
mod tailorings;
mod texts;

pub use decimals::decimal_within;
pub use draft::Draft;
pub use edge::{complain, words};
pub use fault::RunFault;
pub use inputs::{PIECE_OCTETS, input_octets};
pub use numbers::{
    BAD_LINE, BAD_RECORD, BAD_TAILORING, DONE, NO_MEMORY, READ_FAULT, USAGE, WRITE_FAULT,
};
pub use outside::{FileShelf, OutSink};
pub use tailorings::{TailoringName, tailoring_named, tailoring_of};
pub use texts::{format_text, line_text, plain_text, tailoring_text};
