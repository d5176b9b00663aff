//! Runs of a script: what a simulated board does with it, and that its record is that of a world.
#![tactic(auto)]

mod laws;

pub use laws::{runs_are_bounded, runs_are_of_worlds};
