//! Verdicts on parameter reports from tables of tag ranges.
#![tactic(auto)]

mod building;
mod collecting;
mod keys;
mod laws;
mod places;
mod ranges;
mod start;
mod steps;
mod structures;
mod tables;

pub use laws::openings_stay;
pub use ranges::Ranges;
pub use steps::Steps;
pub use tables::Tables;

#[cfg(test)]
mod tests;
#[cfg(test)]
mod tests_on_made_sessions;
