//! What a step of a board's application process is (ECSS-E-ST-70-41C, services 1, 3, 4 and 20), as definitions, and that
//! whatever a board does is a legal and honest timeline.
#![tactic(auto)]

mod event;
mod laws;

pub use event::{BoardFault, Event, Sample};
pub use laws::{boards, headers, intervals, journals, reports_are_due, slots, steps};
