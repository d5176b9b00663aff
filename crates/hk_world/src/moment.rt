//! What happens on a board.
use hk_base::{Items, Octets, Value};

/// What the board does at a moment. A request is named by its number in the session, an instruction by its own in the
/// request, from 1.
#[derive(Debug, Drop)]
pub enum Act {
    /// The request passed the check of acceptance.
    Accepted(u64),
    /// The request failed the check of acceptance.
    TurnedAway(u64),
    /// The execution of the request began.
    Started(u64),
    /// The request with one instruction was refused before it began.
    NotStarted(u64),
    /// The instruction of the request was carried out (true) or refused.
    Executed(u64, u32, bool),
    /// The request ended. These of its instructions were refused.
    Completed(u64, Items<u32>),
    /// A report was sent that isn't a verification report.
    Emitted,
    /// The parameter had this value in the slot.
    Filed(u32, u64, Value),
}

/// A moment of a session. Its tag is the time of the board in ticks.
#[derive(Debug, Drop)]
pub struct Moment {
    /// No other moment of the session has this tag, and later ones have greater ones.
    pub tag: u64,
    pub act: Act,
    /// The telemetry packet that the board sends at this moment, or no octets.
    pub packet: Octets,
}
