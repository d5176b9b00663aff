use definition_intervals::Basis;
use hk_base::{Items, Key, Structure};

/// A cached result: what was found of the openings of a structure below a tag.
#[derive(Debug, Drop)]
pub(crate) struct Mark {
    pub tag: u64,
    /// No state opens from this tag on and below the other.
    pub opened: u64,
    /// So many requests are known to have ended at the tag.
    pub past: u64,
    /// Valid for the requests below this number,
    pub listed: u64,
    /// and for any bound up to this one: the requests between change nothing.
    pub calm: u64,
    /// What was found of the openings, each once.
    pub finds: Vec<Option<Items<Option<Structure>>>>,
    /// The first open change of the latest opening.
    pub first: Option<u64>,
    /// The first open change of the requests that haven't ended, which is that of an opening behind the others.
    pub open_change: Option<u64>,
    /// Starting points whose outcome under the pending requests is already among those that were found.
    pub origins: Vec<Option<Items<Option<Structure>>>>,
    pub basis: Basis,
}

/// A mark with the structure that it is of.
#[derive(Debug, Drop)]
pub(crate) struct StructureMark {
    pub key: Key,
    pub mark: Mark,
}
