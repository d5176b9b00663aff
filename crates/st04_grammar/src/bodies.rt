use hk_base::{Items, Value};

/// A request of the statistics service.
#[derive(Debug, Drop)]
pub enum Request04 {
    /// Asks for the statistics. True resets them afterwards.
    Report(bool),
    Reset,
    /// Enables periodic reports, at an interval in slots.
    Enable(u32),
    Disable,
    /// Adds these parameters.
    Add(Items<u32>),
    /// Deletes these parameters, or all where there is none.
    Delete(Items<u32>),
    /// Asks which parameters the statistics are taken of.
    ShowDefinitions,
}

/// The statistics of one parameter.
#[derive(Clone, Copy, Debug, PartialEq, Eq, Drop)]
pub struct StatRow {
    pub param: u32,
    /// The number of samples, 1 or more.
    pub count: u32,
    pub max: Value,
    /// The tag of the first sample that has the maximum.
    pub max_time: u64,
    pub min: Value,
    /// The tag of the first sample that has the minimum.
    pub min_time: u64,
    /// In units of 256 to the power of minus `mean_fraction`.
    pub mean: Value,
}

/// The statistics from one tag to another.
#[derive(Debug, Drop)]
pub struct StatReport {
    pub start: u64,
    pub end: u64,
    pub rows: Items<StatRow>,
}

/// A report of the statistics service.
#[derive(Debug, Drop)]
pub enum Report04 {
    Statistics(StatReport),
    /// Whether periodic reports are enabled, their interval in slots, and the parameters.
    Definitions(bool, u32, Items<u32>),
}
