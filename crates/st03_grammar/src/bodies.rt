use hk_base::{Definition, Items, Key, Kind, Octets, Structure, SuperList};

/// What a request asks of each structure that it names.
#[derive(Clone, Copy, Debug, PartialEq, Eq, Drop)]
pub enum Each {
    Delete,
    Enable,
    Disable,
    Show,
    OneShot,
    ShowPeriodic,
}

/// A structure ID with a new interval.
#[derive(Clone, Copy, Debug, PartialEq, Eq, Drop)]
pub struct Pair {
    pub id: u32,
    pub interval: u32,
}

/// Parameters that are added to a structure.
#[derive(Debug, Drop)]
pub struct Added {
    pub simple: Items<u32>,
    pub arrays: Items<SuperList>,
}

/// A request of the housekeeping service.
#[derive(Debug, Drop)]
pub enum Request03 {
    Create(Key, Definition),
    Append(Key, Added),
    OnEach(Each, Kind, Items<u32>),
    Intervals(Kind, Items<Pair>),
}

/// The periodic properties of a structure.
#[derive(Clone, Copy, Debug, PartialEq, Eq, Drop)]
pub struct PeriodicRow {
    pub id: u32,
    pub enabled: bool,
    pub interval: u32,
}

/// A report of the housekeeping service.
#[derive(Debug, Drop)]
pub enum Report03 {
    Structure(Key, Structure),
    Values(Key, Octets),
    Periodic(Kind, Items<PeriodicRow>),
}

/// One instruction on a structure.
#[derive(Debug, Drop)]
pub enum Change<'a> {
    Create(&'a Definition),
    Append(&'a Added),
    Interval(u32),
    Plain(Each),
}
