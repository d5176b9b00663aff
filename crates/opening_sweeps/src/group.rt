use hk_base::{Items, Structure};

/// Openings of which the same states are found.
#[derive(Debug, Drop)]
pub(crate) struct Group {
    /// The tags of the openings. Openings with the same future are represented by one of them.
    pub tags: Items<u64>,
    /// The states that are possible after the requests that are settled, each once; None where there are too many.
    pub base: Option<Items<Option<Structure>>>,
    /// Those after the requests before `reached`, too.
    pub found: Option<Items<Option<Structure>>>,
    pub reached: usize,
}
