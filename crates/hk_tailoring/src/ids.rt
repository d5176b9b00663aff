//! Sets of parameter IDs, in which an ID is found in logarithmic time.
ghost use Rattle.std.specs.Prelude.{◌≡◌, ℕ, [], ◌==◌, ◌||◌, not, IfOk, OnOk};
ghost use Rattle.hk_tailoring.specs.Ids.{has_id};

use hk_base::Memory;
use std::alloc::Global;
use std::collections::BTreeSet;
use std::marker::Model;

/// A set of parameter IDs.
#[derive(Drop)]
pub struct IdSet {
    ids: BTreeSet<u32>,
}

impl Model for IdSet {
    ghost use Rattle.std.specs.Prelude.{ℕ, List};

    ghost Value = { List ℕ };

    ghost view = { λ set. set.ids.keys };
}

impl IdSet {
    /// The empty set.
    pub fn new(alloc: Global) -> IdSet
        ensures { result ≡ [] }
    {
        IdSet {
            ids: BTreeSet::new(alloc),
        }
    }

    /// Whether an ID is in the set.
    pub fn has(&self, id: u32) -> bool
        ensures { result ≡ has_id self.now id }
    {
        self.ids.contains(&id)
    }

    /// Puts an ID in. The answer is whether it is new.
    pub fn add(&mut self, id: u32) -> Result<bool, Memory>
        ensures new { IfOk result (λ new. new ≡ not (has_id self.old id)) }
        ensures ids { OnOk result ((x : ℕ) → has_id self.new x ≡ (id == x || has_id self.old x)) }
    {
        Ok(self.ids.insert(id)?)
    }
}
