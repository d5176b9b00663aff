//! The places of structures, as they are collected.
ghost use Rattle.std.specs.Prelude.{◌≡◌, ◌≢◌, ◌<◌, ℕ, List, [], ◌∷◌, ◌++◌, None, Some, IfOk, OnOk, MatchOption, length, unwrap_or};
ghost use Rattle.hk_base.specs.declared.types.Key.{Key};
ghost use Rattle.verdict_tables.specs.Collecting.{Collects, IsHeld, held_for, tags_if};

use hk_base::{Items, Key, Memory};
use std::alloc::Global;
use std::collections::BTreeMap;
use std::marker::Model;

/// Tags for structures, in the order in which they were added.
#[derive(Drop)]
pub(crate) struct Places {
    alloc: Global,
    tags: BTreeMap<Key, Items<u64>>,
}

impl Model for Places {
    ghost use Rattle.std.specs.Prelude.{ℕ, List, [], ◌≢◌, IfSome};
    ghost use Rattle.hk_base.specs.declared.types.Key.{Key};
    ghost use Rattle.verdict_tables.specs.Collecting.{held_for};

    ghost Value = { List (Key × List ℕ) };

    ghost view = { λ p. p.tags.entries };

    ghost invariant = { λ p. (key : Key) → IfSome (held_for p.tags.entries key) (λ tags. tags ≢ []) };
}

impl Places {
    pub(crate) fn new(alloc: Global) -> Places
        ensures { result ≡ [] }
    {
        Places {
            alloc,
            tags: BTreeMap::new(alloc),
        }
    }

    /// Adds a tag for a structure.
    pub(crate) fn add(&mut self, key: Key, tag: u64) -> Result<(), Memory>
        ensures { OnOk result (Collects self.old self.new (λ other. tags_if key other (tag ∷ []))) }
    {
        let tags = longer(self.alloc, self.tags.remove(&key), tag)?;
        self.tags.insert(key, tags)?;
        Ok(())
    }

    /// Takes the tags of one of the structures that are left.
    pub(crate) fn pop(&mut self) -> Option<(Key, Items<u64>)>
        ensures taken { MatchOption result (self.old ≡ []) (λ p. (held_for self.old p.0 ≡ Some p.1) × (p.1 ≢ [])) }
        ensures left { MatchOption result (self.new ≡ self.old) (λ p. IsHeld p.0 None self.old self.new × (length self.new < length self.old)) }
    {
        self.tags.pop_first()
    }
}

/// Tags with one more.
fn longer(alloc: Global, tags: Option<Items<u64>>, tag: u64) -> Result<Items<u64>, Memory>
    ensures { IfOk result (λ longer. longer ≡ unwrap_or tags [] ++ tag ∷ []) }
{
    let mut tags = match tags {
        Some(tags) => tags.into_vec(),
        None => Vec::new(alloc),
    };
    tags.push(tag)?;
    Ok(Items::from_vec(tags))
}
