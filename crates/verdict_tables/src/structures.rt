//! The ranges of structures, by their keys.
ghost use Rattle.std.specs.Prelude.{◌≡◌, [], Some, OnOk};
ghost use Rattle.std.specs.Option.{option_copied};
ghost use Rattle.verdict_tables.specs.Collecting.{IsHeld, held_for};

use crate::ranges::Ranges;
use hk_base::{Key, Memory};
use std::alloc::Global;
use std::collections::BTreeMap;
use std::marker::Model;

/// The ranges of each structure that has some.
#[derive(Drop)]
pub(crate) struct Structures {
    ranges: BTreeMap<Key, Ranges>,
}

impl Model for Structures {
    ghost use Rattle.std.specs.Prelude.{List};
    ghost use Rattle.hk_base.specs.declared.types.Key.{Key};
    ghost use Rattle.verdict_tables.specs.Tables.{RangeParts};

    ghost Value = { List (Key × RangeParts) };

    ghost view = { λ s. s.ranges.entries };
}

impl Structures {
    pub(crate) fn new(alloc: Global) -> Structures
        ensures { result ≡ [] }
    {
        Structures {
            ranges: BTreeMap::new(alloc),
        }
    }

    pub(crate) fn get(&self, key: Key) -> Option<&Ranges>
        ensures { option_copied result ≡ held_for self.now key }
    {
        self.ranges.get(&key)
    }

    /// Puts ranges for a structure, in the place of those that it has.
    pub(crate) fn insert(&mut self, key: Key, ranges: Ranges) -> Result<(), Memory>
        ensures { OnOk result (IsHeld key (Some ranges) self.old self.new) }
    {
        self.ranges.insert(key, ranges)?;
        Ok(())
    }
}
