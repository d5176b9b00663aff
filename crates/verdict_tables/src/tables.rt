//! Tables of the ranges of tags of all structures.
ghost use Rattle.std.specs.Prelude.{◌≡◌, ◌+◌, ◌-◌, ◌*◌, ◌^◌, ◌≤◌, ℕ, [], None, Bool, false, IfOk, OnOk, OnErr, length};
ghost use Rattle.std.specs.Option.{option_copied};
ghost use Rattle.hk_base.specs.TailoringParts.{TailoringParts};
ghost use Rattle.ground_history.specs.Histories.{new_history};
ghost use Rattle.ground_history.specs.Ground.{Ground};
ghost use Rattle.definition_intervals.specs.Verdicts as verdicts;
ghost use Rattle.verdict_tables.specs.Places.{most_ranges};
ghost use Rattle.verdict_tables.specs.Tables.{StandsFor, HasRanges, table_verdict, range_count, ranges_of};

use crate::building::built;
use crate::ranges::Ranges;
use crate::start::start_basis;
use crate::steps::Steps;
use crate::structures::Structures;
use definition_intervals::{Verdict, bases_decide, verdict_on};
use ground_history::History;
use hk_base::{Key, Memory, Tailoring};
use std::alloc::Global;
use std::marker::Model;
use std::sync::ledger::Ledger;

/// What verdicts on parameter reports rest on, by ranges of tags for each structure.
#[derive(Drop)]
pub struct Tables {
    alloc: Global,
    /// None before they are valid for a history.
    tailoring: Option<Tailoring>,
    known: bool,
    structures: Structures,
}

impl Model for Tables {
    ghost use Rattle.verdict_tables.specs.Tables.{TableParts, AreFormed};

    ghost Value = { TableParts };

    ghost view = { λ t. record { tailoring = t.tailoring; known = t.known; structures = t.structures } };

    ghost invariant = { λ t. AreFormed (record { tailoring = t.tailoring; known = t.known; structures = t.structures }) };
}

impl Tables {
    /// Tables for an unknown start and no entries.
    pub fn new(alloc: Global) -> Tables
        ensures parts { result ≡ record { tailoring = None; known = false; structures = [] } }
        ensures stands { (t : TailoringParts) (long : Bool) → StandsFor result (record { tailoring = t; history = new_history false long }) }
    {
        Tables {
            alloc,
            tailoring: None,
            known: false,
            structures: Structures::new(alloc),
        }
    }

    /// Makes the tables valid for a history; when memory runs out they are as before.
    pub fn mend(&mut self, history: &History) -> Result<(), Memory>
        ensures stands { OnOk result (StandsFor self.new history.now) }
        ensures same { OnErr result (self.new ≡ self.old) }
    {
        bases_decide();
        let tailoring = history.tailoring().copy(self.alloc)?;
        let structures = built(self.alloc, history)?;
        self.tailoring = Some(tailoring);
        self.known = history.known();
        self.structures = structures;
        Ok(())
    }

    /// The verdict on a report of a structure with this tag and payload, in time with the logarithm of the number of ranges.
    pub fn verdict<L: Ledger>(
        &self,
        alloc: Global,
        key: Key,
        tag: u64,
        payload: &[u8],
        steps: &mut Steps<L>,
    ) -> Result<Verdict, Memory>
        requires { length payload.now ≤ 2147483648 }
        ensures verdict { IfOk result (λ verdict. verdict ≡ table_verdict self.now key tag payload.now) }
        ensures known { (g : Ground) → StandsFor self.now g → IfOk result (λ verdict. verdict ≡ verdicts.verdict g.tailoring g.history key tag payload.now) }
        ensures more { steps.old ≤ steps.new }
        ensures cost { 2 ^ (steps.new - steps.old) ≤ 2 * range_count self.now key + 1 }
        ensures bound { (g : Ground) → StandsFor self.now g → 2 ^ (steps.new - steps.old) ≤ 2 * most_ranges g.history key + 1 }
    {
        let Some(tailoring) = &self.tailoring else {
            return Ok(Verdict::NoOpening);
        };
        match self.ranges(key) {
            Some(ranges) => {
                let basis = ranges.basis_in(tag, steps);
                verdict_on(alloc, tailoring, basis, tag, payload)
            }
            None => {
                let basis = start_basis(alloc, tailoring, self.known, key)?;
                verdict_on(alloc, tailoring, &basis, tag, payload)
            }
        }
    }

    /// The ranges of a structure; None exactly where no kept report tells of it and no request can change it.
    pub fn ranges(&self, key: Key) -> Option<&Ranges>
        ensures ranges { option_copied result ≡ ranges_of self.now key }
        ensures known { (g : Ground) → StandsFor self.now g → HasRanges g.history key (option_copied result) }
    {
        self.structures.get(key)
    }
}
