//! The ranges of tags of one structure.
ghost use Rattle.std.specs.Prelude.{◌≡◌, ◌+◌, ◌-◌, ◌*◌, ◌^◌, ◌<◌, ◌≤◌, Some, length, slice_get};
ghost use Rattle.verdict_tables.specs.Tables.{IsRanges, IsSearched, basis_in};

use crate::steps::Steps;
use definition_intervals::{Bases, Basis};
use std::marker::Model;
use std::sync::ledger::Ledger;

/// Where the ranges of tags of a structure begin, and the basis of verdicts in each.
#[derive(Debug, Drop)]
pub struct Ranges {
    firsts: Vec<u64>,
    bases: Bases,
}

impl Model for Ranges {
    ghost use Rattle.verdict_tables.specs.Tables.{RangeParts, IsRanges};

    ghost Value = { RangeParts };

    ghost view = { λ r. record { firsts = r.firsts.items; bases = r.bases } };

    ghost invariant = { λ r. IsRanges (record { firsts = r.firsts.items; bases = r.bases }) };
}

impl Ranges {
    pub(crate) fn new(firsts: Vec<u64>, bases: Bases) -> Ranges
        requires { IsRanges (record { firsts = firsts.items; bases = bases }) }
        ensures { result ≡ record { firsts = firsts.items; bases = bases } }
    {
        Ranges { firsts, bases }
    }

    /// The number of ranges.
    pub fn len(&self) -> u32
        ensures len { result ≡ length self.now.firsts }
        ensures ranges { IsRanges self.now }
    {
        self.firsts.len() as u32
    }

    /// The first tags of all ranges.
    pub(crate) fn firsts(&self) -> &[u64]
        ensures { result.now ≡ self.now.firsts }
    {
        self.firsts.as_slice()
    }

    /// The first tag of a range, by its number from 0. It is one step.
    pub fn first<L: Ledger>(&self, number: u32, steps: &mut Steps<L>) -> u64
        requires { number < length self.now.firsts }
        ensures first { slice_get self.now.firsts number ≡ Some result }
        ensures cost { steps.new ≡ steps.old + 1 }
    {
        steps.tick();
        self.firsts[number as usize]
    }

    /// The basis in the last range that begins at this tag or before it.
    pub(crate) fn basis_in<L: Ledger>(&self, tag: u64, steps: &mut Steps<L>) -> &Basis
        ensures basis { result.now ≡ basis_in self.now tag }
        ensures more { steps.old ≤ steps.new }
        ensures cost { 2 ^ (steps.new - steps.old) ≤ 2 * length self.now.firsts }
    {
        let number = self.number_at(tag, steps);
        let Some(basis) = self.bases.get(number as usize) else {
            unreachable!();
        };
        basis
    }

    /// The number of the last range that begins at this tag or before it, by binary search.
    fn number_at<L: Ledger>(&self, tag: u64, steps: &mut Steps<L>) -> u32
        ensures number { IsSearched self.now tag result }
        ensures more { steps.old ≤ steps.new }
        ensures cost { 2 ^ (steps.new - steps.old) ≤ 2 * length self.now.firsts }
    {
        let mut last = 0;
        let mut end = self.len();
        while end - last > 1 {
            let middle = last + (end - last) / 2;
            if self.first(middle, steps) <= tag {
                last = middle;
            } else {
                end = middle;
            }
        }
        last
    }
}
