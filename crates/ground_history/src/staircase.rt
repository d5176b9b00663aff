ghost use Rattle.std.specs.Prelude.{◌≡◌, ◌<◌, ◌≤◌, ℕ, [], ◌∷◌, OnOk, OnErr, MatchOption};
ghost use Rattle.std.specs.List.{AllByRecursion};
ghost use Rattle.ground_history.specs.Stairs.{height_at, HasStep, IsLower};

use hk_base::Memory;
use std::alloc::Global;
use std::collections::BTreeMap;
use std::marker::Model;
use std::ops::Bound;

/// For each place the greatest height that was noted at it or before it. Only the steps at which that changes are kept.
#[derive(Debug, Drop)]
pub(crate) struct Staircase {
    steps: BTreeMap<u64, u128>,
}

impl Model for Staircase {
    ghost use Rattle.std.specs.Prelude.{ℕ, List};
    ghost use Rattle.ground_history.specs.Stairs.{IsRising};

    ghost Value = { List (ℕ × ℕ) };

    ghost view = { λ stairs. stairs.steps.entries };

    ghost invariant = { λ stairs. IsRising stairs.steps.entries };
}

impl Staircase {
    pub(crate) fn new(alloc: Global) -> Staircase
        ensures { result ≡ [] }
    {
        Staircase {
            steps: BTreeMap::new(alloc),
        }
    }

    /// The greatest height that was noted at the place or before it; 0 where there is none.
    pub(crate) fn height(&self, place: u64) -> u128
        ensures { result ≡ height_at self.now place }
    {
        let before = (Bound::Unbounded, Bound::Included(place));
        match self.steps.range(before).next_back() {
            Some((_, height)) => *height,
            None => 0,
        }
    }

    /// Makes a step at the place, as high as what stands there, so that `raise` takes no memory.
    pub(crate) fn make_room(&mut self, place: u64) -> Result<(), Memory>
        ensures heights { (k : ℕ) → height_at self.new k ≡ height_at self.old k }
        ensures room { OnOk result (HasStep self.new place) }
    {
        if self.steps.contains_key(&place) {
            return Ok(());
        }
        let height = self.height(place);
        self.steps.insert(place, height)?;
        Ok(())
    }

    /// Notes a height at a place that has a step.
    pub(crate) fn raise(&mut self, place: u64, height: u128)
        requires { HasStep self.old place }
        ensures { (k : ℕ) → height_at self.new k ≡ height_at ((place, height) ∷ self.old) k }
    {
        if height <= self.height(place) {
            return;
        }
        self.remove_lower(place, height);
        let Ok(_) = self.steps.insert(place, height) else {
            unreachable!();
        };
    }

    /// Removes the steps behind the place that aren't higher.
    fn remove_lower(&mut self, place: u64, height: u128)
        requires { HasStep self.old place }
        ensures heights { (k : ℕ) → height_at ((place, height) ∷ self.new) k ≡ height_at ((place, height) ∷ self.old) k }
        ensures step { HasStep self.new place }
        ensures behind { AllByRecursion (λ step. place < step.0 → height ≤ step.1) self.new }
    {
        while let Some(lower) = self.next_lower(place, height) {
            self.steps.remove(&lower);
        }
    }

    /// The next step behind the place, if it isn't higher.
    fn next_lower(&self, place: u64, height: u128) -> Option<u64>
        ensures { MatchOption result (AllByRecursion (λ step. place < step.0 → height ≤ step.1) self.now)
            (λ lower. (place < lower) × IsLower lower height self.now) }
    {
        let behind = (Bound::Excluded(place), Bound::Unbounded);
        let (lower, found) = self.steps.range(behind).next()?;
        if *found <= height { Some(*lower) } else { None }
    }
}
