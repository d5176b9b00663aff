ghost use Rattle.std.specs.Prelude.{◌≡◌, ℕ, false, All, ◌||◌, ◌&&◌, ◌==◌, OnOk};
ghost use Rattle.std.specs.List.{list_any};
ghost use Rattle.ground_history.specs.Indexes.{is_marked, HasMark};

use hk_base::Memory;
use std::alloc::Global;
use std::collections::BTreeMap;
use std::marker::Model;

/// Instructions that are marked, by the number of their request and their own number in it, from 1.
#[derive(Debug, Drop)]
pub(crate) struct Marks {
    marks: BTreeMap<(u64, u32), bool>,
}

impl Model for Marks {
    ghost use Rattle.std.specs.Prelude.{ℕ, List, Bool};

    ghost Value = { List ((ℕ × ℕ) × Bool) };

    ghost view = { λ marks. marks.marks.entries };
}

impl Marks {
    pub(crate) fn new(alloc: Global) -> Marks
        ensures { (k step : ℕ) → is_marked result k step ≡ false }
    {
        Marks {
            marks: BTreeMap::new(alloc),
        }
    }

    /// Whether an instruction of a request is marked.
    pub(crate) fn is_marked(&self, request: u64, step: u32) -> bool
        ensures { result ≡ is_marked self.now request step }
    {
        match self.marks.get(&(request, step)) {
            Some(mark) => *mark,
            None => false,
        }
    }

    /// Makes a place for each instruction, so that `mark` takes no memory.
    pub(crate) fn make_room(&mut self, request: u64, steps: &[u32]) -> Result<(), Memory>
        ensures marks { (k step : ℕ) → is_marked self.new k step ≡ is_marked self.old k step }
        ensures room { OnOk result (All (HasMark self.new request) steps.now) }
    {
        for step in steps {
            self.make_place(request, *step)?;
        }
        Ok(())
    }

    /// Marks instructions that have a place.
    pub(crate) fn mark(&mut self, request: u64, steps: &[u32])
        requires { All (HasMark self.old request) steps.now }
        ensures { (k step : ℕ) → is_marked self.new k step ≡ (is_marked self.old k step || (k == request && list_any (λ s. s == step) steps.now)) }
    {
        for step in steps {
            self.mark_one(request, *step);
        }
    }

    fn make_place(&mut self, request: u64, step: u32) -> Result<(), Memory>
        ensures marks { (k s : ℕ) → is_marked self.new k s ≡ is_marked self.old k s }
        ensures others { (k s : ℕ) → HasMark self.old k s → HasMark self.new k s }
        ensures room { OnOk result (HasMark self.new request step) }
    {
        if !self.marks.contains_key(&(request, step)) {
            self.marks.insert((request, step), false)?;
        }
        Ok(())
    }

    fn mark_one(&mut self, request: u64, step: u32)
        requires { HasMark self.old request step }
        ensures marks { (k s : ℕ) → is_marked self.new k s ≡ (is_marked self.old k s || (k == request && step == s)) }
        ensures others { (k s : ℕ) → HasMark self.old k s → HasMark self.new k s }
    {
        let Ok(_) = self.marks.insert((request, step), true) else {
            unreachable!();
        };
    }
}
