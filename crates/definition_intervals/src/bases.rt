//! The bases of verdicts at consecutive ranges of tags.
ghost use Rattle.std.specs.Prelude.{◌≡◌, ◌≤◌, ◌-◌, true, [], ◌++◌, ◌∷◌, Some, IfOk, OnOk, OnErr, length, slice_get};
ghost use Rattle.std.specs.Option.{option_copied};
ghost use Rattle.definition_intervals.specs.Bases.{KeepsHeld};

use crate::answer::Basis;
use crate::equality::is_same_basis;
use hk_base::Memory;
use std::alloc::Global;
use std::marker::Model;

/// A list of bases, one for each range. Neighbours that are the same are held once.
#[derive(Debug, Drop)]
pub struct Bases {
    held: Vec<Basis>,
    /// For each range the place of its basis among those that are held.
    places: Vec<usize>,
}

impl Model for Bases {
    ghost use Rattle.std.specs.Prelude.{◌<◌, List, length};
    ghost use Rattle.std.specs.List.{AllByRecursion};
    ghost use Rattle.definition_intervals.specs.Bases.{at_places};
    ghost use Rattle.definition_intervals.specs.declared.answer.Basis.{Basis};

    ghost Value = { List Basis };

    ghost view = { λ b. at_places b.held.items b.places.items };

    ghost invariant = { λ b. AllByRecursion (λ place. place < length b.held.items) b.places.items };
}

impl Bases {
    pub fn new(alloc: Global) -> Bases
        ensures { result ≡ [] }
    {
        Bases {
            held: Vec::new(alloc),
            places: Vec::new(alloc),
        }
    }

    /// The number of ranges.
    pub fn len(&self) -> usize
        ensures { result ≡ length self.now }
    {
        self.places.len()
    }

    /// The basis of a range, by its number from 0.
    pub fn get(&self, number: usize) -> Option<&Basis>
        ensures { option_copied result ≡ slice_get self.now number }
    {
        let place = self.places.get(number)?;
        self.held.get(*place)
    }

    /// Adds the basis of the next range.
    pub fn push(&mut self, basis: Basis) -> Result<(), Memory>
        ensures pushed { OnOk result (self.new ≡ self.old ++ basis ∷ []) }
        ensures same { OnErr result (self.new ≡ self.old) }
    {
        let place = hold(&mut self.held, basis)?;
        self.places.push(place)?;
        Ok(())
    }
}

/// Holds a basis, unless it is the last one that is held: the place where it stands.
fn hold(held: &mut Vec<Basis>, basis: Basis) -> Result<usize, Memory>
    ensures place { IfOk result (λ place. slice_get held.new.items place ≡ Some basis) }
    ensures kept { KeepsHeld held.old.items held.new.items }
{
    if !is_last(held, &basis) {
        held.push(basis)?;
    }
    Ok(held.len() - 1)
}

fn is_last(held: &[Basis], basis: &Basis) -> bool
    ensures { result ≡ true → slice_get held.now (length held.now - 1) ≡ Some basis.now }
{
    match held.last() {
        Some(last) => is_same_basis(last, basis),
        None => false,
    }
}
