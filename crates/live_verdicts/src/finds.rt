//! What is found of openings, each find once.
ghost use Rattle.std.specs.Prelude.{◌≡◌, true, ◌++◌, ◌∷◌, [], List, Option, Some, IfOk, OnOk, IfSome, All, map, unwrap_or};
ghost use Rattle.std.specs.Option.{option_copied};
ghost use Rattle.std.specs.List.{IsDistinct};
ghost use Rattle.hk_base.specs.TailoringParts.{TailoringParts};
ghost use Rattle.hk_base.specs.declared.types.Structure.{Structure};
ghost use Rattle.report_structures.specs.Changes.{IsFormedState};
ghost use Rattle.definition_intervals.specs.States.{state_eq};
ghost use Rattle.definition_intervals.specs.Findings.{IsFormedCandidate};
ghost use Rattle.definition_intervals.specs.Bases.{IsFormedBasis};
ghost use Rattle.definition_intervals.specs.Founds.{found_after_all, first_after_all, AreSameFound, IsFormedFound, IsCommon, IsBasisOf};
ghost use Rattle.live_verdicts.specs.Marks.{AreAlike, Finds, HasSame};

use definition_intervals::{
    Basis, Candidate, copied_found, copied_state, found_after, is_same_found, narrowed_by_found,
    same_is_found,
};
use hk_base::{Items, Memory, Structure, Tailoring};
use opening_sweeps::first_after;
use std::alloc::Global;

/// What is found of an opening after some requests, from what was found before them.
pub(crate) fn found_over(
    alloc: Global,
    tailoring: &Tailoring,
    requests: &[Candidate<'_>],
    found: Option<Items<Option<Structure>>>,
) -> Result<Option<Items<Option<Structure>>>, Memory>
    requires requests { All (IsFormedCandidate tailoring.now) requests.now }
    requires found { IsFormedFound tailoring.now found }
    ensures same { IfOk result (λ later. AreSameFound later (found_after_all tailoring.now requests.now found)) }
    ensures formed { IfOk result (IsFormedFound tailoring.now) }
{
    same_is_found();
    let mut found = found;
    for request in requests {
        found = found_after(alloc, tailoring, request, &found)?;
    }
    Ok(found)
}

/// What is found of an opening that begins with a state.
pub(crate) fn found_from(
    alloc: Global,
    tailoring: &Tailoring,
    state: Option<&Structure>,
    requests: &[Candidate<'_>],
) -> Result<Option<Items<Option<Structure>>>, Memory>
    requires requests { All (IsFormedCandidate tailoring.now) requests.now }
    requires state { IsFormedState tailoring.now (option_copied state) }
    ensures same { IfOk result (λ later. AreSameFound later (found_after_all tailoring.now requests.now (Some (option_copied state.entry ∷ [])))) }
    ensures formed { IfOk result (IsFormedFound tailoring.now) }
{
    found_over(alloc, tailoring, requests, begun(alloc, state)?)
}

/// What is found of a state before any request.
pub(crate) fn begun(
    alloc: Global,
    state: Option<&Structure>,
) -> Result<Option<Items<Option<Structure>>>, Memory>
    ensures { IfOk result (λ found. found ≡ Some (option_copied state.entry ∷ [])) }
{
    let mut states = Vec::new(alloc);
    states.push(copied_state(alloc, state)?)?;
    Ok(Some(Items::from_vec(states)))
}

/// Equal copies of finds.
pub(crate) fn copied_finds(
    alloc: Global,
    finds: &[Option<Items<Option<Structure>>>],
) -> Result<Vec<Option<Items<Option<Structure>>>>, Memory>
    ensures { IfOk result (λ copies. copies.items ≡ finds.now) }
{
    let mut copies = Vec::new(alloc);
    for found in finds {
        copies.push(copied_found(alloc, found)?)?;
    }
    Ok(copies)
}

/// The first open change after some requests.
pub(crate) fn first_over(requests: &[Candidate<'_>], first: Option<u64>) -> Option<u64>
    ensures { result ≡ first_after_all requests.now first }
{
    let mut first = first;
    for request in requests {
        first = first_after(request, first);
    }
    first
}

/// What is found of openings after some requests, from what was found before them.
pub(crate) fn finds_over(
    alloc: Global,
    tailoring: &Tailoring,
    requests: &[Candidate<'_>],
    finds: &[Option<Items<Option<Structure>>>],
) -> Result<Vec<Option<Items<Option<Structure>>>>, Memory>
    requires requests { All (IsFormedCandidate tailoring.now) requests.now }
    requires finds { All (IsFormedFound tailoring.now) finds.now }
    ensures alike { IfOk result (λ later. AreAlike (map (found_after_all tailoring.now requests.now) finds.now) later.items) }
    ensures formed { IfOk result (λ later. All (IsFormedFound tailoring.now) later.items) }
{
    let mut later = Vec::new(alloc);
    for found in finds {
        let found = copied_found(alloc, found)?;
        let found = found_over(alloc, tailoring, requests, found)?;
        add_find(found, &mut later)?;
    }
    Ok(later)
}

/// Adds a find, unless the same was found already.
pub(crate) fn add_find(
    found: Option<Items<Option<Structure>>>,
    finds: &mut Vec<Option<Items<Option<Structure>>>>,
) -> Result<(), Memory>
    ensures alike { OnOk result ((fs : Finds) (f : Option (List (Option Structure))) → AreSameFound found f
        → AreAlike fs finds.old.items → AreAlike (fs ++ f ∷ []) finds.new.items) }
    ensures formed { OnOk result ((t : TailoringParts) → IsFormedFound t found → All (IsFormedFound t) finds.old.items
        → All (IsFormedFound t) finds.new.items) }
{
    if has_same(finds, &found) {
        return Ok(());
    }
    finds.push(found)?;
    Ok(())
}

/// Whether the same was found already.
pub(crate) fn has_same(
    finds: &[Option<Items<Option<Structure>>>],
    found: &Option<Items<Option<Structure>>>,
) -> bool
    ensures { result ≡ true → HasSame finds.now found.now }
{
    for other in finds {
        if is_same_found(found, other) {
            return true;
        }
    }
    false
}

/// The basis of verdicts by all that is found, and the first open change of the latest opening.
pub(crate) fn basis_of_finds(
    alloc: Global,
    finds: &[Option<Items<Option<Structure>>>],
    first: Option<u64>,
) -> Result<Basis, Memory>
    requires { All (λ found. IfSome found (IsDistinct state_eq)) finds.now }
    ensures basis { IfOk result (IsBasisOf finds.now (unwrap_or first 0)) }
    ensures formed { IfOk result (λ basis. (t : TailoringParts) → All (IsFormedFound t) finds.now → IsFormedBasis t basis) }
{
    if finds.is_empty() {
        return Ok(Basis::NoOpening);
    }
    let number = first.unwrap_or(0);
    match common_states(alloc, finds)? {
        Some(states) => Ok(Basis::Open(states, number)),
        None => Ok(Basis::Crowded(number)),
    }
}

/// The states that all finds have in common; None where all are crowded.
fn common_states(
    alloc: Global,
    finds: &[Option<Items<Option<Structure>>>],
) -> Result<Option<Items<Option<Structure>>>, Memory>
    requires { All (λ found. IfSome found (IsDistinct state_eq)) finds.now }
    ensures common { IfOk result (IsCommon finds.now) }
    ensures formed { IfOk result (λ common. (t : TailoringParts) → All (IsFormedFound t) finds.now → IfSome common (All (IsFormedState t))) }
{
    let mut common = None;
    for found in finds {
        common = narrowed_by_found(alloc, common, found)?;
    }
    Ok(common)
}
