//! What was found of the possible states: copied, compared and narrowed.
ghost use Rattle.std.specs.Prelude.{◌≡◌, ◌++◌, ◌∷◌, [], true, IfOk, IfSome, All, List, Option, None, Some};
ghost use Rattle.hk_base.specs.declared.types.Structure.{Structure};
ghost use Rattle.std.specs.List.{IsDistinct, list_all, list_any};
ghost use Rattle.definition_intervals.specs.States.{state_eq};
ghost use Rattle.report_structures.specs.Changes.{IsFormedState};
ghost use Rattle.hk_base.specs.TailoringParts.{TailoringParts};
ghost use Rattle.definition_intervals.specs.Founds.{AreSameFound, IsFormedFound, IsCommon};

use crate::narrowing::shared_states;
use crate::states::{copied_state, has_state};
use hk_base::{Items, Memory, Structure};
use std::alloc::Global;

/// An equal copy of what was found.
pub fn copied_found(
    alloc: Global,
    found: &Option<Items<Option<Structure>>>,
) -> Result<Option<Items<Option<Structure>>>, Memory>
    ensures { IfOk result (λ copy. copy ≡ found.now) }
{
    match found {
        Some(states) => Ok(Some(copied_states(alloc, states.as_slice())?)),
        None => Ok(None),
    }
}

/// Equal copies of states.
fn copied_states(
    alloc: Global,
    states: &[Option<Structure>],
) -> Result<Items<Option<Structure>>, Memory>
    ensures { IfOk result (λ copies. copies ≡ states.now) }
{
    let mut copies = Vec::new(alloc);
    for state in states {
        copies.push(copied_state(alloc, state.as_ref())?)?;
    }
    Ok(Items::from_vec(copies))
}

/// Whether the same was found twice; false may be said of equal sets that were found in other ways.
pub fn is_same_found(
    a: &Option<Items<Option<Structure>>>,
    b: &Option<Items<Option<Structure>>>,
) -> bool
    ensures { result ≡ true → AreSameFound a.now b.now }
{
    match (a, b) {
        (Some(a), Some(b)) => are_same_states(a.as_slice(), b.as_slice()),
        (None, None) => true,
        _ => false,
    }
}

fn are_same_states(a: &[Option<Structure>], b: &[Option<Structure>]) -> bool
    ensures { result ≡ true → AreSameFound (Some a.now) (Some b.now) }
{
    if a.len() != b.len() {
        return false;
    }
    are_among(a, b) && are_among(b, a)
}

/// Whether each of some states is among others.
fn are_among(states: &[Option<Structure>], others: &[Option<Structure>]) -> bool
    ensures { result ≡ list_all (λ s. list_any (state_eq s) others.now) states.now }
{
    states.iter().all(|state| has_state(others, state.as_ref()))
}

/// What one more find leaves of the states that all finds so far have in common; None where all were crowded.
pub fn narrowed_by_found(
    alloc: Global,
    common: Option<Items<Option<Structure>>>,
    found: &Option<Items<Option<Structure>>>,
) -> Result<Option<Items<Option<Structure>>>, Memory>
    ensures common { IfOk result (λ left. (founds : List (Option (List (Option Structure)))) → IfSome found.now (IsDistinct state_eq)
        → IsCommon founds common → IsCommon (founds ++ found.now ∷ []) left) }
    ensures formed { IfOk result (λ left. (t : TailoringParts) → IfSome common (All (IsFormedState t)) → IsFormedFound t found.now
        → IfSome left (All (IsFormedState t))) }
{
    let Some(found) = found else {
        return Ok(common);
    };
    let found = found.as_slice();
    match common {
        Some(states) => Ok(Some(shared_states(alloc, states, found)?)),
        None => Ok(Some(copied_states(alloc, found)?)),
    }
}
