//! What is found of the states that are possible from an opening, one request after the other.
ghost use Rattle.std.specs.Prelude.{◌≡◌, ◌∷◌, [], IfOk, None, Some, All};
ghost use Rattle.report_structures.specs.Changes.{IsFormedState};
ghost use Rattle.definition_intervals.specs.Findings.{IsFormedCandidate};
ghost use Rattle.definition_intervals.specs.Founds as founds;
ghost use Rattle.definition_intervals.specs.Founds.{AreSameFound, IsFormedFound, OpeningsAreFound, SameIsFound, FindsGiveBases, ChangesAreFormed, ReportedStatesAreFormed};

use crate::gathering::surely_creates;
use crate::opening::Candidate;
use crate::states::{MOST_STATES, states_after};
use hk_base::{Items, Memory, Structure, Tailoring};
use std::alloc::Global;

/// What is found after one more request of an opening: the possible states, each once, or None where there are too many.
pub fn found_after(
    alloc: Global,
    tailoring: &Tailoring,
    request: &Candidate<'_>,
    found: &Option<Items<Option<Structure>>>,
) -> Result<Option<Items<Option<Structure>>>, Memory>
    requires grammar { IsFormedCandidate tailoring.now request.now }
    requires formed { IsFormedFound tailoring.now found.now }
    ensures same { IfOk result (λ after. AreSameFound after (founds.found_after tailoring.now request.now found.now)) }
    ensures formed { IfOk result (IsFormedFound tailoring.now) }
{
    if surely_creates(request) {
        return found_by_creation(alloc, tailoring, request);
    }
    match found {
        Some(states) => found_by(alloc, tailoring, request, states.as_slice()),
        None => Ok(None),
    }
}

/// What is found after a creation of an absent structure.
fn found_by_creation(
    alloc: Global,
    tailoring: &Tailoring,
    request: &Candidate<'_>,
) -> Result<Option<Items<Option<Structure>>>, Memory>
    requires { IsFormedCandidate tailoring.now request.now }
    ensures same { IfOk result (λ after. AreSameFound after (founds.found_by tailoring.now request.now (Some (None ∷ [])))) }
    ensures formed { IfOk result (IsFormedFound tailoring.now) }
{
    let mut absent = Vec::new(alloc);
    absent.push(None)?;
    found_by(alloc, tailoring, request, &absent)
}

/// What is found after a request that was left out or taken in each of some states.
fn found_by(
    alloc: Global,
    tailoring: &Tailoring,
    request: &Candidate<'_>,
    states: &[Option<Structure>],
) -> Result<Option<Items<Option<Structure>>>, Memory>
    requires grammar { IsFormedCandidate tailoring.now request.now }
    requires formed { All (IsFormedState tailoring.now) states.now }
    ensures same { IfOk result (λ after. AreSameFound after (founds.found_by tailoring.now request.now (Some states.now))) }
    ensures formed { IfOk result (IsFormedFound tailoring.now) }
{
    let after = states_after(alloc, tailoring, request, states)?;
    if after.len() > MOST_STATES {
        return Ok(None);
    }
    Ok(Some(Items::from_vec(after)))
}

/// What is possible from an opening, and its first open change, are found request by request.
pub fn openings_are_found()
    ensures { OpeningsAreFound }
{}

/// The same is found after a request of what was the same before it.
pub fn same_is_found()
    ensures { SameIsFound }
{}

/// What the finds of openings leave is the basis of verdicts.
pub fn finds_give_bases()
    ensures { FindsGiveBases }
{}

/// The change that a request of the grammar makes of a structure is one of the grammar.
pub fn changes_are_formed()
    ensures { ChangesAreFormed }
{}

/// The state that a report of the grammar tells is valid, the size of its payload aside.
pub fn reported_states_are_formed()
    ensures { ReportedStatesAreFormed }
{}
