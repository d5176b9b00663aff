//! What the openings of a structure leave, narrowed by one opening after the other.
ghost use Rattle.std.specs.Prelude.{◌≡◌, IfOk, IfSome, All};
ghost use Rattle.report_structures.specs.Changes.{IsFormedState};
ghost use Rattle.definition_intervals.specs.Openings as openings;
ghost use Rattle.definition_intervals.specs.Findings as findings;
ghost use Rattle.definition_intervals.specs.Findings.{IsFormedOpening, AreCommon};
ghost use Rattle.definition_intervals.specs.Bases.{IsBasis, IsFormedBasis};

use crate::answer::Basis;
use crate::gathering::openings;
use crate::naming::named_request;
use crate::opening::Opening;
use crate::states::{has_state, possible_states};
use ground_history::History;
use hk_base::{Items, Key, Memory, Structure, Tailoring};
use std::alloc::Global;

/// The basis of verdicts on reports of a structure with this tag.
pub fn basis_at(alloc: Global, history: &History, key: Key, tag: u64) -> Result<Basis, Memory>
    ensures basis { IfOk result (IsBasis history.now.tailoring (openings.openings history.now.tailoring history.now.history key tag)) }
    ensures formed { IfOk result (IsFormedBasis history.now.tailoring) }
{
    let tailoring = history.tailoring();
    let openings = openings(alloc, history, key, tag)?;
    basis_of(alloc, tailoring, openings.as_slice())
}

/// The basis of verdicts from all openings of a structure.
pub fn basis_of(
    alloc: Global,
    tailoring: &Tailoring,
    openings: &[Opening<'_>],
) -> Result<Basis, Memory>
    requires { All (IsFormedOpening tailoring.now) openings.now }
    ensures basis { IfOk result (IsBasis tailoring.now openings.now) }
    ensures formed { IfOk result (IsFormedBasis tailoring.now) }
{
    if openings.is_empty() {
        return Ok(Basis::NoOpening);
    }
    let number = named_request(openings);
    match common_states(alloc, tailoring, openings)? {
        Some(states) => Ok(Basis::Open(states, number)),
        None => Ok(Basis::Crowded(number)),
    }
}

/// The states that are possible from each opening that isn't crowded, each once; None where all are crowded.
fn common_states(
    alloc: Global,
    tailoring: &Tailoring,
    openings: &[Opening<'_>],
) -> Result<Option<Items<Option<Structure>>>, Memory>
    requires { All (IsFormedOpening tailoring.now) openings.now }
    ensures common { IfOk result (AreCommon tailoring.now openings.now) }
    ensures formed { IfOk result (λ found. IfSome found (All (IsFormedState tailoring.now))) }
{
    let mut common = None;
    for opening in openings {
        let found = possible_states(alloc, tailoring, opening)?;
        common = narrowed(alloc, common, found)?;
    }
    Ok(common)
}

/// What one more opening leaves of the states that are possible so far.
fn narrowed(
    alloc: Global,
    common: Option<Items<Option<Structure>>>,
    found: Option<Items<Option<Structure>>>,
) -> Result<Option<Items<Option<Structure>>>, Memory>
    ensures { IfOk result (λ left. left ≡ findings.narrowed common found) }
{
    let Some(found) = found else {
        return Ok(common);
    };
    match common {
        Some(states) => Ok(Some(shared_states(alloc, states, found.as_slice())?)),
        None => Ok(Some(found)),
    }
}

/// The states that are among others, too.
pub(crate) fn shared_states(
    alloc: Global,
    states: Items<Option<Structure>>,
    others: &[Option<Structure>],
) -> Result<Items<Option<Structure>>, Memory>
    ensures { IfOk result (λ shared. shared ≡ findings.shared_states states others.now) }
{
    let mut shared = Vec::new(alloc);
    for state in states.into_vec() {
        if has_state(others, state.as_ref()) {
            shared.push(state)?;
        }
    }
    Ok(Items::from_vec(shared))
}
