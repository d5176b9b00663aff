//! The states of a structure that choices among requests can lead to.
ghost use Rattle.std.specs.Prelude.{◌≡◌, ◌∷◌, [], IfOk, OnOk, IfSome, All, flat_map, option_to_list, if◌then◌else◌};
ghost use Rattle.std.specs.List.{list_any};
ghost use Rattle.std.specs.Option.{option_copied};
ghost use Rattle.st03_grammar.specs.Instructions.{change_of};
ghost use Rattle.report_structures.specs.Effects.{effect};
ghost use Rattle.report_structures.specs.Changes.{IsFormedState};
ghost use Rattle.definition_intervals.specs.States.{state_eq, agreed_states, next_states};
ghost use Rattle.definition_intervals.specs.Findings.{IsFormedCandidate, IsFormedOpening, IsSetOf, Adds, AreFound};

use crate::equality::is_same_state;
use crate::opening::{Candidate, Opening};
use ground_history::Outcome;
use hk_base::{Items, Memory, Structure, Tailoring};
use report_structures::{ApplyFault, apply};
use st03_grammar::Change;
use std::alloc::Global;

/// Most states that are possible from an opening that isn't crowded.
pub(crate) const MOST_STATES: usize = 64;

/// The states that are possible from an opening, each once; None where the opening is crowded.
pub fn possible_states(
    alloc: Global,
    tailoring: &Tailoring,
    opening: &Opening<'_>,
) -> Result<Option<Items<Option<Structure>>>, Memory>
    requires { IsFormedOpening tailoring.now opening.now }
    ensures found { IfOk result (AreFound tailoring.now opening.now) }
    ensures formed { IfOk result (λ found. IfSome found (All (IsFormedState tailoring.now))) }
{
    let mut states = only_state(alloc, opening.state)?;
    for request in opening.requests.as_slice() {
        states = states_after(alloc, tailoring, request, &states)?;
        if states.len() > MOST_STATES {
            return Ok(None);
        }
    }
    Ok(Some(Items::from_vec(states)))
}

fn only_state(alloc: Global, state: Option<&Structure>) -> Result<Vec<Option<Structure>>, Memory>
    ensures { IfOk result (λ states. states.items ≡ option_copied state.entry ∷ []) }
{
    let mut states = Vec::new(alloc);
    states.push(copied_state(alloc, state)?)?;
    Ok(states)
}

/// The states after a request that was left out or taken in each of these, each once.
pub(crate) fn states_after(
    alloc: Global,
    tailoring: &Tailoring,
    request: &Candidate<'_>,
    states: &[Option<Structure>],
) -> Result<Vec<Option<Structure>>, Memory>
    requires grammar { IsFormedCandidate tailoring.now request.now }
    requires formed { All (IsFormedState tailoring.now) states.now }
    ensures { IfOk result (λ after. IsSetOf after.items (flat_map (next_states tailoring.now request.now) states.now)) }
{
    let mut after = Vec::new(alloc);
    for state in states {
        add_next(alloc, tailoring, request, state.as_ref(), &mut after)?;
    }
    Ok(after)
}

/// Adds the states after a request that was left out or taken.
fn add_next(
    alloc: Global,
    tailoring: &Tailoring,
    request: &Candidate<'_>,
    before: Option<&Structure>,
    states: &mut Vec<Option<Structure>>,
) -> Result<(), Memory>
    requires grammar { IsFormedCandidate tailoring.now request.now }
    requires formed { IsFormedState tailoring.now (option_copied before) }
    ensures { OnOk result (Adds states.old.items states.new.items (next_states tailoring.now request.now (option_copied before.entry))) }
{
    add_skipped(alloc, request, before, states)?;
    let agreed = agreed_state(alloc, tailoring, request, before)?;
    add_agreed(states, agreed)
}

/// Adds the state after a request that was left out, which it can be unless it is certain.
fn add_skipped(
    alloc: Global,
    request: &Candidate<'_>,
    before: Option<&Structure>,
    states: &mut Vec<Option<Structure>>,
) -> Result<(), Memory>
    ensures { OnOk result (Adds states.old.items states.new.items (if request.now.certain then [] else option_copied before.entry ∷ [])) }
{
    if request.certain {
        return Ok(());
    }
    add_state(states, copied_state(alloc, before)?)
}

fn add_agreed(
    states: &mut Vec<Option<Structure>>,
    agreed: Option<Option<Structure>>,
) -> Result<(), Memory>
    ensures { OnOk result (Adds states.old.items states.new.items (option_to_list agreed)) }
{
    match agreed {
        Some(state) => add_state(states, state),
        None => Ok(()),
    }
}

/// The state after a request that was taken; None where the effect is otherwise than what is known of the outcome.
fn agreed_state(
    alloc: Global,
    tailoring: &Tailoring,
    request: &Candidate<'_>,
    before: Option<&Structure>,
) -> Result<Option<Option<Structure>>, Memory>
    requires grammar { IsFormedCandidate tailoring.now request.now }
    requires formed { IsFormedState tailoring.now (option_copied before) }
    ensures { IfOk result (λ agreed. option_to_list agreed
        ≡ agreed_states request.now.outcome (option_copied before.entry) (effect tailoring.now request.now.change (option_copied before.entry))) }
{
    match apply(alloc, tailoring, lent(&request.change), before) {
        Ok(after) => match request.outcome {
            Outcome::Refused => Ok(None),
            Outcome::Done | Outcome::Unknown => Ok(Some(after)),
        },
        Err(ApplyFault::Refused(_)) => match request.outcome {
            Outcome::Done => Ok(None),
            Outcome::Refused | Outcome::Unknown => Ok(Some(copied_state(alloc, before)?)),
        },
        Err(ApplyFault::Memory) => Err(Memory),
    }
}

/// Adds a state, unless it is there.
fn add_state(states: &mut Vec<Option<Structure>>, state: Option<Structure>) -> Result<(), Memory>
    ensures { OnOk result (Adds states.old.items states.new.items (state ∷ [])) }
{
    if !has_state(states, state.as_ref()) {
        states.push(state)?;
    }
    Ok(())
}

/// Whether a state is among some.
pub(crate) fn has_state(states: &[Option<Structure>], state: Option<&Structure>) -> bool
    ensures { result ≡ list_any (state_eq (option_copied state.entry)) states.now }
{
    states
        .iter()
        .any(|other| is_same_state(state, other.as_ref()))
}

/// An equal state.
pub fn copied_state(alloc: Global, state: Option<&Structure>) -> Result<Option<Structure>, Memory>
    ensures { IfOk result (λ copy. copy ≡ option_copied state.entry) }
{
    match state {
        Some(structure) => Ok(Some(structure.copy(alloc)?)),
        None => Ok(None),
    }
}

/// The same change, lent again.
fn lent<'a>(change: &Change<'a>) -> Change<'a>
    ensures { change_of result ≡ change_of change.now }
{
    match change {
        Change::Create(def) => Change::Create(def),
        Change::Append(added) => Change::Append(added),
        Change::Interval(interval) => Change::Interval(*interval),
        Change::Plain(each) => Change::Plain(*each),
    }
}
