//! The verdict from what the openings of a structure leave.
ghost use Rattle.std.specs.Prelude.{◌≡◌, ◌≤◌, ℕ, List, [], Ok, IfOk, All, length, filter_map, is_ok};
ghost use Rattle.std.specs.List.{cons_option};
ghost use Rattle.std.specs.Option.{option_copied};
ghost use Rattle.hk_base.specs.Definitions.{IsWellFormed};
ghost use Rattle.report_structures.specs.Changes.{IsFormedState};
ghost use Rattle.definition_intervals.specs.Verdicts as verdicts;
ghost use Rattle.definition_intervals.specs.Verdicts.{verdict_by, verdict_of};
ghost use Rattle.definition_intervals.specs.Findings.{is_agreed};
ghost use Rattle.definition_intervals.specs.Bases as bases;
ghost use Rattle.definition_intervals.specs.Bases.{IsBasis, IsFormedBasis};
ghost use Rattle.definition_intervals.specs.Openings.{Opening};

use crate::answer::{Basis, Verdict};
use crate::equality::is_same_definition;
use crate::narrowing::basis_at;
use ground_history::History;
use hk_base::{Definition, Key, Memory, PayloadFault, Structure, Tailoring, slot_of};
use sample_slots::read_payload;
use std::alloc::Global;

/// The verdict on a report of a structure with this tag and payload, by what is known.
pub fn verdict(
    alloc: Global,
    history: &History,
    key: Key,
    tag: u64,
    payload: &[u8],
) -> Result<Verdict, Memory>
    requires { length payload.now ≤ 2147483648 }
    ensures { IfOk result (λ verdict. verdict ≡ verdicts.verdict history.now.tailoring history.now.history key tag payload.now) }
{
    let tailoring = history.tailoring();
    let basis = basis_at(alloc, history, key, tag)?;
    verdict_on(alloc, tailoring, &basis, tag, payload)
}

/// The verdict on a report with this tag and payload, from the basis of verdicts on its structure's reports with the tag.
pub fn verdict_on(
    alloc: Global,
    tailoring: &Tailoring,
    basis: &Basis,
    tag: u64,
    payload: &[u8],
) -> Result<Verdict, Memory>
    requires formed { IsFormedBasis tailoring.now basis.now }
    requires limit { length payload.now ≤ 2147483648 }
    ensures verdict { IfOk result (λ verdict. verdict ≡ bases.verdict_on tailoring.now tag payload.now basis.now) }
    ensures of_openings { (os : List Opening) → IsBasis tailoring.now os basis.now
        → IfOk result (λ verdict. verdict ≡ verdict_of tailoring.now tag payload.now os) }
{
    match basis {
        Basis::NoOpening => Ok(Verdict::NoOpening),
        Basis::Crowded(number) => Ok(Verdict::Crowded(*number)),
        Basis::Open(states, number) => {
            let states = states.as_slice();
            verdict_among(alloc, tailoring, tag, payload, states, *number)
        }
    }
}

/// The verdict by the definitions of the states that explain the report.
fn verdict_among(
    alloc: Global,
    tailoring: &Tailoring,
    tag: u64,
    payload: &[u8],
    states: &[Option<Structure>],
    number: u64,
) -> Result<Verdict, Memory>
    requires formed { All (IsFormedState tailoring.now) states.now }
    requires limit { length payload.now ≤ 2147483648 }
    ensures { IfOk result (λ verdict. verdict ≡ verdict_by (filter_map (verdicts.explanation tailoring.now tag payload.now) states.now) number) }
{
    let mut only = None;
    for state in states {
        if let Some(def) = explanation(alloc, tailoring, tag, payload, state.as_ref())? {
            if !agrees(only, def) {
                return Ok(Verdict::Undecidable(number));
            }
            only = Some(def);
        }
    }
    decided(alloc, only)
}

fn agrees(only: Option<&Definition>, def: &Definition) -> bool
    ensures { result ≡ is_agreed (option_copied only.entry) def.now }
{
    match only {
        Some(only) => is_same_definition(only, def),
        None => true,
    }
}

fn decided(alloc: Global, only: Option<&Definition>) -> Result<Verdict, Memory>
    ensures { IfOk result (λ verdict. (number : ℕ) → verdict ≡ verdict_by (cons_option (option_copied only.entry) []) number) }
{
    match only {
        Some(def) => Ok(Verdict::Decided(def.copy(alloc)?)),
        None => Ok(Verdict::Impossible),
    }
}

/// The definition of a state, where the report can have its payload under it.
fn explanation<'a>(
    alloc: Global,
    tailoring: &Tailoring,
    tag: u64,
    payload: &[u8],
    state: Option<&'a Structure>,
) -> Result<Option<&'a Definition>, Memory>
    requires formed { IsFormedState tailoring.now (option_copied state) }
    requires limit { length payload.now ≤ 2147483648 }
    ensures { IfOk result (λ def. option_copied def ≡ verdicts.explanation tailoring.now tag payload.now (option_copied state.entry)) }
{
    match state {
        Some(structure) if explains(alloc, tailoring, tag, payload, &structure.def)? => {
            Ok(Some(&structure.def))
        }
        _ => Ok(None),
    }
}

/// Whether a report with this tag can have this payload under a definition.
fn explains(
    alloc: Global,
    tailoring: &Tailoring,
    tag: u64,
    payload: &[u8],
    def: &Definition,
) -> Result<bool, Memory>
    requires formed { IsWellFormed tailoring.now def.now }
    requires limit { length payload.now ≤ 2147483648 }
    ensures { IfOk result (λ explains. explains ≡ verdicts.explains tailoring.now tag payload.now def.now) }
{
    if u64::from(def.interval) > slot_of(tailoring, tag) {
        return Ok(false);
    }
    match read_payload(alloc, tailoring, def, payload) {
        Ok(_) => Ok(true),
        Err(PayloadFault::Memory) => Err(Memory),
        Err(_) => Ok(false),
    }
}
