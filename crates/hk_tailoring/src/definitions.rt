//! Whether a definition that a document states is valid.
ghost use Rattle.std.specs.Prelude.{◌≡◌, ◌≤◌, ◌++◌, ◌∷◌, [], ℕ, List, ◌==◌, ◌||◌, ◌%◌, false, IfOk, OnOk, IsTrue, All, codes, length, map, is_some, find};
ghost use Rattle.std.specs.List.{AllByRecursion, list_any};
ghost use Rattle.hk_base.specs.Definitions.{parameter_ids as ids_of, first_repeat, IsWellFormed};
ghost use Rattle.hk_base.specs.Fit.{IsFitWidths, IsFitParam, IsWithin};
ghost use Rattle.hk_base.specs.Payload.{IsValid};
ghost use Rattle.hk_base.specs.declared.types.Param.{Param};
ghost use Rattle.hk_tailoring.specs.Checks.{Passes};
ghost use Rattle.hk_tailoring.specs.Ids.{has_id, AreSame, AreIdsOf};
ghost use Rattle.hk_tailoring.specs.Keys.{section_of};
ghost use Rattle.hk_tailoring.specs.Sizes.{IsFitDefinition};
ghost use Rattle.hk_tailoring.specs.Structures.{bounds_of, id_checks, ids_checks, repetition_checks, width_check, definition_checks, size_of};

use crate::fault::TailoringFault;
use crate::ids::IdSet;
use crate::section::Section;
use hk_base::{Definition, Memory, Param, SuperList, Widths, payload_size};
use std::alloc::Global;

/// The parameter IDs of a definition in reading order.
fn parameter_ids(alloc: Global, def: &Definition) -> Result<Vec<u32>, Memory>
    ensures { IfOk result (λ ids. ids.items ≡ ids_of def.now) }
{
    let mut ids = Vec::from_slice(alloc, def.simple.as_slice())?;
    for array in def.arrays.as_slice() {
        ids.extend_from_slice(array.params.as_slice())?;
    }
    Ok(ids)
}

/// A parameter ID is known, and isn't among those before. It is among them afterwards.
#[tactic(auto, unfolding(crate::specs::Structures::id_checks))]
fn check_id(known: &IdSet, earlier: &mut IdSet, id: u32) -> Result<(), TailoringFault>
    ensures checked { (params : List Param) (ids : List ℕ) → AreIdsOf params known.now → AreSame earlier.old ids → Passes (id_checks params ids id) result }
    ensures earlier { OnOk result ((x : ℕ) → has_id earlier.new x ≡ (id == x || has_id earlier.old x)) }
{
    if !known.has(id) {
        return Err(TailoringFault::UnknownParam(id));
    }
    let new = earlier.add(id)?;
    if !new {
        return Err(TailoringFault::Doubled(id));
    }
    Ok(())
}

/// Each parameter ID is known, and none stands twice.
fn check_ids(alloc: Global, known: &IdSet, ids: &[u32]) -> Result<(), TailoringFault>
    ensures checked { (params : List Param) → AreIdsOf params known.now → Passes (ids_checks params [] ids.now) result }
{
    let mut earlier = IdSet::new(alloc);
    for id in ids {
        check_id(known, &mut earlier, *id)?;
    }
    Ok(())
}

/// The repetition number of each array divides the interval.
fn check_repetitions(interval: u32, arrays: &[SuperList]) -> Result<(), TailoringFault>
    requires { All (λ a. 1 ≤ a.repetition) arrays.now }
    ensures checked { Passes (repetition_checks interval arrays.now) result }
{
    for array in arrays {
        if interval % array.repetition != 0 {
            return Err(TailoringFault::BadRepetition(array.repetition, interval));
        }
    }
    Ok(())
}

/// The values of a report have at most so many octets as are allowed.
fn check_size(widths: &Widths, params: &[Param], def: &Definition) -> Result<(), TailoringFault>
    requires widths { IsFitWidths widths.now }
    requires params { AllByRecursion (IsFitParam widths.now) params.now }
    requires formed { IsWellFormed (record { widths = widths.now; params = params.now; boots = [] }) def.now }
    ensures checked { Passes (width_check widths.now.max_payload params.now def.now ∷ []) result }
    ensures narrow { OnOk result (size_of params.now def.now ≤ widths.now.max_payload) }
{
    let size = payload_size(widths, params, def);
    if size <= widths.max_payload {
        Ok(())
    } else {
        Err(TailoringFault::TooWide(size))
    }
}

/// A definition is valid.
#[tactic(auto, unfolding(crate::specs::Structures::definition_checks))]
pub fn check_definition(
    section: &Section<'_>,
    widths: &Widths,
    params: &[Param],
    known: &IdSet,
    def: &Definition,
) -> Result<(), TailoringFault>
    requires widths { IsFitWidths widths.now }
    requires params { AllByRecursion (IsFitParam widths.now) params.now }
    requires known { AreIdsOf params.now known.now }
    requires sizes { IsFitDefinition widths.now def.now }
    ensures checked { Passes (definition_checks (bounds_of widths.now) params.now (section_of section.now) def.now) result }
    ensures valid { OnOk result (IsValid (record { widths = widths.now; params = params.now; boots = [] }) def.now) }
{
    let all = parameter_ids(section.alloc, def)?;
    let ids = all.as_slice();
    if ids.is_empty() {
        return Err(section.out_of_range("simple", 0));
    }
    check_ids(section.alloc, known, ids)?;
    check_repetitions(def.interval, def.arrays.as_slice())?;
    check_size(widths, params, def)?;
    Ok(())
}
