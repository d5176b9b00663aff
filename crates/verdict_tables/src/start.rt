//! The basis of verdicts where nothing may have changed a structure.
ghost use Rattle.std.specs.Prelude.{◌≡◌, ◌∷◌, [], IfOk};
ghost use Rattle.hk_base.specs.Parameters.{boot_structure};
ghost use Rattle.definition_intervals.specs.Bases.{IsFormedBasis};
ghost use Rattle.report_structures.specs.Changes.{IsFormedState};
ghost use Rattle.verdict_tables.specs.Tables as tables;

use definition_intervals::Basis;
use hk_base::{Items, Key, Memory, Structure, Tailoring};
use std::alloc::Global;

/// The boot state of a structure, where the start is known.
pub(crate) fn start_basis(
    alloc: Global,
    tailoring: &Tailoring,
    known: bool,
    key: Key,
) -> Result<Basis, Memory>
    ensures basis { IfOk result (λ basis. basis ≡ tables.start_basis tailoring.now known key) }
    ensures formed { IfOk result (IsFormedBasis tailoring.now) }
{
    if !known {
        return Ok(Basis::NoOpening);
    }
    let mut states = Vec::new(alloc);
    states.push(boot_state(alloc, tailoring, key)?)?;
    Ok(Basis::Open(Items::from_vec(states), 0))
}

fn boot_state(alloc: Global, tailoring: &Tailoring, key: Key) -> Result<Option<Structure>, Memory>
    ensures state { IfOk result (λ state. state ≡ boot_structure tailoring.now key) }
    ensures formed { IfOk result (IsFormedState tailoring.now) }
{
    match tailoring.boot(key) {
        Some(structure) => Ok(Some(structure.copy(alloc)?)),
        None => Ok(None),
    }
}
