//! The reasons for which a change is refused, each checked by itself.
ghost use Rattle.std.specs.Prelude.{◌≡◌, ◌≤◌, ◌==◌, [], All, IfOk, flat_map};
ghost use Rattle.std.specs.List.{list_any};
ghost use Rattle.hk_base.specs.Definitions as definitions;
ghost use Rattle.hk_base.specs.Definitions.{IsWellFormed};
ghost use Rattle.report_structures.specs.Effects.{if_enabled, if_doubled, if_uneven, if_too_many, if_too_wide};
ghost use Rattle.report_structures.specs.Changes.{Checks};

use crate::refusal::Refusal;
use hk_base::{Definition, Memory, Structure, SuperList, Tailoring};
use std::alloc::Global;

/// Most members of a list.
const MOST_MEMBERS: usize = 255;

/// The structure is disabled.
pub(crate) fn check_disabled(structure: &Structure) -> Result<(), Refusal>
    ensures { Checks result (if_enabled structure.now) }
{
    if structure.enabled {
        return Err(Refusal::Enabled);
    }
    Ok(())
}

/// None of the IDs stands twice, or among those that came earlier.
pub(crate) fn check_once(earlier: &[u32], ids: &[u32]) -> Result<(), Refusal>
    ensures { Checks result (if_doubled earlier.now ids.now) }
{
    match first_repeat(earlier, ids) {
        Some(id) => Err(Refusal::Doubled(id)),
        None => Ok(()),
    }
}

/// The first ID that stands twice, or among those that came earlier.
fn first_repeat(earlier: &[u32], ids: &[u32]) -> Option<u32>
    ensures { result ≡ definitions.first_repeat earlier.now ids.now }
{
    for (number, id) in ids.iter().enumerate() {
        if is_among(&ids[..number], *id) || is_among(earlier, *id) {
            return Some(*id);
        }
    }
    None
}

fn is_among(ids: &[u32], id: u32) -> bool
    ensures { result ≡ list_any (λ other. other == id) ids.now }
{
    ids.iter().any(|other| *other == id)
}

/// Each repetition number divides the interval.
pub(crate) fn check_even(interval: u32, arrays: &[SuperList]) -> Result<(), Refusal>
    requires { All (λ array. 1 ≤ array.repetition) arrays.now }
    ensures { Checks result (if_uneven interval arrays.now) }
{
    for array in arrays {
        if interval % array.repetition != 0 {
            return Err(Refusal::BadRepetition(array.repetition, interval));
        }
    }
    Ok(())
}

/// A list has few enough members.
pub(crate) fn check_few(count: usize) -> Result<(), Refusal>
    requires { count ≤ 510 }
    ensures { Checks result (if_too_many count) }
{
    if count > MOST_MEMBERS {
        return Err(Refusal::TooMany(count as u32));
    }
    Ok(())
}

/// The payload isn't too wide.
pub(crate) fn check_narrow(tailoring: &Tailoring, def: &Definition) -> Result<(), Refusal>
    requires { IsWellFormed tailoring.now def.now }
    ensures { Checks result (if_too_wide tailoring.now def.now) }
{
    let octets = tailoring.payload_size(def);
    if octets > tailoring.widths().max_payload {
        return Err(Refusal::TooWide(octets));
    }
    Ok(())
}

/// The IDs of lists, in reading order.
pub(crate) fn listed_ids(
    alloc: Global,
    simple: &[u32],
    arrays: &[SuperList],
) -> Result<Vec<u32>, Memory>
    ensures { IfOk result (λ ids. ids.items ≡ definitions.listed_ids simple.now arrays.now) }
{
    let mut ids = Vec::from_slice(alloc, simple)?;
    for array in arrays {
        ids.extend_from_slice(array.params.as_slice())?;
    }
    Ok(ids)
}
