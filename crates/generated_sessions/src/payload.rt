//! The payload of a report.
ghost use Rattle.std.specs.Prelude.{◌≡◌, ◌≤◌, ◌<◌, ◌+◌, ◌++◌, length, flat_map, IfOk, OnOk};
ghost use Rattle.hk_base.specs.Payload.{places};
ghost use Rattle.sample_slots.specs.Slots.{IsSampled};
ghost use Rattle.generated_sessions.specs.Generated.{made_payload, sample_octets};

use crate::schedule::{interval_in, sample};
use crate::structures::definition;
use hk_base::{Definition, Items, Memory, Octets, put_uint};
use sample_slots::{place, place_count};
use std::alloc::Global;

/// The payload of a structure's report in a round.
#[tactic(auto, unfolding(crate::specs::Generated::made_payload))]
pub(crate) fn payload(
    alloc: Global,
    seed: u32,
    round: u32,
    structure: u32,
) -> Result<Octets, Memory>
    requires structure { (1 ≤ structure) × (structure ≤ 6) }
    requires round { round < 100000 }
    ensures payload { IfOk result (λ payload. payload ≡ made_payload seed structure round) }
    ensures short { IfOk result (λ payload. length payload ≤ 16) }
{
    let def = definition(alloc, structure, interval_in(structure, round))?;
    let last = 4 * u64::from(round) + 3;
    let mut octets = Vec::new(alloc);
    put_samples(&mut octets, seed, &def, last)?;
    Ok(Items::from_vec(octets))
}

/// Appends the samples of a definition's report with this last slot.
fn put_samples(out: &mut Vec<u8>, seed: u32, def: &Definition, last: u64) -> Result<(), Memory>
    requires sampled { IsSampled def.now }
    requires whole { def.now.interval ≤ last + 1 }
    ensures { OnOk result (out.new.items ≡ out.old.items ++ flat_map (sample_octets seed) (places def.now last)) }
{
    for number in 0..place_count(def) {
        let Some(place) = place(def, last, number) else {
            unreachable!();
        };
        put_uint(out, 2, sample(seed, place))?;
    }
    Ok(())
}
