//! The samples of a structure at the end of a slot, and the payload that they make.
ghost use Rattle.std.specs.Prelude.{◌≡◌, ◌≤◌, ◌+◌, is_some, filter_map, Ok, IfOk};
ghost use Rattle.std.specs.List.{list_all};
ghost use Rattle.hk_base.specs.Definitions.{IsWellFormed};
ghost use Rattle.hk_base.specs.Payload.{places, AllFit, IsPayload, payload_read};
ghost use Rattle.sample_slots.specs.Slots.{IsSampled};
ghost use Rattle.board_core.specs.Closing.{held_sample};

use board_state::Channels;
use hk_base::{Definition, Items, Memory, Octets, Tailoring, Value};
use sample_slots::{Place, place, place_count, write_payload};
use std::alloc::Global;

/// The sample of a place, if there is one. The value of a settable parameter is its sample in the slot that closes.
fn sample(channels: &Channels, place: Place, slot: u64) -> Option<Value>
    ensures { result ≡ held_sample channels.now slot place }
{
    match channels.get(place.param) {
        Some(channel) => channel.sample(place.slot, slot),
        None => None,
    }
}

/// Whether each place of a definition has a sample where this slot closes.
pub(crate) fn has_samples(channels: &Channels, def: &Definition, slot: u64) -> bool
    requires sampled { IsSampled def.now }
    requires whole { def.now.interval ≤ slot + 1 }
    ensures { result ≡ list_all (λ p. is_some (held_sample channels.now slot p)) (places def.now slot) }
{
    for number in 0..place_count(def) {
        let Some(place) = place(def, slot, number) else {
            unreachable!();
        };
        if sample(channels, place, slot).is_none() {
            return false;
        }
    }
    true
}

/// The samples of the places of a definition where this slot closes, in the order of its payload.
fn samples(
    alloc: Global,
    channels: &Channels,
    def: &Definition,
    slot: u64,
) -> Result<Vec<Value>, Memory>
    requires sampled { IsSampled def.now }
    requires whole { def.now.interval ≤ slot + 1 }
    ensures { IfOk result (λ values. values.items ≡ filter_map (held_sample channels.now slot) (places def.now slot)) }
{
    let mut values = Vec::new(alloc);
    for number in 0..place_count(def) {
        let Some(place) = place(def, slot, number) else {
            unreachable!();
        };
        if let Some(value) = sample(channels, place, slot) {
            values.push(value)?;
        }
    }
    Ok(values)
}

/// The payload of these samples, which are there and fit.
pub(crate) fn payload_of(
    alloc: Global,
    tailoring: &Tailoring,
    channels: &Channels,
    def: &Definition,
    slot: u64,
) -> Result<Octets, Memory>
    requires sampled { IsSampled def.now }
    requires whole { def.now.interval ≤ slot + 1 }
    requires formed { IsWellFormed tailoring.now def.now }
    requires fit { AllFit tailoring.now (places def.now def.now.interval) (filter_map (held_sample channels.now slot) (places def.now slot)) }
    ensures is { IfOk result (IsPayload tailoring.now def.now (filter_map (held_sample channels.now slot) (places def.now slot))) }
    ensures again { IfOk result (λ octets. payload_read tailoring.now def.now octets ≡ Ok (filter_map (held_sample channels.now slot) (places def.now slot))) }
{
    let mut octets = Vec::new(alloc);
    let values = samples(alloc, channels, def, slot)?;
    write_payload(tailoring, def, values.as_slice(), &mut octets)?;
    Ok(Items::from_vec(octets))
}
