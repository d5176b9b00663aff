//! What the executor does with its ends of the rings.
ghost use Rattle.std.specs.Prelude.{◌≡◌, ◌<◌, ◌≤◌, ℕ, List, [], ◌∷◌, ◌++◌, length, false, OnOk, IfErr};
ghost use mathlib.Core.List.{IsPrefix};
ghost use Rattle.std.specs.Option.{option_map_or};
ghost use Rattle.rtrb.specs.Ring.{received, known_items, consumer_capacity, IsPair, SameConsumer};
ghost use Rattle.hk_base.specs.Parameters.{parameter};
ghost use Rattle.board_steps.specs.Steps.{MayFile};
ghost use Rattle.sampler_threads.specs.declared.item.Item.{Item};
ghost use Rattle.sampler_threads.specs.Deeds.{Takes, Took, TookItems, Tells, is_sensed_value};
ghost use Rattle.sampler_threads.specs.Rings.{Received, TookKnown, TookInTurn, Stops, Drained};
ghost use Rattle.sampler_threads.specs.Slots.{Met};

use crate::end::SamplerEnd;
use crate::item::Item;
use crate::steps::give;
use board_core::{BoardCore, BoardFault, Event, Sample};
use hk_base::{Tailoring, fits};
use rtrb::Consumer;

/// The two ends of a ring look at each other.
pub(crate) fn meet_one(ring: &mut Consumer<Item>, end: &mut SamplerEnd)
    requires { IsPair end.old.producer ring.old }
    ensures { Met ring.old end.old ring.new end.new }
{
    end.producer.slots_beside(ring);
    ring.slots_beside(&mut end.producer);
}

/// Takes items out of every ring, in their order.
pub(crate) fn drain_all(
    core: &mut BoardCore,
    tailoring: &Tailoring,
    rings: &mut [Consumer<Item>],
) -> Result<(), BoardFault>
    requires { tailoring.now ≡ core.old.tailoring }
    ensures taken { (takings : List (ℕ × Item)) × Took core.old takings core.new × Received rings.old takings rings.new × TookInTurn rings.old takings × OnOk result (TookKnown rings.old takings) }
    ensures err { IfErr result (Stops core.new) }
{
    for k in 0..rings.len() {
        drain_one(core, tailoring, &mut rings[k])?;
    }
    Ok(())
}

/// Takes items out of every ring, as `drain_all`.
pub(crate) fn drain_rings(
    core: &mut BoardCore,
    tailoring: &Tailoring,
    rings: &mut [Consumer<Item>],
) -> Result<(), BoardFault>
    requires { tailoring.now ≡ core.old.tailoring }
    ensures tailoring { core.new.tailoring ≡ core.old.tailoring }
    ensures grown { length core.old.moments ≤ length core.new.moments }
    ensures taken { (takings : List (ℕ × Item)) × Took core.old takings core.new × Received rings.old takings rings.new × TookInTurn rings.old takings × OnOk result (TookKnown rings.old takings) }
    ensures err { IfErr result (Stops core.new) }
{
    drain_all(core, tailoring, rings)
}

/// Takes items out of a ring until it is found empty, or as many as it has places.
fn drain_one(
    core: &mut BoardCore,
    tailoring: &Tailoring,
    ring: &mut Consumer<Item>,
) -> Result<(), BoardFault>
    requires { tailoring.now ≡ core.old.tailoring }
    ensures taken { (items : List Item) × TookItems core.old items core.new × Drained ring.old items ring.new × (length items ≤ consumer_capacity ring.old) × OnOk result (IsPrefix (known_items ring.old) items) }
    ensures err { IfErr result (Stops core.new) }
{
    for _taken in 0..ring.capacity() {
        if ring.is_empty() {
            break;
        }
        take_one(core, tailoring, ring)?;
    }
    Ok(())
}

/// Files the oldest item, or drops it where it may not be filed. It stays in the ring where the core refuses it.
fn take_one(
    core: &mut BoardCore,
    tailoring: &Tailoring,
    ring: &mut Consumer<Item>,
) -> Result<(), BoardFault>
    requires known { 0 < length (known_items ring.old) }
    requires tailoring { tailoring.now ≡ core.old.tailoring }
    ensures same { SameConsumer ring.old ring.new }
    ensures ok { OnOk result ((item : Item) × (known_items ring.old ≡ item ∷ known_items ring.new) × (received ring.new ≡ received ring.old ++ item ∷ []) × Takes core.old item core.new) }
    ensures err { IfErr result (λ fault. (ring.new ≡ ring.old) × (core.new ≡ core.old) × Stops core.old fault) }
{
    let item = *ring.peek_known();
    file(core, tailoring, item)?;
    ring.pop_known();
    Ok(())
}

/// Files an item where it may be filed.
fn file(core: &mut BoardCore, tailoring: &Tailoring, item: Item) -> Result<(), BoardFault>
    requires { tailoring.now ≡ core.old.tailoring }
    ensures ok { OnOk result (Takes core.old item core.new) }
    ensures err { IfErr result (λ fault. (core.new ≡ core.old) × Stops core.old fault) }
{
    let Some(value) = item.value else {
        return Ok(());
    };
    let sample = Sample {
        param: item.param,
        slot: item.slot,
        value,
    };
    if !may_file(core, tailoring, sample) {
        return Ok(());
    }
    give(core, Event::Filing(sample))
}

/// Whether a sample meets the condition of a filing.
fn may_file(core: &BoardCore, tailoring: &Tailoring, sample: Sample) -> bool
    requires { tailoring.now ≡ core.now.tailoring }
    ensures { Tells result (MayFile core.now sample) }
{
    fits_sensed(tailoring, sample) && sample.slot == core.slot_now() && !core.filed(sample.param)
}

/// Whether a value fits the sensed parameter that the sample is of.
fn fits_sensed(tailoring: &Tailoring, sample: Sample) -> bool
    ensures { result ≡ option_map_or (is_sensed_value sample.value) (parameter tailoring.now sample.param) false }
{
    match tailoring.param(sample.param) {
        Some(param) => param.initial.is_none() && fits(param, sample.value),
        None => false,
    }
}
