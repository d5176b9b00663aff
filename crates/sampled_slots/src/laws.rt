//! Laws of what samplers file.
ghost use Rattle.std.specs.Prelude.{◌≡◌, ◌⊎◌, ◌<◌, ◌≤◌, ◌+◌, ◌-◌, ◌++◌, ℕ, List, [], ◌∷◌, length, map, reverse, slice_index_or, true};
ghost use Rattle.hk_base.specs.Fit.{IsFit};
ghost use Rattle.hk_base.specs.TailoringParts.{TailoringParts};
ghost use Rattle.hk_world.specs.declared.moment.Moment.{Moment};
ghost use Rattle.board_scripts.specs.declared.script.Script.{Script};
ghost use Rattle.board_steps.specs.Cores.{Core, new_core};
ghost use Rattle.board_steps.specs.SlotRuns.{Ahead, IsPart, IsSlot};
ghost use Rattle.sampler_threads.specs.Samplings.{AreFresh, Filed, FiledPart, HavePlaces, NoneFiled};
ghost use Rattle.sampler_threads.specs.declared.end.SamplerEnd.{SamplerEnd};
ghost use Rattle.sampler_threads.specs.Slots.{AreSampled, CanOrderAll, FreshEnd, IsEndOf, IsSamplerOf, Ring, SettledSampler, WithEach, ends_of};
ghost use Rattle.sampler_threads.specs.declared.slot.Sampler.{Sampler};
ghost use Rattle.board_runs.specs.Runs.{HasDone, HasRun};
ghost use Rattle.board_runs.specs.Samplers.{AreCounted, HaveBeenSure, HaveSampled, faults_of, filings_of, is_at_end, sensed};
ghost use Rattle.sampled_slots.specs.Seats.{AreBetween, AreFiled, AreFiledInPart, AreTakenOut, HaveOrders, HaveSeats, HaveStayed, sensors_of};

use board_steps::{boards, slots, steps};
use hk_base::Sensor;
use sampler_threads::orders_are_due;

/// Samplers that stand in their seats file what a run allows: some of their orders, in order, with values that their sensors
/// give, and in a whole slot each order of which the sensor is sure. What `run_slot` says of each sampler is so of the
/// moments of the slot.
pub fn slots_are_sampled<N: Sensor>()
    ensures whole { (t : TailoringParts) (was : List N) (slot : ℕ) (moments : List Moment) (samplers after : List (Sampler N)) → IsFit t → HaveSeats N.Sensor t was slot samplers
        → AreFiled N.Sensor t moments samplers after → HaveSampled N.Sensor t was slot moments }
    ensures sure { (t : TailoringParts) (was : List N) (slot : ℕ) (moments : List Moment) (samplers after : List (Sampler N)) → IsFit t → HaveSeats N.Sensor t was slot samplers
        → AreFiled N.Sensor t moments samplers after → HaveBeenSure N.Sensor t was slot moments }
    ensures part { (t : TailoringParts) (was : List N) (slot : ℕ) (moments : List Moment) (samplers : List (Sampler N)) → IsFit t → HaveSeats N.Sensor t was slot samplers
        → AreFiledInPart N.Sensor t moments samplers → HaveSampled N.Sensor t was slot moments }
    ensures filed { (t : TailoringParts) (before after : Core) (moments : List Moment) (samplers later : List (Sampler N)) → HasDone before moments after
        → ((k : ℕ) (s : Sampler N) → k < length samplers → (ms : List Moment) × (after.moments ≡ reverse ms ++ before.moments) × Filed N.Sensor t ms (slice_index_or samplers k s) (slice_index_or later k s))
        → AreFiled N.Sensor t moments samplers later }
    ensures filed_part { (t : TailoringParts) (before after : Core) (moments : List Moment) (samplers : List (Sampler N)) → HasDone before moments after
        → ((k : ℕ) (s : Sampler N) → k < length samplers → (ms : List Moment) × (after.moments ≡ reverse ms ++ before.moments) × FiledPart N.Sensor t ms (slice_index_or samplers k s))
        → AreFiledInPart N.Sensor t moments samplers }
{}

/// No more orders of a whole slot are left without a filing than the counts of faults rise by, unless a count has come to its
/// end, where it stays. So it is of all slots of a run.
pub fn slots_are_counted<N: Sensor>()
    ensures counted { (t : TailoringParts) (was : List N) (slot : ℕ) (moments : List Moment) (samplers after : List (Sampler N)) → IsFit t → 0 < length was
        → HaveSeats N.Sensor t was slot samplers → length after ≡ length samplers → AreFiled N.Sensor t moments samplers after
        → (is_at_end N.Sensor (sensors_of after) ≡ true) ⊎ ((length (sensed t) - length (filings_of (sensed t) moments)) + faults_of N.Sensor (sensors_of samplers) ≤ faults_of N.Sensor (sensors_of after)) }
    ensures first { (t : TailoringParts) (was : List N) → AreCounted N.Sensor t was was [] }
    ensures more { (t : TailoringParts) (was : List N) (slot : ℕ) (moments : List Moment) (slots : List (List Moment)) (samplers after : List (Sampler N)) → IsFit t → 0 < length was
        → HaveSeats N.Sensor t was slot samplers → length after ≡ length samplers → AreFiled N.Sensor t moments samplers after
        → AreCounted N.Sensor t was (sensors_of samplers) slots → AreCounted N.Sensor t was (sensors_of after) (moments ∷ slots) }
{}

/// Samplers with their own orders for the slot that runs can take them, and they are due, where no sensed parameter is filed
/// yet and all that was sent was taken. A slot leaves the sensors and the places of the rings as they were. The call is the
/// law that it stands on.
pub fn samplers_can_be_ordered<N: Sensor>()
    ensures fresh { (core : Core) (count : ℕ) (rings : List Ring) (samplers : List (Sampler N)) → IsFit core.tailoring → NoneFiled core
        → HaveOrders core.tailoring count core.slot_now samplers → AreTakenOut rings (ends_of samplers) → AreFresh core rings samplers }
    ensures orders { (t : TailoringParts) (count slot : ℕ) (samplers : List (Sampler N)) → IsFit t → HaveOrders t count slot samplers → HavePlaces t count (ends_of samplers)
        → CanOrderAll t samplers }
    ensures places { (t u : TailoringParts) (count : ℕ) (samplers after : List (Sampler N)) → HavePlaces t count (ends_of samplers) → AreSampled N.Sensor u samplers after
        → HavePlaces t count (ends_of after) }
    ensures first { (sensors : List N) → HaveStayed N.Sensor sensors sensors }
    ensures stayed { (t : TailoringParts) (was : List N) (samplers after : List (Sampler N)) → HaveStayed N.Sensor was (sensors_of samplers) → AreSampled N.Sensor t samplers after
        → HaveStayed N.Sensor was (sensors_of after) }
{
    orders_are_due();
}

/// The ends of samplers are those of rings as the samplers are; samplers of which each has the same end and sensor as another
/// have the same ones. All that was sent was taken where samplers are settled, and of new ends.
pub fn samplers_hold_ends<N: Sensor>()
    ensures samplers { (rings : List Ring) (samplers : List (Sampler N)) → WithEach IsEndOf rings (ends_of samplers) → WithEach IsSamplerOf rings samplers }
    ensures ends { (rings : List Ring) (samplers : List (Sampler N)) → WithEach IsSamplerOf rings samplers → WithEach IsEndOf rings (ends_of samplers) }
    ensures same { (samplers others : List (Sampler N)) → length others ≡ length samplers
        → ((k : ℕ) (s : Sampler N) → k < length samplers → (slice_index_or others k s).end ≡ (slice_index_or samplers k s).end)
        → ((k : ℕ) (s : Sampler N) → k < length samplers → (slice_index_or others k s).sensor ≡ (slice_index_or samplers k s).sensor)
        → (ends_of others ≡ ends_of samplers) × (sensors_of others ≡ sensors_of samplers) }
    ensures settled { (rings : List Ring) (samplers : List (Sampler N)) → WithEach SettledSampler rings samplers → AreTakenOut rings (ends_of samplers) }
    ensures new_ends { (rings : List Ring) (ends : List SamplerEnd) → WithEach FreshEnd rings ends → WithEach IsEndOf rings ends × AreTakenOut rings ends }
{}

/// From slot to slot of a run: samplers that are settled can begin, whatever their orders; with the orders for the slot that runs they can
/// run it; and after a whole slot they can go on. In a slot that is run up to a step they file what a run allows. The call is the
/// law that it stands on.
pub fn samplers_go_on<N: Sensor>()
    ensures begin { (t : TailoringParts) (rings : List Ring) (samplers : List (Sampler N)) → WithEach IsSamplerOf rings samplers → WithEach SettledSampler rings samplers
        → HavePlaces t (length samplers) (ends_of samplers)
        → AreBetween N.Sensor t (sensors_of samplers) [] rings samplers }
    ensures count { (t : TailoringParts) (was : List N) (slots : List (List Moment)) (rings : List Ring) (samplers : List (Sampler N)) → AreBetween N.Sensor t was slots rings samplers
        → (length samplers ≡ length was) × (length rings ≡ length was) }
    ensures ordered { (t : TailoringParts) (was : List N) (slots : List (List Moment)) (rings : List Ring) (samplers others : List (Sampler N)) → AreBetween N.Sensor t was slots rings samplers
        → sensors_of others ≡ sensors_of samplers → ends_of others ≡ ends_of samplers → AreBetween N.Sensor t was slots rings others }
    ensures ready { (core : Core) (was : List N) (slots : List (List Moment)) (rings : List Ring) (samplers : List (Sampler N)) → IsFit core.tailoring → NoneFiled core
        → AreBetween N.Sensor core.tailoring was slots rings samplers → HaveOrders core.tailoring (length was) core.slot_now samplers
        → WithEach IsSamplerOf rings samplers × CanOrderAll core.tailoring samplers × AreFresh core rings samplers }
    ensures next { (t : TailoringParts) (was : List N) (slots : List (List Moment)) (moments : List Moment) (rings later : List Ring) (samplers after : List (Sampler N)) → IsFit t → 0 < length was
        → AreBetween N.Sensor t was slots rings samplers → HaveOrders t (length was) (length slots) samplers
        → AreFiled N.Sensor t moments samplers after → AreSampled N.Sensor t samplers after → WithEach IsSamplerOf later after → WithEach SettledSampler later after
        → AreBetween N.Sensor t was (moments ∷ slots) later after }
    ensures part { (t : TailoringParts) (was : List N) (slots : List (List Moment)) (moments : List Moment) (rings : List Ring) (samplers : List (Sampler N)) → IsFit t
        → AreBetween N.Sensor t was slots rings samplers → HaveOrders t (length was) (length slots) samplers
        → AreFiledInPart N.Sensor t moments samplers → HaveSampled N.Sensor t was (length slots) moments }
{
    orders_are_due();
}

/// In a run no parameter has a sample in a slot before it begins. The core of a run has its tailoring, and is in the slot after
/// those that ran. Steps of a slot add moments to those that were there. The calls are the laws that it stands on.
pub fn slots_begin_unfiled()
    ensures first { (t : TailoringParts) → NoneFiled (new_core t) }
    ensures run { (t : TailoringParts) (s : Script) (slots : List (List Moment)) (c : Core) → IsFit t → HasRun t s slots c → NoneFiled c }
    ensures tailoring { (t : TailoringParts) (s : Script) (slots : List (List Moment)) (c : Core) → IsFit t → HasRun t s slots c → c.tailoring ≡ t }
    ensures slot { (t : TailoringParts) (s : Script) (slots : List (List Moment)) (c : Core) → HasRun t s slots c → c.slot_now ≡ length slots }
    ensures grows { (uplinks : List (List ℕ)) (before after : Core) → IsSlot uplinks before after → (moments : List Moment) × HasDone before moments after }
    ensures grows_part { (uplinks : List (List ℕ)) (before : Core) (ahead : Ahead) (after : Core) → IsPart uplinks before ahead after → (moments : List Moment) × HasDone before moments after }
{
    boards();
    steps();
    slots();
}
