//! Laws of what boards do.
ghost use Rattle.std.specs.Prelude.{◌≡◌, ◌+◌, ◌-◌, ◌*◌, ◌<◌, ◌≤◌, ◌++◌, ℕ, List, length, map, reverse, is_some, Bool, Some, true, false};
ghost use Rattle.std.specs.List.{AllByRecursion, list_all};
ghost use Rattle.hk_base.specs.TailoringParts.{TailoringParts};
ghost use Rattle.hk_base.specs.Fit.{IsFit};
ghost use Rattle.hk_base.specs.Payload.{places};
ghost use Rattle.hk_base.specs.declared.types.Definition.{Definition};
ghost use Rattle.hk_base.specs.declared.types.Key.{Key};
ghost use Rattle.hk_base.specs.declared.types.Place.{Place};
ghost use Rattle.hk_base.specs.declared.types.Structure.{Structure};
ghost use Rattle.pus_messages.specs.Messages.{protocol};
ghost use Rattle.pus_messages.specs.declared.message.Report.{Report};
ghost use Rattle.hk_world.specs.Timelines.{EachAfter, state_at};
ghost use Rattle.hk_world.specs.Legal.{IsLegal};
ghost use Rattle.hk_world.specs.Honest.{IsHonest};
ghost use Rattle.hk_world.specs.Worlds.{MayHappen};
ghost use Rattle.hk_world.specs.declared.moment.Moment.{Moment};
ghost use Rattle.board_steps.specs.Cores.{Core, session, state_of, new_core, reports_of};
ghost use Rattle.board_steps.specs.Slots.{has_sample, is_complete, is_due, is_spent, is_filed, is_set, sample_at};
ghost use Rattle.board_steps.specs.Plans.{planned};
ghost use Rattle.board_steps.specs.Steps.{IsStep};
ghost use Rattle.board_steps.specs.Runs.{IsMade, IsRun};
ghost use Rattle.board_steps.specs.Timeline.{Stands, AgreeOn, on_ground};
ghost use Rattle.board_steps.specs.Headers.{falling, of_type};
ghost use Rattle.board_steps.specs.OneShots.{AreShotsAhead};
ghost use Rattle.board_steps.specs.SlotRuns.{Ahead, IsPart, IsSlot, Leads, filings, waiting};
ghost use Rattle.board_steps.specs.Added.{Adds, IsJournal, filed_by, parameter_reports, reports_due};
ghost use Rattle.board_steps.specs.declared.event.Event.{Event};
ghost use Rattle.board_steps.specs.declared.event.Event.TheVariants.{CloseSlot, Filing, Work};
ghost use Rattle.board_steps.specs.declared.event.Sample.{Sample};

use pus_messages::{reports_are_spelled, requests_are_spelled};

/// What a board has done is a legal and honest timeline that begins with the state at boot. It is so too in a session of the
/// ground: there the start may be unknown, and numbers that no moment names may have other packets, as that of a request that
/// was lost has one there and none on the board. A core that a board comes to stands, and so does one after each step from
/// one that stands. The call is the law that it stands on.
pub fn boards()
    ensures legal { (t : TailoringParts) (events : List Event) (c : Core) → IsFit t → IsRun t events c → IsLegal (session c) c.moments }
    ensures honest { (t : TailoringParts) (events : List Event) (c : Core) → IsFit t → IsRun t events c → IsHonest (session c) c.moments }
    ensures ground_legal { (t : TailoringParts) (events : List Event) (c : Core) (known : Bool) (other : List (List ℕ)) → IsFit t → IsRun t events c
        → AgreeOn c.requests other c.moments → IsLegal (on_ground (session c) known other) c.moments }
    ensures ground_honest { (t : TailoringParts) (events : List Event) (c : Core) (known : Bool) (other : List (List ℕ)) → IsFit t → IsRun t events c
        → AgreeOn c.requests other c.moments → IsHonest (on_ground (session c) known other) c.moments }
    ensures happens { (c : Core) (known : Bool) (other : List (List ℕ)) → Stands c
        → AgreeOn c.requests other c.moments → EachAfter (MayHappen (on_ground (session c) known other)) c.moments }
    ensures tailoring { (t : TailoringParts) (events : List Event) (c : Core) → IsRun t events c → c.tailoring ≡ t }
    ensures stands { (t : TailoringParts) (events : List Event) (c : Core) → IsFit t → IsRun t events c → Stands c }
    ensures begins { (t : TailoringParts) → Stands (new_core t) }
    ensures goes_on { (before : Core) (event : Event) (after : Core) → IsFit before.tailoring → Stands before → IsMade before event after → Stands after }
{
    requests_are_spelled();
}

/// What a step adds: as many moments as were planned, with the samples of its event alone. A filing and the end of a slot
/// leave the number of requests that wait, and work does something while one waits. No sample is of a slot after the one that runs, and
/// a slot begins without any.
pub fn steps()
    ensures adds { (before : Core) (event : Event) (after : Core) → IsStep before event after → (new : List Moment) × Adds before event new after }
    ensures settable { (c : Core) → IsFit c.tailoring → AllByRecursion (λ (x : Sample). is_set c.tailoring x.param ≡ true) (filed_by c CloseSlot) }
    ensures waits { (before : Core) (x : Sample) (after : Core) → IsStep before (Filing x) after → waiting after ≡ waiting before }
    ensures closes { (before : Core) (after : Core) → IsStep before CloseSlot after → waiting after ≡ waiting before }
    ensures works { (c : Core) → 0 < waiting c → 0 < length (planned c Work) }
    ensures filed { (c : Core) → Stands c → AllByRecursion (λ (x : Sample). x.slot ≤ c.slot_now) (filings c.moments) }
    ensures unfiled { (before : Core) (after : Core) → Stands before → IsStep before CloseSlot after → (id : ℕ) → is_filed after id ≡ false }
{}

/// A board's journal can be written and carried: its moments, tags, numbers and packets are within their ranges. The calls
/// are the laws that it stands on.
pub fn journals()
    ensures bounded { (t : TailoringParts) (events : List Event) (c : Core) → IsFit t → IsRun t events c → IsJournal c }
    ensures stands { (c : Core) → IsFit c.tailoring → Stands c → IsJournal c }
{
    requests_are_spelled();
    reports_are_spelled();
}

/// The parameter reports among the moments that a step adds are those that are due, exactly. A place counts as sampled
/// exactly where a sample of it stands among the moments once the slot has ended, and a definition as complete where all its
/// places do.
pub fn reports_are_due()
    ensures due { (before : Core) (event : Event) (after : Core) (new : List Moment) → IsStep before event after → after.moments ≡ reverse new ++ before.moments
        → parameter_reports (session before).protocol new ≡ reports_due before event }
    ensures sampled { (before : Core) (after : Core) → IsFit before.tailoring → IsStep before CloseSlot after → (place : Place)
        → has_sample before place ≡ is_some (sample_at place after.moments) }
    ensures complete { (before : Core) (after : Core) → IsFit before.tailoring → IsStep before CloseSlot after → (d : Definition)
        → is_complete before d ≡ list_all (λ place. is_some (sample_at place after.moments)) (places d before.slot_now) }
{}

/// The events of a slot go on with a run. Whole, they end the slot that runs, and nothing waits then where nothing did before.
pub fn slots()
    ensures runs { (t : TailoringParts) (earlier : List Event) (ahead : Ahead) (next : Ahead) (before : Core) (after : Core) (events : List Event)
        → IsRun t earlier before → Leads ahead before events next after → IsRun t (reverse events ++ earlier) after }
    ensures same { (uplinks : List (List ℕ)) (ahead : Ahead) (before : Core) (after : Core) → IsPart uplinks before ahead after
        → ahead.is_open ≡ true → after.slot_now ≡ before.slot_now }
    ensures next { (uplinks : List (List ℕ)) (before : Core) (after : Core) → IsSlot uplinks before after → after.slot_now ≡ before.slot_now + 1 }
    ensures idle { (uplinks : List (List ℕ)) (before : Core) (after : Core) → IsSlot uplinks before after → waiting before ≡ 0 → waiting after ≡ 0 }
{}

/// A structure that is due had its definition at each tag since the interval began, since a change begins its intervals anew
/// with the slot after; without a one-shot it was enabled since then too. It has as many slots up to now as an interval has. A
/// pending one-shot is of a structure that is there, and its interval ends with the slot that runs or later: so it is spent
/// when that slot ends. The call is the law that it stands on.
pub fn intervals()
    ensures whole { (c : Core) → IsFit c.tailoring → Stands c → (key : Key) (x : Structure) → (state_of c).structure key ≡ Some x
        → is_due c key x ≡ true → is_spent c key x ≡ false → (tag : ℕ) → (c.slot_now + 1 - x.def.interval) * c.tailoring.widths.slot ≤ tag
        → (state_at (session c) c.moments tag).structure key ≡ Some x }
    ensures defined { (t : TailoringParts) (events : List Event) (c : Core) → IsFit t → IsRun t events c → (key : Key) (x : Structure)
        → (state_of c).structure key ≡ Some x → is_due c key x ≡ true → (tag : ℕ) → (c.slot_now + 1 - x.def.interval) * c.tailoring.widths.slot ≤ tag
        → (y : Structure) × ((state_at (session c) c.moments tag).structure key ≡ Some y) × (y.def ≡ x.def) }
    ensures shots { (t : TailoringParts) (events : List Event) (c : Core) → IsFit t → IsRun t events c → AreShotsAhead c }
    ensures long { (c : Core) (key : Key) (x : Structure) → is_due c key x ≡ true → x.def.interval ≤ c.slot_now + 1 }
{
    requests_are_spelled();
}

/// The reports of a board, the newest first, are counted one by one: the sequence counts fall to 0 modulo 16,384, and so do the
/// counters of each message type modulo 65,536 (ECSS-E-ST-70-41C, 7.4.3.1).
pub fn headers()
    ensures counts { (t : TailoringParts) (events : List Event) (c : Core) → IsRun t events c
        → map (λ (r : Report). r.header.count) (reports_of (protocol t) c.moments) ≡ falling 16384 (length (reports_of (protocol t) c.moments)) }
    ensures counters { (t : TailoringParts) (events : List Event) (c : Core) (service : ℕ) (subtype : ℕ) → IsRun t events c
        → map (λ (r : Report). r.header.counter) (of_type service subtype (reports_of (protocol t) c.moments))
        ≡ falling 65536 (length (of_type service subtype (reports_of (protocol t) c.moments))) }
{}
