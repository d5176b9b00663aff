//! What runs of a script are.
ghost use Rattle.std.specs.Prelude.{◌≡◌, ◌≤◌, ◌<◌, ◌+◌, ◌*◌, ◌∷◌, List, length, false};
ghost use Rattle.hk_base.specs.Fit.{IsFit};
ghost use Rattle.hk_base.specs.TailoringParts.{TailoringParts};
ghost use Rattle.hk_world.specs.Worlds.{World, moments_of};
ghost use Rattle.session_record.specs.Records.{FitIn, header_of, most_entries};
ghost use Rattle.journaled_records.specs.OwnWorlds.{IsOwnWorld, TellsOwn};
ghost use Rattle.hk_world.specs.declared.moment.Moment.{Moment};
ghost use Rattle.board_steps.specs.Cores.{Core, last_tag, next_tag};
ghost use Rattle.board_steps.specs.Plans.{planned, prepared};
ghost use Rattle.board_steps.specs.SlotRuns.{Ahead, Comes};
ghost use Rattle.board_steps.specs.Steps.{is_full, is_late};
ghost use Rattle.board_steps.specs.declared.event.Event.{Event};
ghost use Rattle.board_scripts.specs.Spelling.{IsScript};
ghost use Rattle.board_scripts.specs.declared.script.Script.{Script};
ghost use Rattle.board_runs.specs.Bounds.{HasRoom, most_moments};
ghost use Rattle.board_runs.specs.Requests.{session_of};
ghost use Rattle.board_runs.specs.Runs.{HasRun, HasBegun, record_of};
ghost use Rattle.board_runs.specs.Slots.{entries_of};

use board_steps::journals;
use journaled_records::told_worlds;
use pus_messages::requests_are_spelled;

/// The entries of a run, and of a run up to a step, are those of a world's own lines: what was sent are its requests, what was
/// received are its deliveries, and its moments are the board's. So its record tells that world where it is within the limits
/// of a record. The calls are the laws that it stands on.
pub fn runs_are_of_worlds()
    ensures whole { (t : TailoringParts) (s : Script) (slots : List (List Moment)) (c : Core) → IsFit t → IsScript t s → HasRun t s slots c
        → (w : World) × (w.session ≡ session_of t s) × (moments_of w.steps ≡ c.moments) × IsOwnWorld w (header_of s.known false) (entries_of t s slots) }
    ensures part { (t : TailoringParts) (s : Script) (slots : List (List Moment)) (moments : List Moment) (ahead : Ahead) (c : Core) → IsFit t → IsScript t s
        → HasBegun t s slots moments ahead c
        → (w : World) × (w.session ≡ session_of t s) × (moments_of w.steps ≡ c.moments) × IsOwnWorld w (header_of s.known false) (entries_of t s (moments ∷ slots)) }
    ensures tells { (t : TailoringParts) (s : Script) (slots : List (List Moment)) (c : Core) → IsFit t → IsScript t s → HasRun t s slots c
        → FitIn most_entries 8 (entries_of t s slots) → TellsOwn t (record_of t s slots) }
    ensures tells_part { (t : TailoringParts) (s : Script) (slots : List (List Moment)) (moments : List Moment) (ahead : Ahead) (c : Core) → IsFit t → IsScript t s
        → HasBegun t s slots moments ahead c → FitIn most_entries 8 (entries_of t s (moments ∷ slots)) → TellsOwn t (record_of t s (moments ∷ slots)) }
{
    requests_are_spelled();
    journals();
    told_worlds();
}

/// A run has no more moments than its script allows, and no tag beyond its slots by more than that; nor would the next step
/// bring more, whether or not it is made. So where the journal and the tags have room for the script, no step is refused for
/// want of either. The call is the law that it stands on.
pub fn runs_are_bounded()
    ensures moments { (t : TailoringParts) (s : Script) (slots : List (List Moment)) (c : Core) → IsFit t → IsScript t s → length slots ≤ s.slots → HasRun t s slots c
        → length c.moments ≤ most_moments t s }
    ensures tags { (t : TailoringParts) (s : Script) (slots : List (List Moment)) (c : Core) → IsFit t → IsScript t s → length slots ≤ s.slots → HasRun t s slots c
        → last_tag c.moments ≤ s.slots * t.widths.slot + most_moments t s }
    ensures next { (t : TailoringParts) (s : Script) (slots : List (List Moment)) (moments : List Moment) (ahead : Ahead) (c : Core) (event : Event) (later : Ahead)
        → IsFit t → IsScript t s → length slots < s.slots → HasBegun t s slots moments ahead c → Comes ahead c event later
        → length c.moments + length (planned c event) ≤ most_moments t s }
    ensures next_tags { (t : TailoringParts) (s : Script) (slots : List (List Moment)) (moments : List Moment) (ahead : Ahead) (c : Core) (event : Event) (later : Ahead)
        → IsFit t → IsScript t s → length slots < s.slots → HasBegun t s slots moments ahead c → Comes ahead c event later
        → next_tag (prepared c event).clock c.moments + length (planned c event) ≤ s.slots * t.widths.slot + most_moments t s + 1 }
    ensures unstopped { (t : TailoringParts) (s : Script) (slots : List (List Moment)) (moments : List Moment) (ahead : Ahead) (c : Core) (event : Event) (later : Ahead)
        → IsFit t → IsScript t s → HasRoom t s → length slots < s.slots → HasBegun t s slots moments ahead c → Comes ahead c event later
        → (is_full c event ≡ false) × (is_late c event ≡ false) }
{
    requests_are_spelled();
}
