//! What the definitions promise.
ghost use Rattle.std.specs.Prelude.{◌≡◌, ℕ, List, [], ◌∷◌, ◌++◌, take, Some};
ghost use Rattle.hk_base.specs.TailoringParts.{TailoringParts};
ghost use Rattle.pus_messages.specs.Messages.{protocol};
ghost use Rattle.journaled_records.specs.Replays.{IsReplayedTruly, HasTrueSamples};
ghost use Rattle.std.specs.List.{AllByRecursion};
ghost use Rattle.journal_texts.specs.Moments.{IsMoment};
ghost use Rattle.hk_world.specs.Timelines.{EachAfter, Session};
ghost use Rattle.hk_world.specs.Worlds.{World, Step, IsWorld, MayHappen, MayStep, moments_of, sent_count};
ghost use Rattle.hk_world.specs.declared.moment.Moment.{Moment};
ghost use Rattle.session_record.specs.Records.{FitIn, header_of, most_entries, trimmed};
ghost use Rattle.session_record.specs.declared.entry.Entry.{Entry};
ghost use Rattle.session_record.specs.declared.header.Header.{Header};
ghost use Rattle.session_texts.specs.Truth.{IsSeenIn, IsTrueText};
ghost use Rattle.journaled_records.specs.OwnWorlds.{IsStepOf, AreStepsOf, IsOwnWorld, IsFrontOf, IsOwnRecord, told_entries, told_octets};
ghost use Rattle.journaled_records.specs.Agreeing.{IsAlike, AgreesOn, AgreeBelow};

use journal_texts::lines_are_read_back;

/// Of the world of a record's own lines a first part is that of a first part of the record, and one entry more, which stands for
/// a step that may come next, is one step more. What was sent and received in such a record is what the ground saw in that world.
pub fn own_worlds()
    ensures front { (w : World) (h : Header) (front back : List Entry) → IsOwnWorld w h (front ++ back) → (v : World) × IsFrontOf v w × IsOwnWorld v h front }
    ensures next { (s : Session) (steps : List Step) (h : Header) (entries : List Entry) (e : Entry) (step : Step)
        → IsOwnWorld (record { session = s; steps = steps }) h entries → IsStepOf s step e → MayStep s steps step
        → IsOwnWorld (record { session = s; steps = step ∷ steps }) h (entries ++ e ∷ []) }
    ensures seen { (w : World) (h : Header) (entries : List Entry) → IsOwnWorld w h entries → IsSeenIn w h entries }
{}

/// A record that tells a world is one of whose own lines it is the world.
pub fn told_worlds()
    ensures entries { (w : World) → IsWorld w → AllByRecursion IsMoment (moments_of w.steps)
        → IsOwnWorld w (header_of w.session.known w.session.long) (told_entries w) }
    ensures octets { (w : World) → IsWorld w → AllByRecursion IsMoment (moments_of w.steps)
        → FitIn most_entries 8 (told_entries w) → IsOwnRecord w (told_octets w) }
{
    lines_are_read_back();
}

/// In a session entries have one list of steps at most. A packet that was received is of one moment at most, or of others.
pub fn steps_are_determined()
    ensures step { (s : Session) (earlier : List Step) → EachAfter (MayStep s) earlier → (x y : Step) (e : Entry)
        → MayStep s earlier x → MayStep s earlier y → IsStepOf s x e → IsStepOf s y e → x ≡ y }
    ensures steps { (s : Session) (xs ys : List Step) (entries : List Entry) → EachAfter (MayStep s) xs → EachAfter (MayStep s) ys
        → AreStepsOf s xs entries → AreStepsOf s ys entries → xs ≡ ys }
{}

/// What is trimmed of a first part of such a record is such a record: that of the world up to a step.
pub fn cut_records()
    ensures { (w : World) (octets front : List ℕ) (n : ℕ) → IsOwnRecord w octets → trimmed (take n octets) ≡ Some front
        → (v : World) × IsFrontOf v w × IsOwnRecord v front }
{}

/// Of what is trimmed of a first part of such a record the text is true in the world up to a step, and each sample, row of
/// statistics and current value in the whole of the world. So is each sample of a first part of a text that is true up to a step.
pub fn cut_records_are_replayed()
    ensures replayed { (t : TailoringParts) (w : World) (octets front : List ℕ) (n : ℕ) → w.session.protocol ≡ protocol t → IsOwnRecord w octets
        → trimmed (take n octets) ≡ Some front → IsReplayedTruly t w front }
    ensures samples { (v w : World) (written rest : List ℕ) → IsFrontOf v w → IsWorld w → IsTrueText v (written ++ rest) → HasTrueSamples w written }
{}

/// What happened in a session may have happened in one that is like it and has the same packet under each number that a moment
/// names. A step that may come next may so in one that has the same packets under all numbers that were sent; and a world stays a
/// world, and that of the same record's own lines.
pub fn agreeing_sessions()
    ensures moments { (s r : Session) (moments : List Moment) → IsAlike s r → AllByRecursion (λ m. AgreesOn s r m.act) moments
        → EachAfter (MayHappen s) moments → EachAfter (MayHappen r) moments }
    ensures step { (s r : Session) (earlier : List Step) (step : Step) → IsAlike s r → AgreeBelow (sent_count (step ∷ earlier)) s r
        → EachAfter (MayStep s) earlier → MayStep s earlier step → MayStep r earlier step }
    ensures world { (w : World) (r : Session) → IsAlike w.session r → AgreeBelow (sent_count w.steps) w.session r
        → IsWorld w → IsWorld (record { session = r; steps = w.steps }) }
    ensures own { (w : World) (r : Session) (h : Header) (entries : List Entry) → IsAlike w.session r → AgreeBelow (sent_count w.steps) w.session r
        → IsOwnWorld w h entries → IsOwnWorld (record { session = r; steps = w.steps }) h entries }
{}
