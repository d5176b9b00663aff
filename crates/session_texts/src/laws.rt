//! What the definitions promise.
ghost use Rattle.std.specs.Prelude.{◌≡◌, ℕ, List, [], ◌∷◌, ◌++◌, map, reverse, ℤ, true, false, option_map, None, Ok, IsTrue};
ghost use Rattle.std.specs.Option.{option_or};
ghost use Rattle.hk_base.specs.Builtin.{builtin};
ghost use Rattle.hk_base.specs.TailoringParts.{TailoringParts};
ghost use Rattle.pus_messages.specs.Messages.{protocol};
ghost use Rattle.pus_messages.specs.Protocol.{Protocol};
ghost use Rattle.hk_base.specs.declared.types.Key.{Key};
ghost use Rattle.hk_base.specs.declared.types.Place.{Place};
ghost use Rattle.hk_world.specs.Examples.{small, commanded_world};
ghost use Rattle.hk_world.specs.Timelines.{tailoring};
ghost use Rattle.hk_world.specs.Worlds.{World, IsWorld};
ghost use Rattle.ground_history.specs.Bounds.{history_in};
ghost use Rattle.definition_intervals.specs.Openings.{is_settled};
ghost use Rattle.definition_intervals.specs.declared.answer.Verdict.{Verdict};
ghost use Rattle.session_record.specs.Records.{Entries, header_of, read_record};
ghost use Rattle.session_record.specs.declared.entry.Entry.{Entry};
ghost use Rattle.session_record.specs.declared.header.Header.{Header};
ghost use Rattle.session_texts.specs.Sessions.{known_after, known_with, kinds_after, kinds_with, entries_problem, record_problem};
ghost use Rattle.session_texts.specs.Texts.{count_lines, blocks, text};
ghost use Rattle.session_texts.specs.Follow.{is_decision, followed, follow_text};
ghost use Rattle.session_texts.specs.Truth.{openings_in, IsTrueVerdict, IsTrueReason, HaveRisingTags, HaveDistinctTags, HasTrueReasons, IsTrueText, IsTrueSoFar, IsTrueFollowing, IsSeenIn, kinds_in};
ghost use Rattle.session_texts.specs.Lines.{HasTrueLines};
ghost use Rattle.session_texts.specs.Example.{commanded_entries, commanded_text};
ghost use Rattle.session_texts.specs.declared.problem.RecordProblem.TheVariants as problem;

/// Of no entries nothing is written.
pub fn empty_records()
    ensures { (h : Header) → text (protocol builtin) h [] ≡ [] }
{}

/// Entries come one by one: what is known after one more, what became of packets with one more, and the first problem of some and
/// then others.
pub fn entries_come_one_by_one()
    ensures known { (p : Protocol) (h : Header) (entries : List Entry) (e : Entry)
        → known_after p h (entries ++ e ∷ []) ≡ known_with p (known_after p h entries) e }
    ensures kinds { (p : Protocol) (h : Header) (entries : List Entry) (e : Entry)
        → kinds_after p h (entries ++ e ∷ []) ≡ kinds_with p (known_after p h entries) e (kinds_after p h entries) }
    ensures problems { (p : Protocol) (h : Header) (earlier : List Entry) (now later : List (ℕ × Entry))
        → entries_problem p h earlier (now ++ later)
        ≡ option_or (entries_problem p h earlier now) (entries_problem p h (earlier ++ map (λ x. x.1) now) later) }
{}

/// In every world the text of its entries is true: each block, each value, each count, in the order of tags. And the reasons that
/// it gives are so: each request that is named leaves its report open.
pub fn texts_are_true()
    ensures entries { (t : TailoringParts) (w : World) (h : Header) (entries : List Entry) → w.session.protocol ≡ protocol t → IsWorld w
        → IsSeenIn w h entries → IsTrueText w (text (protocol t) h entries) }
    ensures known { (t : TailoringParts) (w : World) → w.session.protocol ≡ protocol t → IsWorld w
        → IsTrueText w (blocks (protocol t) (history_in w) ++ count_lines (kinds_in w)) }
    ensures reasons { (t : TailoringParts) (w : World) (h : Header) (entries : List Entry) → w.session.protocol ≡ protocol t → IsWorld w
        → IsSeenIn w h entries → HasTrueReasons HaveRisingTags w (text (protocol t) h entries) }
    ensures known_reasons { (t : TailoringParts) (w : World) → w.session.protocol ≡ protocol t → IsWorld w
        → HasTrueReasons HaveRisingTags w (blocks (protocol t) (history_in w) ++ count_lines (kinds_in w)) }
{}

/// In every world each entry is taken, so a record of its entries has no problem but a fault of its format.
pub fn records_of_worlds_have_no_problem()
    ensures entries { (t : TailoringParts) (w : World) (h : Header) (list : List (ℕ × Entry)) → w.session.protocol ≡ protocol t → IsWorld w
        → IsSeenIn w h (map (λ e. e.1) list) → entries_problem (protocol t) h [] list ≡ None }
    ensures octets { (t : TailoringParts) (w : World) (octets : List ℕ) (x : Header × Entries) → w.session.protocol ≡ protocol t → IsWorld w
        → read_record octets ≡ Ok x → IsSeenIn w x.0 (map (λ e. e.1) x.1.list)
        → record_problem (protocol t) octets ≡ option_map problem.Format x.1.fault }
{}

/// In every world what is written as its entries come is true: all that was written before any of them, and the whole, in which
/// each report has one block.
pub fn followed_lines_are_true()
    ensures whole { (t : TailoringParts) (w : World) (h : Header) (entries : List Entry) → w.session.protocol ≡ protocol t → IsWorld w
        → IsSeenIn w h entries → IsTrueFollowing w (follow_text (protocol t) h entries) }
    ensures so_far { (t : TailoringParts) (w : World) (h : Header) (earlier later : List Entry) → w.session.protocol ≡ protocol t → IsWorld w
        → IsSeenIn w h (earlier ++ later) → IsTrueSoFar w (followed (protocol t) h (reverse earlier)) }
    ensures reasons { (t : TailoringParts) (w : World) (h : Header) (entries : List Entry) → w.session.protocol ≡ protocol t → IsWorld w
        → IsSeenIn w h entries → HasTrueReasons HaveDistinctTags w (follow_text (protocol t) h entries) }
{}

/// Where what is said of a report is true, a settled report is decided; and where the reason is, it is said that there is no
/// opening exactly where there is none.
pub fn true_verdicts()
    ensures settled { (w : World) (key : Key) (tag : ℕ) (v : Verdict) (rows : List (Place × ℤ)) → IsTrueVerdict w key tag v rows
        → IsTrue (is_settled (tailoring w.session) (history_in w) key tag) → IsTrue (is_decision v) }
    ensures unopened { (w : World) (key : Key) (tag : ℕ) (v : Verdict) → IsTrueReason w key tag v
        → openings_in w key tag ≡ [] → v ≡ Verdict.NoOpening }
    ensures opened { (w : World) (key : Key) (tag : ℕ) → IsTrueReason w key tag Verdict.NoOpening → openings_in w key tag ≡ [] }
{}

/// Of a text that is true each line is true, also where only a first part of it was written.
pub fn lines_are_true()
    ensures text { (w : World) (written rest : List ℕ) → IsTrueText w (written ++ rest) → HasTrueLines w written }
    ensures following { (w : World) (written rest : List ℕ) → IsTrueFollowing w (written ++ rest) → HasTrueLines w written }
    ensures so_far { (w : World) (written rest : List ℕ) → IsTrueSoFar w (written ++ rest) → HasTrueLines w written }
{}

/// There is a world of whose entries a value is written.
pub fn example_texts()
    ensures seen { IsSeenIn commanded_world (header_of true false) commanded_entries }
    ensures text { text (protocol small) (header_of true false) commanded_entries ≡ commanded_text }
{}
