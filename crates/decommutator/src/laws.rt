//! What the definitions promise.
ghost use Rattle.std.specs.Prelude.{◌≡◌, [], ◌∷◌, ◌++◌, ℕ, List, Some};
ghost use Rattle.hk_base.specs.TailoringParts.{TailoringParts};
ghost use Rattle.pus_messages.specs.Messages.{protocol};
ghost use Rattle.session_record.specs.declared.header.Header.{Header};
ghost use Rattle.session_record.specs.declared.entry.Entry.{Entry};
ghost use Rattle.session_texts.specs.Texts.{text};
ghost use Rattle.session_texts.specs.Tallies.{tally};
ghost use Rattle.session_texts.specs.Follow.{entry_blocks, follow_end};
ghost use Rattle.decommutator.specs.Standing.{Decommutation, new_standing, with_entry, standing_text, standing_tally};
ghost use Rattle.decommutator.specs.Following.{IsFollowing, after_followed, followed_text, closing_text};
ghost use Rattle.decommutator.specs.Entries.{standing_of};

/// The state of a session is a fold over its entries, from the state of none; text and numbers are functions of that state.
pub fn entries_stand()
    ensures first { (t : TailoringParts) (h : Header) → standing_of t h [] ≡ new_standing t h.known h.long }
    ensures next { (t : TailoringParts) (h : Header) (entries : List Entry) (e : Entry)
        → with_entry (standing_of t h entries) e ≡ standing_of t h (entries ++ e ∷ []) }
    ensures text { (t : TailoringParts) (h : Header) (entries : List Entry) → standing_text (standing_of t h entries) ≡ text (protocol t) h entries }
    ensures tally { (t : TailoringParts) (h : Header) (entries : List Entry) → standing_tally (standing_of t h entries) ≡ tally (protocol t) h entries }
{}

/// The same of entries that were each followed: the state is a fold over them, and what is written is what is due of the entries.
pub fn entries_are_followed()
    ensures first { (t : TailoringParts) (h : Header) → IsFollowing t h [] (record { standing = new_standing t h.known h.long; waiting = Some [] }) }
    ensures next { (t : TailoringParts) (h : Header) (entries : List Entry) (d : Decommutation) (e : Entry) → IsFollowing t h entries d
        → IsFollowing t h (e ∷ entries) (after_followed d e) }
    ensures text { (t : TailoringParts) (h : Header) (entries : List Entry) (d : Decommutation) (e : Entry) → IsFollowing t h entries d
        → followed_text d e ≡ entry_blocks (protocol t) h e entries }
    ensures rest { (t : TailoringParts) (h : Header) (entries : List Entry) (d : Decommutation) → IsFollowing t h entries d
        → closing_text d ≡ follow_end (protocol t) h entries }
{}
