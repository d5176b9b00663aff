//! What the definitions promise.
ghost use Rattle.std.specs.Prelude.{◌≡◌, ℕ, List, [], map, reverse, Some, None, Ok};
ghost use Rattle.hk_base.specs.TailoringParts.{TailoringParts};
ghost use Rattle.pus_messages.specs.Messages.{protocol};
ghost use Rattle.session_record.specs.Records.{Entries, read_record};
ghost use Rattle.session_record.specs.declared.header.Header.{Header};
ghost use Rattle.session_texts.specs.Sessions.{record_problem};
ghost use Rattle.session_texts.specs.Follow.{follow_text, followed};
ghost use Rattle.session_texts.specs.declared.problem.RecordProblem.{RecordProblem};
ghost use Rattle.followed_records.specs.Told.{taken_entries, told, told_text};

/// What comes of a record ends at the record's first problem. Without one it is the text of all its entries, and with one what is
/// written after each of the entries before it.
pub fn followed_texts()
    ensures problem { (t : TailoringParts) (octets : List ℕ) → (told t octets).problem ≡ record_problem (protocol t) octets }
    ensures whole { (t : TailoringParts) (octets : List ℕ) (x : Header × Entries) → read_record octets ≡ Ok x → record_problem (protocol t) octets ≡ None
        → told_text (told t octets) ≡ follow_text (protocol t) x.0 (map (λ e. e.1) x.1.list) }
    ensures part { (t : TailoringParts) (octets : List ℕ) (x : Header × Entries) (found : RecordProblem)
        → read_record octets ≡ Ok x → record_problem (protocol t) octets ≡ Some found
        → told_text (told t octets) ≡ followed (protocol t) x.0 (reverse (taken_entries (protocol t) x.0 [] x.1.list)) }
{}
