//! What the definitions imply.
ghost use Rattle.std.specs.Prelude.{◌≡◌, ℕ, List, false, Some, Ok, Err};
ghost use Rattle.session_record.specs.Faults.{is_cut};
ghost use Rattle.session_record.specs.Records.{record_fault, trimmed};
ghost use Rattle.session_record.specs.declared.entry.RecordFault.{RecordFault};
ghost use Rattle.record_commands.specs.Trimming.{trimmed_octets};

/// What is left of octets that are trimmed is their longest first part that is a record; nothing is left only where their first
/// fault isn't a cut.
pub fn trimmed_octets_are_the_longest_record()
    ensures trims { (octets front : List ℕ) → trimmed_octets octets ≡ Ok front → trimmed octets ≡ Some front }
    ensures refuses { (octets : List ℕ) (fault : RecordFault) → trimmed_octets octets ≡ Err fault → (record_fault octets ≡ Some fault) × (is_cut fault ≡ false) }
{}
