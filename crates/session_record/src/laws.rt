//! What the definitions of a record imply.
ghost use Rattle.std.specs.Prelude.{◌≡◌, ◌<◌, ◌≤◌, ℕ, List, Some, None, Ok, ◌++◌, length, take};
ghost use Rattle.std.specs.List.{AllByRecursion};
ghost use Rattle.session_record.specs.Records.{record_fault, trimmed, Header, located, most_entries, read_record, record_octets, FitIn};
ghost use Rattle.session_record.specs.declared.entry.Entry.{Entry};

/// What was written is read back: the header and the entries, each at its offset, with no fault.
pub fn records_are_read_back()
    ensures { (h : Header) (entries : List Entry) → FitIn most_entries 8 entries
        → read_record (record_octets h entries) ≡ Ok (h, record { list = located 8 entries; fault = None }) }
{}

/// What is left of octets when they are trimmed is a first part of them and a record without a fault, and no first part of them
/// that is one is longer.
pub fn trimmed_is_the_longest_record()
    ensures front { (octets front : List ℕ) → AllByRecursion (λ octet. octet < 256) octets → trimmed octets ≡ Some front
        → (rest : List ℕ) × (octets ≡ front ++ rest) }
    ensures whole { (octets front : List ℕ) → trimmed octets ≡ Some front → record_fault front ≡ None }
    ensures longest { (octets front : List ℕ) (n : ℕ) → trimmed octets ≡ Some front → record_fault (take n octets) ≡ None
        → length (take n octets) ≤ length front }
{}
