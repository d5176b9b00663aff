//! What a payload is, and what is read from it.
ghost use Rattle.std.specs.Prelude.{◌≡◌, ℕ, ℤ, List, Ok, length};
ghost use Rattle.hk_base.specs.TailoringParts.{TailoringParts};
ghost use Rattle.hk_base.specs.Definitions.{IsWellFormed};
ghost use Rattle.hk_base.specs.Fit.{IsFit, IsFitWidths};
ghost use Rattle.hk_base.specs.Payload.{AllFit, IsPayload, payload_read, places};
ghost use Rattle.hk_base.specs.declared.types.Definition.{Definition};
ghost use Rattle.sample_slots.specs.Slots.{IsSampled};

/// The laws of payloads. Octets are read as values exactly where they are the payload of these values, of which there is
/// one for each place. Whether values fit their places doesn't hang on the last slot.
pub fn payloads()
    ensures sampled { (t : TailoringParts) (d : Definition) → IsFitWidths t.widths → IsWellFormed t d → IsSampled d }
    ensures read { (t : TailoringParts) (d : Definition) (values : List ℤ) (octets : List ℕ) → IsFit t → IsPayload t d values octets
        → payload_read t d octets ≡ Ok values }
    ensures whole { (t : TailoringParts) (d : Definition) (values : List ℤ) (octets : List ℕ) → IsWellFormed t d
        → payload_read t d octets ≡ Ok values → IsPayload t d values octets }
    ensures count { (t : TailoringParts) (d : Definition) (values : List ℤ) (octets : List ℕ) (last : ℕ) → IsWellFormed t d
        → payload_read t d octets ≡ Ok values → length values ≡ length (places d last) }
    ensures anywhere { (t : TailoringParts) (d : Definition) (values : List ℤ) (last other : ℕ)
        → AllFit t (places d last) values → AllFit t (places d other) values }
{}
