//! Each report has one spelling.
ghost use Rattle.std.specs.Prelude.{◌≡◌, ◌≤◌, ℕ, List, Some, Ok};
ghost use Rattle.hk_base.specs.TailoringParts.{TailoringParts};
ghost use Rattle.body_fields.specs.Spelling.{AreOctets};
ghost use Rattle.st01_reports.specs.declared.verification.Verification.{Verification};
ghost use Rattle.st01_reports.specs.Bodies.{report_body};
ghost use Rattle.st01_reports.specs.Spelling as spelling;
ghost use Rattle.st01_reports.specs.Spelling.{verification_octets, IsVerification, IsSpelledReport};

/// A report is read from its spelling, and from no other octets.
pub fn reports_are_spelled()
    ensures again { (t : TailoringParts) (v : Verification) → 1 ≤ t.widths.count_octets → IsVerification t v
        → report_body t (spelling.subtype v) (verification_octets t v) ≡ Some (Ok v) }
    ensures only { (t : TailoringParts) (number : ℕ) (octets : List ℕ) (v : Verification) → AreOctets octets → report_body t number octets ≡ Some (Ok v)
        → IsSpelledReport t number v octets }
{}
