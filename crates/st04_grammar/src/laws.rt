//! Each request and each report has one spelling.
ghost use Rattle.std.specs.Prelude.{◌≡◌, ℕ, List, Some, Ok};
ghost use Rattle.hk_base.specs.TailoringParts.{TailoringParts};
ghost use Rattle.hk_base.specs.Fit.{IsFit};
ghost use Rattle.body_fields.specs.Spelling.{AreOctets};
ghost use Rattle.st04_grammar.specs.declared.bodies.Request04.{Request04};
ghost use Rattle.st04_grammar.specs.declared.bodies.Report04.{Report04};
ghost use Rattle.st04_grammar.specs.Bodies.{request_body, report_body};
ghost use Rattle.st04_grammar.specs.Spelling.{request_subtype, request_octets, report_subtype, report_octets, IsRequest, IsReport};

/// A request is read from its spelling, and from no other octets.
pub fn requests_are_spelled()
    ensures again { (t : TailoringParts) (v : Request04) → IsFit t → IsRequest t v → request_body t (request_subtype v) (request_octets t v) ≡ Some (Ok v) }
    ensures only { (t : TailoringParts) (subtype : ℕ) (octets : List ℕ) (v : Request04) → AreOctets octets → request_body t subtype octets ≡ Some (Ok v)
        → (subtype ≡ request_subtype v) × (octets ≡ request_octets t v) × IsRequest t v }
{}

/// A report is read from its spelling, and from no other octets.
pub fn reports_are_spelled()
    ensures again { (t : TailoringParts) (v : Report04) → IsFit t → IsReport t v → report_body t (report_subtype v) (report_octets t v) ≡ Some (Ok v) }
    ensures only { (t : TailoringParts) (subtype : ℕ) (octets : List ℕ) (v : Report04) → AreOctets octets → report_body t subtype octets ≡ Some (Ok v)
        → (subtype ≡ report_subtype v) × (octets ≡ report_octets t v) × IsReport t v }
{}
