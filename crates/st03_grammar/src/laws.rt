//! Each request and each report has one spelling.
ghost use Rattle.std.specs.Prelude.{◌≡◌, ℕ, List, Some, Ok};
ghost use Rattle.hk_base.specs.TailoringParts.{TailoringParts};
ghost use Rattle.body_fields.specs.Spelling.{AreOctets};
ghost use Rattle.st03_grammar.specs.declared.bodies.Request03.{Request03};
ghost use Rattle.st03_grammar.specs.declared.bodies.Report03.{Report03};
ghost use Rattle.st03_grammar.specs.Bodies.{request_body, report_body};
ghost use Rattle.st03_grammar.specs.Spelling.{request_subtype, request_octets, report_subtype, report_octets, IsRequest03, IsReport03, IsSpelledRequest, IsSpelledReport};

/// A request is read from its spelling, and from no other octets.
pub fn requests_are_spelled()
    ensures again { (t : TailoringParts) (v : Request03) → IsRequest03 t v → request_body t (request_subtype v) (request_octets t v) ≡ Some (Ok v) }
    ensures only { (t : TailoringParts) (subtype : ℕ) (octets : List ℕ) (v : Request03) → AreOctets octets → request_body t subtype octets ≡ Some (Ok v)
        → IsSpelledRequest t subtype v octets }
{}

/// A report is read from its spelling, and from no other octets.
pub fn reports_are_spelled()
    ensures again { (t : TailoringParts) (v : Report03) → IsReport03 t v → report_body t (report_subtype v) (report_octets t v) ≡ Some (Ok v) }
    ensures only { (t : TailoringParts) (subtype : ℕ) (octets : List ℕ) (v : Report03) → AreOctets octets → report_body t subtype octets ≡ Some (Ok v)
        → IsSpelledReport t subtype v octets }
{}
