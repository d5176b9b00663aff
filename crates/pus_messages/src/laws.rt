ghost use Rattle.std.specs.Prelude.{◌≡◌, ℕ, List, Ok};
ghost use Rattle.hk_base.specs.TailoringParts.{TailoringParts};
ghost use Rattle.hk_base.specs.Fit.{IsFit};
ghost use Rattle.body_fields.specs.Spelling.{AreOctets};
ghost use Rattle.pus_messages.specs.declared.message.Request.{Request};
ghost use Rattle.pus_messages.specs.declared.message.Report.{Report};
ghost use Rattle.pus_messages.specs.Protocol.{IsLawful};
ghost use Rattle.pus_messages.specs.Names.{NoneTwice};
ghost use Rattle.pus_messages.specs.Messages.{protocol, request_of, report_of};
ghost use Rattle.pus_messages.specs.Spelling.{IsRequestPacket, IsReportPacket};

use pus_packet::packets;

/// The protocol of each tailoring keeps the laws that worlds and evidence rest on, and no request of it names a structure twice.
pub fn protocols()
    ensures lawful { (t : TailoringParts) → IsLawful (protocol t) }
    ensures names { (t : TailoringParts) → NoneTwice (protocol t) }
{}

/// A request of the grammar is read from its packet, and from no other octets. The calls are the laws that it stands on.
pub fn requests_are_spelled()
    ensures again { (t : TailoringParts) (r : Request) (octets : List ℕ) → IsFit t → AreOctets octets → IsRequestPacket t r octets
        → request_of t octets ≡ Ok r }
    ensures only { (t : TailoringParts) (r : Request) (octets : List ℕ) → AreOctets octets → request_of t octets ≡ Ok r → IsRequestPacket t r octets }
{
    packets();
    st03_grammar::requests_are_spelled();
    st04_grammar::requests_are_spelled();
    st20_grammar::requests_are_spelled();
}

/// A report of the grammar is read from its packet, and from no other octets. The calls are the laws that it stands on.
pub fn reports_are_spelled()
    ensures again { (t : TailoringParts) (r : Report) (octets : List ℕ) → IsFit t → AreOctets octets → IsReportPacket t r octets → report_of t octets ≡ Ok r }
    ensures only { (t : TailoringParts) (r : Report) (octets : List ℕ) → AreOctets octets → report_of t octets ≡ Ok r → IsReportPacket t r octets }
{
    packets();
    st01_reports::reports_are_spelled();
    st03_grammar::reports_are_spelled();
    st04_grammar::reports_are_spelled();
    st20_grammar::reports_are_spelled();
}
