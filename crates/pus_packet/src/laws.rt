ghost use Rattle.std.specs.Prelude.{List, ℕ, ◌↔◌};
ghost use Rattle.hk_base.specs.TailoringParts.{TailoringParts};
ghost use Rattle.pus_packet.specs.declared.header.TcHeader.{TcHeader};
ghost use Rattle.pus_packet.specs.declared.header.TmHeader.{TmHeader};
ghost use Rattle.pus_packet.specs.Packets.{time_octets};
ghost use Rattle.pus_packet.specs.Joining.{AreOctets, SplitsToCommand, SplitsToReport, IsCommandPacket, IsReportPacket};

/// A law of packets in both directions: octets are split into headers and a body exactly where they are the packet that
/// is joined of them, so what is joined is split again, and nothing else is split into the same.
pub fn packets()
    ensures requests { (t : TailoringParts) (h : TcHeader) (body octets : List ℕ) → AreOctets octets
        → SplitsToCommand t octets h body ↔ IsCommandPacket t.widths.tc_checksum h body octets }
    ensures reports { (t : TailoringParts) (h : TmHeader) (body octets : List ℕ) → AreOctets octets
        → SplitsToReport t octets h body ↔ IsReportPacket t.widths.tm_checksum (time_octets t) h body octets }
{}
