use hk_base::Memory;
use std::alloc::AllocError;

/// The headers of a request packet (CCSDS 133.0-B, and the secondary header of ECSS-E-ST-70-41C, 7.4.4.1).
#[derive(Clone, Copy, Debug, PartialEq, Eq, Drop)]
pub struct TcHeader {
    /// 11 bits.
    pub apid: u16,
    /// 14 bits.
    pub count: u16,
    /// The acknowledgement flags, 4 bits.
    pub flags: u8,
    pub service: u8,
    pub subtype: u8,
    pub source: u16,
}

/// The headers of a report packet (CCSDS 133.0-B, and the secondary header of ECSS-E-ST-70-41C, 7.4.3.1).
#[derive(Clone, Copy, Debug, PartialEq, Eq, Drop)]
pub struct TmHeader {
    /// 11 bits.
    pub apid: u16,
    /// 14 bits.
    pub count: u16,
    /// The time reference status, 4 bits.
    pub status: u8,
    pub service: u8,
    pub subtype: u8,
    pub counter: u16,
    pub destination: u16,
    /// The number that the octets of the time make, in units of `256^-fine` seconds.
    pub tag: u64,
}

/// Why octets are no packet, in the order of checking: the first fault that holds is answered.
#[derive(Clone, Copy, Debug, PartialEq, Eq, Drop)]
pub enum PacketFault {
    /// So many octets are fewer than the headers and the checksum have.
    Short(u32),
    /// The length that the packet claims, and the number of octets that it has.
    Length(u32, u32),
    Version(u8),
    /// 0 is a report, 1 a request.
    Direction(u8),
    NoSecondary,
    /// The sequence flags, which are 3 in a packet that isn't segmented.
    Segmented(u8),
    PusVersion(u8),
    /// The checksum that the packet has, and the one of its octets.
    Checksum(u16, u16),
}

/// Why headers and a body are no packet.
#[derive(Clone, Copy, Debug, PartialEq, Eq, Drop)]
pub enum JoinFault {
    /// The packet would have so many octets, more than 65,542.
    TooLong(u32),
    /// There was no memory.
    Memory,
}

impl From<Memory> for JoinFault {
    ghost use Rattle.std.specs.Prelude.{◌≡◌};
    ghost use Rattle.pus_packet.specs.declared.header.JoinFault.TheVariants.{Memory};

    ghost from_gives = { λ _ fault. fault ≡ Memory };

    fn from(_: Memory) -> JoinFault {
        JoinFault::Memory
    }
}

impl From<AllocError> for JoinFault {
    ghost use Rattle.std.specs.Prelude.{◌≡◌};
    ghost use Rattle.pus_packet.specs.declared.header.JoinFault.TheVariants.{Memory};

    ghost from_gives = { λ _ fault. fault ≡ Memory };

    fn from(_: AllocError) -> JoinFault {
        JoinFault::Memory
    }
}
