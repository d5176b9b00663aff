ghost use Rattle.std.specs.Prelude.{◌≡◌, ◌<◌, ◌≤◌, ◌+◌, ◌^◌, length, take, IfNone, IfOk, true};
ghost use Rattle.hk_base.specs.Fields.{number_of};
ghost use Rattle.pus_packet.specs.Joining.{IsCommand, IsReport};
ghost use Rattle.pus_packet.specs.Packets as packets;
ghost use Rattle.pus_packet.specs.Packets.{Gives, word_at, split_command, split_report, process, process_of, first_fault, header_faults};

use crate::checksum::crc16;
use crate::header::{PacketFault, TcHeader, TmHeader};
use hk_base::{Tailoring, get_uint};

/// The headers and the body of a request packet, or the first fault.
pub fn split_tc<'a>(
    tailoring: &Tailoring,
    bytes: &'a [u8],
) -> Result<(TcHeader, &'a [u8]), PacketFault>
    requires size { length bytes.now ≤ 2 ^ 31 }
    ensures gives { Gives (λ x. (x.0, x.1.now)) result (split_command tailoring.now bytes.now) }
    ensures fits { IfOk result (λ x. IsCommand x.0) }
    ensures left { IfOk result (λ x. length x.1.now ≤ length bytes.now) }
{
    let checksum = tailoring.widths().tc_checksum;
    if let Some(fault) = packet_fault(bytes, 1, 11, checksum) {
        return Err(fault);
    }
    let header = TcHeader {
        apid: apid(bytes),
        count: word(bytes, 2) % (1 << 14),
        flags: bytes[6] % 16,
        service: bytes[7],
        subtype: bytes[8],
        source: word(bytes, 9),
    };
    Ok((header, &checked_part(bytes, checksum)[11..]))
}

/// The headers and the body of a report packet, or the first fault.
pub fn split_tm<'a>(
    tailoring: &Tailoring,
    bytes: &'a [u8],
) -> Result<(TmHeader, &'a [u8]), PacketFault>
    requires size { length bytes.now ≤ 2 ^ 31 }
    ensures gives { Gives (λ x. (x.0, x.1.now)) result (split_report tailoring.now bytes.now) }
    ensures fits { IfOk result (λ x. IsReport (packets.time_octets tailoring.now) x.0) }
    ensures left { IfOk result (λ x. length x.1.now ≤ length bytes.now) }
{
    let widths = tailoring.widths();
    let time = widths.coarse + widths.fine;
    let headers = 13 + usize::from(time);
    if let Some(fault) = packet_fault(bytes, 0, headers, widths.tm_checksum) {
        return Err(fault);
    }
    let header = TmHeader {
        apid: apid(bytes),
        count: word(bytes, 2) % (1 << 14),
        status: bytes[6] % 16,
        service: bytes[7],
        subtype: bytes[8],
        counter: word(bytes, 9),
        destination: word(bytes, 11),
        tag: tag_at(&bytes[13..], time),
    };
    Ok((header, &checked_part(bytes, widths.tm_checksum)[headers..]))
}

/// The application process of octets that have a primary header; None where they have fewer than its 6 octets.
pub fn apid_of(bytes: &[u8]) -> Option<u16>
    ensures { result ≡ process_of bytes.now }
{
    if bytes.len() < 6 {
        None
    } else {
        Some(apid(bytes))
    }
}

/// The first fault of octets that are to be a packet of a direction, with headers of so many octets.
fn packet_fault(bytes: &[u8], wanted: u8, headers: usize, checksum: bool) -> Option<PacketFault>
    requires size { length bytes.now ≤ 2 ^ 31 }
    requires width { (11 ≤ headers) × (headers ≤ 20) }
    ensures fault { result ≡ packets.packet_fault wanted headers checksum bytes.now }
    ensures enough { IfNone result (headers + packets.checksum_octets checksum ≤ length bytes.now) }
{
    if let Some(fault) = header_fault(bytes, wanted, headers + checksum_octets(checksum)) {
        return Some(fault);
    }
    if checksum {
        checksum_fault(bytes)
    } else {
        None
    }
}

/// The first fault of the headers of octets that have to be so many at least.
fn header_fault(bytes: &[u8], wanted: u8, least: usize) -> Option<PacketFault>
    requires size { length bytes.now ≤ 2 ^ 31 }
    requires least { 11 ≤ least }
    ensures fault { result ≡ first_fault (header_faults wanted least bytes.now) }
    ensures enough { IfNone result (least ≤ length bytes.now) }
{
    let real = bytes.len() as u32;
    if bytes.len() < least {
        return Some(PacketFault::Short(real));
    }
    let claimed = u32::from(word(bytes, 4)) + 7;
    if claimed != real {
        return Some(PacketFault::Length(claimed, real));
    }
    let first = word(bytes, 0);
    let version = (first >> 13) as u8;
    if version != 0 {
        return Some(PacketFault::Version(version));
    }
    let direction = ((first >> 12) % 2) as u8;
    if direction != wanted {
        return Some(PacketFault::Direction(direction));
    }
    if (first >> 11) % 2 != 1 {
        return Some(PacketFault::NoSecondary);
    }
    let flags = (word(bytes, 2) >> 14) as u8;
    if flags != 3 {
        return Some(PacketFault::Segmented(flags));
    }
    let pus_version = bytes[6] >> 4;
    if pus_version != 2 {
        return Some(PacketFault::PusVersion(pus_version));
    }
    None
}

/// The fault of the checksum in the last two octets.
fn checksum_fault(bytes: &[u8]) -> Option<PacketFault>
    requires { 2 ≤ length bytes.now }
    ensures { result ≡ packets.checksum_fault true bytes.now }
{
    let field = word(bytes, bytes.len() - 2);
    let computed = crc16(checked_part(bytes, true));
    if field == computed {
        None
    } else {
        Some(PacketFault::Checksum(field, computed))
    }
}

/// The octets of a packet without its checksum.
fn checked_part(bytes: &[u8], checksum: bool) -> &[u8]
    requires { packets.checksum_octets checksum ≤ length bytes.now }
    ensures { result.now ≡ packets.checked_part checksum bytes.now }
{
    &bytes[..bytes.len() - checksum_octets(checksum)]
}

/// How many octets a checksum has, where it is on.
pub(crate) fn checksum_octets(on: bool) -> usize
    ensures { result ≡ packets.checksum_octets on }
{
    if on { 2 } else { 0 }
}

/// The application process in the primary header.
fn apid(bytes: &[u8]) -> u16
    requires { 6 ≤ length bytes.now }
    ensures { result ≡ process bytes.now }
{
    word(bytes, 0) % (1 << 11)
}

/// The number in two octets.
fn word(bytes: &[u8], at: usize) -> u16
    requires { at + 2 ≤ length bytes.now }
    ensures { result ≡ word_at at bytes.now }
{
    u16::from(bytes[at]) * 256 + u16::from(bytes[at + 1])
}

/// The number that the octets of a time make.
fn tag_at(bytes: &[u8], octets: u8) -> u64
    requires width { (1 ≤ octets) × (octets ≤ 7) }
    requires enough { octets ≤ length bytes.now }
    ensures value { result ≡ number_of (take octets bytes.now) }
    ensures fits { result < 256 ^ octets }
{
    match get_uint(bytes, octets) {
        Ok(tag) => tag as u64,
        Err(_) => unreachable!(),
    }
}
