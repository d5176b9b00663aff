ghost use Rattle.std.specs.Prelude.{◌≡◌, ◌<◌, ◌≤◌, ◌+◌, ◌-◌, ◌^◌, ◌++◌, ◌∷◌, [], List, ℕ, length, OnOk, IfOk};
ghost use Rattle.hk_base.specs.TailoringParts.{TailoringParts};
ghost use Rattle.hk_base.specs.Fields.{octets_of};
ghost use Rattle.pus_packet.specs.Packets as packets;
ghost use Rattle.pus_packet.specs.Joining.{Joins, IsCommand, IsReport, command_octets, report_octets, with_checksum, command_packet, report_packet, id_of_packet};

use crate::checksum::crc16;
use crate::header::{JoinFault, TcHeader, TmHeader};
use crate::split::checksum_octets;
use hk_base::{Items, Memory, Octets, RequestId, Tailoring, put_uint};
use std::alloc::Global;

/// The most octets that a packet can have: its data length field has 16 bits and counts from 1 after the primary header.
const MOST_OCTETS: usize = 65_542;

/// The first two octets of a request with a secondary header, its process aside.
const REQUEST: u16 = 0x1800;

/// The first two octets of a report with a secondary header, its process aside.
const REPORT: u16 = 0x0800;

/// The sequence flags of a packet that isn't segmented, before its count.
const UNSEGMENTED: u16 = 0xc000;

/// The request packet of these headers and this body.
#[tactic(auto, using(crate::proofs::Lengths::command_length))]
pub fn join_tc(
    alloc: Global,
    tailoring: &Tailoring,
    header: &TcHeader,
    body: &[u8],
) -> Result<Octets, JoinFault>
    requires size { length body.now ≤ 2 ^ 31 }
    requires fits { IsCommand header.now }
    ensures { Joins (command_octets tailoring.now header.now body.now) result }
{
    let checksum = tailoring.widths().tc_checksum;
    let size = 11 + body.len() + checksum_octets(checksum);
    if size > MOST_OCTETS {
        return Err(JoinFault::TooLong(size as u32));
    }
    Ok(command(alloc, checksum, header, body, size)?)
}

/// The report packet of these headers and this body.
#[tactic(auto, using(crate::proofs::Lengths::report_length))]
pub fn join_tm(
    alloc: Global,
    tailoring: &Tailoring,
    header: &TmHeader,
    body: &[u8],
) -> Result<Octets, JoinFault>
    requires size { length body.now ≤ 2 ^ 31 }
    requires fits { IsReport (packets.time_octets tailoring.now) header.now }
    ensures { Joins (report_octets tailoring.now header.now body.now) result }
{
    let widths = tailoring.widths();
    let time = widths.coarse + widths.fine;
    let checksum = widths.tm_checksum;
    let size = 13 + usize::from(time) + body.len() + checksum_octets(checksum);
    if size > MOST_OCTETS {
        return Err(JoinFault::TooLong(size as u32));
    }
    Ok(report(alloc, checksum, time, header, body, size)?)
}

/// The octets of a request packet, which are so many.
fn command(
    alloc: Global,
    checksum: bool,
    header: &TcHeader,
    body: &[u8],
    size: usize,
) -> Result<Octets, Memory>
    requires fits { IsCommand header.now }
    requires size { (size ≡ 11 + length body.now + packets.checksum_octets checksum) × (size ≤ 65542) }
    ensures { IfOk result (λ octets. octets ≡ command_packet checksum header.now body.now) }
{
    let mut out = Vec::with_capacity(alloc, size)?;
    put_primary(&mut out, REQUEST + header.apid, header.count, size)?;
    put_secondary(&mut out, header.flags, header.service, header.subtype)?;
    put_word(&mut out, header.source)?;
    out.extend_from_slice(body)?;
    put_checksum(&mut out, checksum)?;
    Ok(Items::from_vec(out))
}

/// The octets of a report packet, which are so many.
fn report(
    alloc: Global,
    checksum: bool,
    time: u8,
    header: &TmHeader,
    body: &[u8],
    size: usize,
) -> Result<Octets, Memory>
    requires fits { IsReport time header.now }
    requires time { (1 ≤ time) × (time ≤ 7) }
    requires size { (size ≡ 13 + time + length body.now + packets.checksum_octets checksum) × (size ≤ 65542) }
    ensures { IfOk result (λ octets. octets ≡ report_packet checksum time header.now body.now) }
{
    let mut out = Vec::with_capacity(alloc, size)?;
    put_primary(&mut out, REPORT + header.apid, header.count, size)?;
    put_secondary(&mut out, header.status, header.service, header.subtype)?;
    put_word(&mut out, header.counter)?;
    put_word(&mut out, header.destination)?;
    put_uint(&mut out, time, u128::from(header.tag))?;
    out.extend_from_slice(body)?;
    put_checksum(&mut out, checksum)?;
    Ok(Items::from_vec(out))
}

/// What names a request in the reports on it: the first four octets of its packet (ECSS-E-ST-70-41C, 8.1.2.1).
pub fn request_id(header: &TcHeader) -> RequestId
    requires { IsCommand header.now }
    ensures { (t : TailoringParts) (body : List ℕ) → result ≡ id_of_packet (command_octets t header.now body) }
{
    RequestId {
        word: u32::from(REQUEST + header.apid) * 65_536 + u32::from(UNSEGMENTED + header.count),
    }
}

/// Appends the primary header of a packet of so many octets.
fn put_primary(
    out: &mut Vec<u8>,
    identification: u16,
    count: u16,
    size: usize,
) -> Result<(), Memory>
    requires count { count < 2 ^ 14 }
    requires size { (7 ≤ size) × (size ≤ 65542) }
    ensures { OnOk result (out.new.items ≡ out.old.items ++ (octets_of 2 identification ++ (octets_of 2 (0xc000 + count) ++ octets_of 2 (size - 7)))) }
{
    put_word(out, identification)?;
    put_word(out, UNSEGMENTED + count)?;
    put_word(out, (size - 7) as u16)
}

/// Appends the first three octets of a secondary header, whose PUS version is 2.
fn put_secondary(out: &mut Vec<u8>, low: u8, service: u8, subtype: u8) -> Result<(), Memory>
    requires { low < 2 ^ 4 }
    ensures { OnOk result (out.new.items ≡ out.old.items ++ (0x20 + low) ∷ service ∷ subtype ∷ []) }
{
    out.extend_from_slice(&[0x20 + low, service, subtype])?;
    Ok(())
}

/// Appends the checksum of what is there, where it is on.
fn put_checksum(out: &mut Vec<u8>, on: bool) -> Result<(), Memory>
    ensures { OnOk result (out.new.items ≡ with_checksum on out.old.items) }
{
    if on {
        let checksum = crc16(out.as_slice());
        put_word(out, checksum)?;
    }
    Ok(())
}

/// Appends two octets.
fn put_word(out: &mut Vec<u8>, word: u16) -> Result<(), Memory>
    ensures { OnOk result (out.new.items ≡ out.old.items ++ octets_of 2 word) }
{
    put_uint(out, 2, u128::from(word))
}
