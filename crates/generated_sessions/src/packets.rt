//! The packets of a session.
ghost use Rattle.std.specs.Prelude.{◌≡◌, ◌≤◌, ◌<◌, ◌+◌, ◌*◌, length, Ok, IfOk};
ghost use Rattle.pus_packet.specs.Joining.{id_of_packet, most_octets};
ghost use Rattle.pus_messages.specs.Spelling.{IsReport, HasRoom, report_octets, report_type};
ghost use Rattle.st01_reports.specs.Spelling.{IsRequestId};
ghost use Rattle.session_record.specs.declared.entry.Entry.TheVariants.{Got};
ghost use Rattle.pus_messages.specs.declared.message.ReportBody.TheVariants as tell;
ghost use Rattle.generated_sessions.specs.Generated as made;
ghost use Rattle.generated_sessions.specs.Generated.{made_tailoring, made_report, made_request, structure_entry, report_of, request_of};
ghost use Rattle.generated_sessions.specs.Parts.{IsPlain, IsNotTooLong, header_with};

use crate::payload::payload;
use crate::schedule::{changed_structure, round_tag, set_interval};
use hk_base::{Items, Key, Kind, Memory, Octets, RequestId, Tailoring};
use pus_messages::{Report, ReportBody, Request, RequestBody, write_report, write_request};
use pus_packet::{JoinFault, TcHeader, TmHeader, request_id};
use session_record::Entry;
use st01_reports::Verification;
use st03_grammar::{Pair, Report03, Request03};
use std::alloc::Global;

/// The report of a structure in a round, as it is received.
pub(crate) fn structure_report(
    alloc: Global,
    tailoring: &Tailoring,
    seed: u32,
    round: u32,
    structure: u32,
) -> Result<Entry, Memory>
    requires tailoring { tailoring.now ≡ made_tailoring }
    requires structure { (1 ≤ structure) × (structure ≤ 6) }
    requires round { round < 100000 }
    ensures { IfOk result (λ entry. entry ≡ structure_entry seed round structure) }
{
    let payload = payload(alloc, seed, round, structure)?;
    let key = Key {
        kind: Kind::Housekeeping,
        id: structure,
    };
    let report = Report {
        header: report_header(round_tag(round) + u64::from(structure), 3, 25),
        body: ReportBody::Hk(Report03::Values(key, payload)),
    };
    Ok(Entry::Got(report_packet(alloc, tailoring, &report)?))
}

/// The verification report of a request so many ticks into its round, as it is received.
pub(crate) fn verification_report(
    alloc: Global,
    tailoring: &Tailoring,
    request: u32,
    ticks: u64,
    verification: Verification,
) -> Result<Entry, Memory>
    requires tailoring { tailoring.now ≡ made_tailoring }
    requires request { 16 * request < 100000 }
    requires ticks { ticks ≤ 10 }
    requires plain { IsPlain verification }
    ensures { IfOk result (λ entry. entry ≡ Got (made_report (made.round_tag (16 * request) + ticks) (tell.Verify verification))) }
{
    let subtype = st01_reports::subtype(&verification);
    let report = Report {
        header: report_header(round_tag(16 * request) + ticks, 1, subtype),
        body: ReportBody::Verify(verification),
    };
    Ok(Entry::Got(report_packet(alloc, tailoring, &report)?))
}

/// The headers of a report with this tag, which is of this service and subtype.
fn report_header(tag: u64, service: u8, subtype: u8) -> TmHeader
    ensures { result ≡ header_with tag service subtype }
{
    TmHeader {
        apid: 100,
        count: 0,
        status: 0,
        service,
        subtype,
        counter: 0,
        destination: 1,
        tag,
    }
}

/// The packet of a report that isn't too long for one.
fn report_packet(alloc: Global, tailoring: &Tailoring, report: &Report) -> Result<Octets, Memory>
    requires message { IsReport tailoring.now report.now }
    requires room { HasRoom report.now.body }
    requires short { length (report_octets tailoring.now report.now) ≤ most_octets }
    ensures { IfOk result (λ packet. packet ≡ report_octets tailoring.now report.now) }
{
    packet_or_memory(write_report(alloc, tailoring, report))
}

/// A packet that was written, or want of memory.
fn packet_or_memory(written: Result<Octets, JoinFault>) -> Result<Octets, Memory>
    requires { IsNotTooLong written }
    ensures { IfOk result (λ packet. written ≡ Ok packet) }
{
    match written {
        Ok(packet) => Ok(packet),
        Err(JoinFault::Memory) => Err(Memory),
        Err(JoinFault::TooLong(_)) => unreachable!(),
    }
}

/// The packet of a request.
pub(crate) fn request_packet(
    alloc: Global,
    tailoring: &Tailoring,
    request: u32,
) -> Result<Octets, Memory>
    requires tailoring { tailoring.now ≡ made_tailoring }
    requires request { request < 6250 }
    ensures { IfOk result (λ packet. packet ≡ made_request request) }
{
    let request = interval_request(alloc, request)?;
    packet_or_memory(write_request(alloc, tailoring, &request))
}

/// A request, which sets the interval of a structure.
fn interval_request(alloc: Global, request: u32) -> Result<Request, Memory>
    requires { request < 6250 }
    ensures { IfOk result (λ made. made ≡ request_of request) }
{
    let pair = Pair {
        id: changed_structure(request),
        interval: set_interval(request),
    };
    let pairs = Items::from_slice(alloc, &[pair])?;
    Ok(Request {
        header: request_header(request),
        body: RequestBody::Hk(Request03::Intervals(Kind::Housekeeping, pairs)),
    })
}

/// The headers of a request.
fn request_header(request: u32) -> TcHeader
    requires { request < 6250 }
    ensures { result ≡ (request_of request).header }
{
    TcHeader {
        apid: 100,
        count: request as u16,
        flags: 15,
        service: 3,
        subtype: 31,
        source: 1,
    }
}

/// What names a request.
pub(crate) fn request_name(request: u32) -> RequestId
    requires { request < 6250 }
    ensures name { result ≡ id_of_packet (made_request request) }
    ensures fits { IsRequestId result }
{
    request_id(&request_header(request))
}
