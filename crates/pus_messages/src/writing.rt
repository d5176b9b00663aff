//! Messages are written as the octets of their packets.
ghost use Rattle.std.specs.Prelude.{◌≡◌, ◌≤◌, ◌^◌, ◌++◌, length, IfOk, OnOk};
ghost use Rattle.pus_messages.specs.Spelling.{IsRequest, IsReport, IsRequestBody, IsReportBody, HasRoom, request_octets, report_octets, request_body_octets, report_body_octets};
ghost use Rattle.pus_messages.specs.Outcomes.{Writes};

use crate::message::{Report, ReportBody, Request, RequestBody};
use hk_base::{Items, Memory, Octets, Tailoring};
use pus_packet::{JoinFault, join_tc, join_tm};
use std::alloc::Global;

/// The packet of a request of the grammar, whose headers name the type of its body.
pub fn write_request(
    alloc: Global,
    tailoring: &Tailoring,
    request: &Request,
) -> Result<Octets, JoinFault>
    requires { IsRequest tailoring.now request.now }
    ensures { Writes (request_octets tailoring.now request.now) result }
{
    let body = request_body(alloc, tailoring, &request.body)?;
    join_tc(alloc, tailoring, &request.header, body.as_slice())
}

/// The packet of a report of the grammar, whose headers name the type of its body.
pub fn write_report(
    alloc: Global,
    tailoring: &Tailoring,
    report: &Report,
) -> Result<Octets, JoinFault>
    requires message { IsReport tailoring.now report.now }
    requires room { HasRoom report.now.body }
    ensures { Writes (report_octets tailoring.now report.now) result }
{
    let body = report_body(alloc, tailoring, &report.body)?;
    join_tm(alloc, tailoring, &report.header, body.as_slice())
}

/// The octets of a request's body.
fn request_body(alloc: Global, tailoring: &Tailoring, body: &RequestBody) -> Result<Octets, Memory>
    requires { IsRequestBody tailoring.now body.now }
    ensures octets { IfOk result (λ octets. octets ≡ request_body_octets tailoring.now body.now) }
    ensures short { IfOk result (λ octets. length octets ≤ 2 ^ 31) }
{
    let _fit = tailoring.widths();
    let mut out = Vec::new(alloc);
    write_request_body(tailoring, body, &mut out)?;
    Ok(Items::from_vec(out))
}

/// The octets of a report's body.
fn report_body(alloc: Global, tailoring: &Tailoring, body: &ReportBody) -> Result<Octets, Memory>
    requires body { IsReportBody tailoring.now body.now }
    requires room { HasRoom body.now }
    ensures octets { IfOk result (λ octets. octets ≡ report_body_octets tailoring.now body.now) }
    ensures short { IfOk result (λ octets. length octets ≤ 2 ^ 31) }
{
    let _fit = tailoring.widths();
    let mut out = Vec::new(alloc);
    write_report_body(tailoring, body, &mut out)?;
    Ok(Items::from_vec(out))
}

/// Appends the body of a request.
fn write_request_body(
    tailoring: &Tailoring,
    body: &RequestBody,
    out: &mut Vec<u8>,
) -> Result<(), Memory>
    requires { IsRequestBody tailoring.now body.now }
    ensures { OnOk result (out.new.items ≡ out.old.items ++ request_body_octets tailoring.now body.now) }
{
    match body {
        RequestBody::Hk(request) => {
            st03_grammar::encode_request(tailoring, request, out)?;
        }
        RequestBody::Stat(request) => {
            st04_grammar::encode_request(tailoring, request, out)?;
        }
        RequestBody::Par(request) => {
            st20_grammar::encode_request(tailoring, request, out)?;
        }
    }
    Ok(())
}

/// Appends the body of a report.
fn write_report_body(
    tailoring: &Tailoring,
    body: &ReportBody,
    out: &mut Vec<u8>,
) -> Result<(), Memory>
    requires { IsReportBody tailoring.now body.now }
    ensures { OnOk result (out.new.items ≡ out.old.items ++ report_body_octets tailoring.now body.now) }
{
    match body {
        ReportBody::Verify(report) => {
            st01_reports::encode(tailoring, report, out)?;
        }
        ReportBody::Hk(report) => {
            st03_grammar::encode_report(tailoring, report, out)?;
        }
        ReportBody::Stat(report) => {
            st04_grammar::encode_report(tailoring, report, out)?;
        }
        ReportBody::Par(report) => {
            st20_grammar::encode_report(tailoring, report, out)?;
        }
    }
    Ok(())
}
