//! Requests, read and written.
ghost use Rattle.std.specs.Prelude.{◌≡◌, ◌≤◌, ◌^◌, ◌++◌, length, is_some, IsSome, IfSome, IfOk, OnErr};
ghost use Rattle.hk_base.specs.TailoringParts.{TailoringParts};
ghost use Rattle.body_fields.specs.Outcomes.{Gives};
ghost use Rattle.body_fields.specs.Reading.{reader, whole_body};
ghost use Rattle.st04_grammar.specs.Bodies.{request_table, request_body, bare_request, report_request, enable_request, add_request, delete_request};
ghost use Rattle.st04_grammar.specs.Spelling.{IsRequest, request_subtype, request_octets};

use crate::bodies::Request04;
use crate::fields::write_ids;
use crate::numeric::NumericIds;
use body_fields::{
    BodyFault, read_flag, read_interval, read_list, whole, write_flag, write_interval,
};
use hk_base::{Memory, Tailoring};
use std::alloc::Global;

/// Whether requests have this subtype.
pub fn knows_request(subtype: u8) -> bool
    ensures { (t : TailoringParts) → result ≡ is_some (reader (request_table t) subtype) }
{
    matches!(subtype, 1 | 3..=8)
}

/// The request that a body is, or the first fault from the left.
pub fn decode_request(
    alloc: Global,
    tailoring: &Tailoring,
    subtype: u8,
    body: &[u8],
) -> Result<Request04, BodyFault>
    requires known { IsSome (reader (request_table tailoring.now) subtype) }
    requires small { length body.now ≤ 2 ^ 31 }
    ensures { IfSome (request_body tailoring.now subtype body.now) (λ given. Gives (λ v. v) result given) }
{
    match subtype {
        1 => whole(read_report_request(body)),
        3 => bare(Request04::Reset, body),
        4 => whole(read_enable_request(tailoring, body)),
        5 => bare(Request04::Disable, body),
        6 => whole(read_add_request(alloc, tailoring, body)),
        7 => whole(read_delete_request(alloc, tailoring, body)),
        8 => bare(Request04::ShowDefinitions, body),
        _ => unreachable!(),
    }
}

/// A request without a body.
fn bare(request: Request04, body: &[u8]) -> Result<Request04, BodyFault>
    requires { length body.now ≤ 2 ^ 31 }
    ensures { Gives (λ v. v) result (whole_body (bare_request request body.now)) }
{
    whole(Ok((request, body)))
}

/// Whether the statistics are reset.
fn read_report_request(octets: &[u8]) -> Result<(Request04, &[u8]), BodyFault>
    ensures gives { Gives (λ x. (x.0, x.1.now)) result (report_request octets.now) }
    ensures left { IfOk result (λ x. length x.1.now ≤ length octets.now) }
{
    let (resets, rest) = read_flag(octets)?;
    Ok((Request04::Report(resets), rest))
}

/// The interval of periodic reports.
fn read_enable_request<'a>(
    tailoring: &Tailoring,
    octets: &'a [u8],
) -> Result<(Request04, &'a [u8]), BodyFault>
    ensures gives { Gives (λ x. (x.0, x.1.now)) result (enable_request tailoring.now octets.now) }
    ensures left { IfOk result (λ x. length x.1.now ≤ length octets.now) }
{
    let (interval, rest) = read_interval(tailoring, octets)?;
    Ok((Request04::Enable(interval), rest))
}

/// One parameter or more.
fn read_add_request<'a>(
    alloc: Global,
    tailoring: &Tailoring,
    octets: &'a [u8],
) -> Result<(Request04, &'a [u8]), BodyFault>
    ensures gives { Gives (λ x. (x.0, x.1.now)) result (add_request tailoring.now octets.now) }
    ensures left { IfOk result (λ x. length x.1.now ≤ length octets.now) }
{
    let (ids, rest) = read_list(alloc, tailoring, 1, &NumericIds { tailoring }, octets)?;
    Ok((Request04::Add(ids), rest))
}

/// Any number of parameters.
fn read_delete_request<'a>(
    alloc: Global,
    tailoring: &Tailoring,
    octets: &'a [u8],
) -> Result<(Request04, &'a [u8]), BodyFault>
    ensures gives { Gives (λ x. (x.0, x.1.now)) result (delete_request tailoring.now octets.now) }
    ensures left { IfOk result (λ x. length x.1.now ≤ length octets.now) }
{
    let (ids, rest) = read_list(alloc, tailoring, 0, &NumericIds { tailoring }, octets)?;
    Ok((Request04::Delete(ids), rest))
}

/// Appends the body of a request, and answers its subtype. An error leaves `out` as it was.
pub fn encode_request(
    tailoring: &Tailoring,
    request: &Request04,
    out: &mut Vec<u8>,
) -> Result<u8, Memory>
    requires { IsRequest tailoring.now request.now }
    ensures subtype { IfOk result (λ subtype. subtype ≡ request_subtype request.now) }
    ensures ok { IfOk result (λ subtype. out.new.items ≡ out.old.items ++ request_octets tailoring.now request.now) }
    ensures err { OnErr result (out.new.items ≡ out.old.items) }
{
    match request {
        Request04::Report(resets) => write_flag(*resets, out)?,
        Request04::Enable(interval) => write_interval(tailoring, *interval, out)?,
        Request04::Add(ids) => write_ids(tailoring, ids.as_slice(), out)?,
        Request04::Delete(ids) => write_ids(tailoring, ids.as_slice(), out)?,
        Request04::Reset | Request04::Disable | Request04::ShowDefinitions => {}
    }
    Ok(subtype_of(request))
}

fn subtype_of(request: &Request04) -> u8
    ensures { result ≡ request_subtype request.now }
{
    match request {
        Request04::Report(_) => 1,
        Request04::Reset => 3,
        Request04::Enable(_) => 4,
        Request04::Disable => 5,
        Request04::Add(_) => 6,
        Request04::Delete(_) => 7,
        Request04::ShowDefinitions => 8,
    }
}
