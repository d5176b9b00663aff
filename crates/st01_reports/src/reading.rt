ghost use Rattle.std.specs.Prelude.{◌≡◌, ◌≤◌, ◌<◌, ◌^◌, true, length, reverse, slice_get, is_some, IfOk, IfSome};
ghost use Rattle.hk_base.specs.TailoringParts.{TailoringParts};
ghost use Rattle.body_fields.specs.Outcomes.{Gives, Finds};
ghost use Rattle.body_fields.specs.Reading.{reader, uint};
ghost use Rattle.st01_reports.specs.Spelling.{IsSpelledReport};
ghost use Rattle.st01_reports.specs.Stages.{success_report, failure_report};
ghost use Rattle.st01_reports.specs.Bodies.{request_field, cause_field, rising_fault, step_field, on_request, with_cause, step_report, step_failure, incompletion, report_table, report_body};

use crate::stage::{Failure, Success};
use crate::verification::{Cause, Verification};
use body_fields::{BodyFault, ReadMember, read_list, read_number, whole};
use hk_base::{RequestId, Tailoring};
use std::alloc::Global;

/// The ID of a request: the first four octets of its packet.
fn read_request_id(octets: &[u8]) -> Result<(RequestId, &[u8]), BodyFault>
    ensures gives { Gives (λ x. (x.0, x.1.now)) result (request_field octets.now) }
    ensures left { IfOk result (λ x. length x.1.now ≤ length octets.now) }
{
    let (word, rest) = read_number(octets, 4)?;
    Ok((RequestId { word }, rest))
}

/// A failure code in two octets.
fn read_code(octets: &[u8]) -> Result<(u16, &[u8]), BodyFault>
    ensures gives { Gives (λ x. (x.0, x.1.now)) result (uint 2 octets.now) }
    ensures left { IfOk result (λ x. length x.1.now ≤ length octets.now) }
{
    let (code, rest) = read_number(octets, 2)?;
    Ok((code as u16, rest))
}

/// A failure code and its detail.
fn read_cause(octets: &[u8]) -> Result<(Cause, &[u8]), BodyFault>
    ensures gives { Gives (λ x. (x.0, x.1.now)) result (cause_field octets.now) }
    ensures left { IfOk result (λ x. length x.1.now ≤ length octets.now) }
{
    let (code, rest) = read_code(octets)?;
    let (detail, rest) = read_number(rest, 4)?;
    Ok((Cause { code, detail }, rest))
}

/// Tests a step number, which is 1 or more and above the one before it.
fn check_step(last: Option<u32>, step: u32) -> Result<(), BodyFault>
    ensures { Finds result (rising_fault last step) }
{
    if step == 0 {
        return Err(BodyFault::ZeroCount);
    }
    match last {
        Some(last) if step <= last => Err(BodyFault::RepeatedKey(step)),
        _ => Ok(()),
    }
}

fn newest(earlier: &[u32]) -> Option<u32>
    ensures { result ≡ slice_get (reverse earlier.now) 0 }
{
    earlier.last().copied()
}

/// A step number above those before it.
fn read_step<'a>(
    tailoring: &Tailoring,
    earlier: &[u32],
    octets: &'a [u8],
) -> Result<(u32, &'a [u8]), BodyFault>
    ensures gives { Gives (λ x. (x.0, x.1.now)) result (step_field tailoring.now (reverse earlier.now) octets.now) }
    ensures left { IfOk result (λ x. length x.1.now ≤ length octets.now) }
{
    let (step, rest) = read_number(octets, tailoring.widths().step_octets)?;
    check_step(newest(earlier), step)?;
    Ok((step, rest))
}

/// Step numbers that rise.
#[derive(Drop)]
pub struct Steps<'t> {
    pub tailoring: &'t Tailoring,
}

impl ReadMember for Steps<'_> {
    type Member = u32;

    ghost reader = { λ steps earlier octets. step_field steps.tailoring.now earlier octets };

    fn read_member<'a>(
        &self,
        earlier: &[u32],
        octets: &'a [u8],
    ) -> Result<(u32, &'a [u8]), BodyFault> {
        read_step(self.tailoring, earlier, octets)
    }
}

/// A report on the progress of a request: a step number.
fn read_step_report<'a>(
    tailoring: &Tailoring,
    octets: &'a [u8],
) -> Result<(Verification, &'a [u8]), BodyFault>
    ensures gives { Gives (λ x. (x.0, x.1.now)) result (step_report tailoring.now octets.now) }
    ensures left { IfOk result (λ x. length x.1.now ≤ length octets.now) }
{
    let (id, rest) = read_request_id(octets)?;
    let (step, rest) = read_step(tailoring, &[], rest)?;
    Ok((Verification::Step(id, step), rest))
}

/// A report on a step that failed: its number and the cause.
fn read_step_failure<'a>(
    tailoring: &Tailoring,
    octets: &'a [u8],
) -> Result<(Verification, &'a [u8]), BodyFault>
    ensures gives { Gives (λ x. (x.0, x.1.now)) result (step_failure tailoring.now octets.now) }
    ensures left { IfOk result (λ x. length x.1.now ≤ length octets.now) }
{
    let (id, rest) = read_request_id(octets)?;
    let (step, rest) = read_step(tailoring, &[], rest)?;
    let (cause, rest) = read_cause(rest)?;
    Ok((Verification::StepFailed(id, step, cause), rest))
}

/// A report on a request of which steps failed: a code, and their numbers.
fn read_incompletion<'a>(
    alloc: Global,
    tailoring: &Tailoring,
    octets: &'a [u8],
) -> Result<(Verification, &'a [u8]), BodyFault>
    ensures gives { Gives (λ x. (x.0, x.1.now)) result (incompletion tailoring.now octets.now) }
    ensures left { IfOk result (λ x. length x.1.now ≤ length octets.now) }
{
    let (id, rest) = read_request_id(octets)?;
    let (code, rest) = read_code(rest)?;
    let (steps, rest) = read_list(alloc, tailoring, 1, &Steps { tailoring }, rest)?;
    Ok((Verification::Incomplete(id, code, steps), rest))
}

/// A report that is a request ID alone.
fn read_success(success: Success, octets: &[u8]) -> Result<(Verification, &[u8]), BodyFault>
    ensures gives { Gives (λ x. (x.0, x.1.now)) result (on_request (success_report success) octets.now) }
    ensures left { IfOk result (λ x. length x.1.now ≤ length octets.now) }
{
    let (id, rest) = read_request_id(octets)?;
    Ok((success.report(id), rest))
}

/// A report that is a request ID and the cause of a failure.
fn read_failure(failure: Failure, octets: &[u8]) -> Result<(Verification, &[u8]), BodyFault>
    ensures gives { Gives (λ x. (x.0, x.1.now)) result (with_cause (failure_report failure) octets.now) }
    ensures left { IfOk result (λ x. length x.1.now ≤ length octets.now) }
{
    let (id, rest) = read_request_id(octets)?;
    let (cause, rest) = read_cause(rest)?;
    Ok((failure.report(id, cause), rest))
}

/// Whether a subtype is that of a report of this service.
pub fn knows(subtype: u8) -> bool
    ensures { (t : TailoringParts) → result ≡ is_some (reader (report_table t) subtype) }
{
    matches!(subtype, 1..=8 | 10)
}

/// What the fields of a body are read as, up to its end.
fn read_body(
    alloc: Global,
    tailoring: &Tailoring,
    subtype: u8,
    body: &[u8],
) -> Result<Verification, BodyFault>
    requires known { is_some (reader (report_table tailoring.now) subtype) ≡ true }
    requires size { length body.now ≤ 2 ^ 31 }
    ensures { IfSome (report_body tailoring.now subtype body.now) (λ given. Gives (λ report. report) result given) }
{
    let read = match subtype {
        1 => read_success(Success::Acceptance, body),
        2 => read_failure(Failure::Acceptance, body),
        3 => read_success(Success::Start, body),
        4 => read_failure(Failure::Start, body),
        5 => read_step_report(tailoring, body),
        6 => read_step_failure(tailoring, body),
        7 => read_success(Success::Completion, body),
        8 => read_incompletion(alloc, tailoring, body),
        10 => read_failure(Failure::Routing, body),
        _ => unreachable!(),
    };
    whole(read)
}

/// The report that a body is, or the fault of the first field that can't stand.
pub fn decode(
    alloc: Global,
    tailoring: &Tailoring,
    subtype: u8,
    body: &[u8],
) -> Result<Verification, BodyFault>
    requires known { is_some (reader (report_table tailoring.now) subtype) ≡ true }
    requires size { length body.now ≤ 2 ^ 31 }
    ensures gives { IfSome (report_body tailoring.now subtype body.now) (λ given. Gives (λ report. report) result given) }
    ensures found { IfOk result (λ report. IsSpelledReport tailoring.now subtype report body.now) }
{
    read_body(alloc, tailoring, subtype, body)
}
