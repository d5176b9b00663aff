//! Requests and reports on parameter values are read.
ghost use Rattle.std.specs.Prelude.{◌≡◌, ◌≤◌, ◌^◌, ◌==◌, List, ℕ, length, reverse, map, is_some, IsSome, IfSome, IfOk};
ghost use Rattle.std.specs.List.{list_any};
ghost use Rattle.hk_base.specs.TailoringParts.{TailoringParts};
ghost use Rattle.body_fields.specs.Outcomes.{Gives, Finds};
ghost use Rattle.body_fields.specs.Reading.{reader, param_fault};
ghost use Rattle.st20_grammar.specs.Bodies.{request_table, report_table, request_body, report_body, setting_field, settable_fault, sensed_fault, id_fault, report_request, set_request, value_report};
ghost use Rattle.st20_grammar.specs.Spelling.{ids_of};

use crate::bodies::{Report20, Request20, Setting};
use body_fields::{
    BodyFault, ParamIds, ReadMember, check_param, read_list, read_number, read_value_of, whole,
};
use hk_base::Tailoring;
use std::alloc::Global;

/// Whether requests have this subtype.
pub fn knows_request(subtype: u8) -> bool
    ensures { (t : TailoringParts) → result ≡ is_some (reader (request_table t) subtype) }
{
    matches!(subtype, 1 | 3)
}

/// Whether reports have this subtype.
pub fn knows_report(subtype: u8) -> bool
    ensures { (t : TailoringParts) → result ≡ is_some (reader (report_table t) subtype) }
{
    subtype == 2
}

/// The request that a body is, or the first fault from the left.
pub fn decode_request(
    alloc: Global,
    tailoring: &Tailoring,
    subtype: u8,
    body: &[u8],
) -> Result<Request20, BodyFault>
    requires known { IsSome (reader (request_table tailoring.now) subtype) }
    requires small { length body.now ≤ 2 ^ 31 }
    ensures { IfSome (request_body tailoring.now subtype body.now) (λ given. Gives (λ v. v) result given) }
{
    match subtype {
        1 => whole(read_report_request(alloc, tailoring, body)),
        3 => whole(read_set_request(alloc, tailoring, body)),
        _ => unreachable!(),
    }
}

/// The report that a body is, or the first fault from the left.
pub fn decode_report(
    alloc: Global,
    tailoring: &Tailoring,
    subtype: u8,
    body: &[u8],
) -> Result<Report20, BodyFault>
    requires known { IsSome (reader (report_table tailoring.now) subtype) }
    requires small { length body.now ≤ 2 ^ 31 }
    ensures { IfSome (report_body tailoring.now subtype body.now) (λ given. Gives (λ v. v) result given) }
{
    whole(read_value_report(alloc, tailoring, body))
}

/// A list of parameter IDs.
fn read_report_request<'a>(
    alloc: Global,
    tailoring: &Tailoring,
    octets: &'a [u8],
) -> Result<(Request20, &'a [u8]), BodyFault>
    ensures gives { Gives (λ x. (x.0, x.1.now)) result (report_request tailoring.now octets.now) }
    ensures left { IfOk result (λ x. length x.1.now ≤ length octets.now) }
{
    let (ids, rest) = read_list(alloc, tailoring, 1, &ParamIds { tailoring }, octets)?;
    Ok((Request20::Report(ids), rest))
}

/// A list of settable parameters with their new values.
fn read_set_request<'a>(
    alloc: Global,
    tailoring: &Tailoring,
    octets: &'a [u8],
) -> Result<(Request20, &'a [u8]), BodyFault>
    ensures gives { Gives (λ x. (x.0, x.1.now)) result (set_request tailoring.now octets.now) }
    ensures left { IfOk result (λ x. length x.1.now ≤ length octets.now) }
{
    let members = Settings {
        tailoring,
        sets: true,
    };
    let (settings, rest) = read_list(alloc, tailoring, 1, &members, octets)?;
    Ok((Request20::Set(settings), rest))
}

/// A list of parameters with their values.
fn read_value_report<'a>(
    alloc: Global,
    tailoring: &Tailoring,
    octets: &'a [u8],
) -> Result<(Report20, &'a [u8]), BodyFault>
    ensures gives { Gives (λ x. (x.0, x.1.now)) result (value_report tailoring.now octets.now) }
    ensures left { IfOk result (λ x. length x.1.now ≤ length octets.now) }
{
    let members = Settings {
        tailoring,
        sets: false,
    };
    let (pairs, rest) = read_list(alloc, tailoring, 1, &members, octets)?;
    Ok((Report20 { pairs }, rest))
}

/// Parameters with values, each parameter once.
#[derive(Drop)]
struct Settings<'t> {
    tailoring: &'t Tailoring,
    /// Whether the values are to be set, so that each parameter must be settable.
    sets: bool,
}

impl ReadMember for Settings<'_> {
    type Member = Setting;

    ghost reader = { λ members earlier octets. setting_field members.tailoring.now (id_fault members.tailoring.now members.sets) earlier octets };

    fn read_member<'a>(
        &self,
        earlier: &[Setting],
        octets: &'a [u8],
    ) -> Result<(Setting, &'a [u8]), BodyFault> {
        let (param, rest) = read_number(octets, self.tailoring.widths().parameter_octets)?;
        check_id(self.tailoring, self.sets, is_listed(earlier, param), param)?;
        let (value, rest) = read_value_of(self.tailoring, param, rest)?;
        Ok((Setting { param, value }, rest))
    }
}

/// Whether a parameter stands among those that were read before.
fn is_listed(earlier: &[Setting], param: u32) -> bool
    ensures { result ≡ list_any (λ e. e == param) (ids_of (reverse earlier.now)) }
{
    has_param(earlier, param)
}

fn has_param(settings: &[Setting], param: u32) -> bool
    ensures { result ≡ list_any (λ setting. setting.param == param) settings.now }
{
    settings.iter().any(|setting| setting.param == param)
}

/// Tests the ID before a value, of which it is told whether it stood before.
fn check_id(tailoring: &Tailoring, sets: bool, is_repeated: bool, id: u32) -> Result<(), BodyFault>
    ensures { (earlier : List ℕ) → list_any (λ e. e == id) earlier ≡ is_repeated → Finds result (id_fault tailoring.now sets earlier id) }
{
    check_param(tailoring, is_repeated, id)?;
    if sets {
        check_settable(tailoring, id)
    } else {
        Ok(())
    }
}

/// Tests that a parameter is settable, if there is one.
fn check_settable(tailoring: &Tailoring, id: u32) -> Result<(), BodyFault>
    ensures { Finds result (sensed_fault tailoring.now id) }
{
    match tailoring.param(id) {
        Some(param) if param.initial.is_none() => Err(BodyFault::NotSettable(id)),
        Some(_) | None => Ok(()),
    }
}
