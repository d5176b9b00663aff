ghost use Rattle.std.specs.Prelude.{◌≡◌, ◌≤◌, ◌^◌, true, length, is_some, IfOk, IfSome};
ghost use Rattle.hk_base.specs.TailoringParts.{TailoringParts};
ghost use Rattle.body_fields.specs.Outcomes.{Gives};
ghost use Rattle.body_fields.specs.Reading.{reader};
ghost use Rattle.st03_grammar.specs.Spelling.{IsSpelledReport};
ghost use Rattle.st03_grammar.specs.Bodies.{structure_report, parameter_report, periodic_report, report_table, report_body};

use crate::bodies::Report03;
use crate::fields::{Rows, read_key};
use crate::lists::read_lists;
use body_fields::{BodyFault, read_flag, read_interval, read_list, whole};
use hk_base::{Definition, Items, Kind, Structure, Tailoring};
use std::alloc::Global;

/// A structure: its ID, its status, its interval, and its parameters, each once.
fn read_structure<'a>(
    alloc: Global,
    tailoring: &Tailoring,
    kind: Kind,
    octets: &'a [u8],
) -> Result<(Report03, &'a [u8]), BodyFault>
    ensures gives { Gives (λ x. (x.0, x.1.now)) result (structure_report tailoring.now kind octets.now) }
    ensures left { IfOk result (λ x. length x.1.now ≤ length octets.now) }
{
    let (key, rest) = read_key(tailoring, kind, octets)?;
    let (enabled, rest) = read_flag(rest)?;
    let (interval, rest) = read_interval(tailoring, rest)?;
    let (lists, rest) = read_lists(alloc, tailoring, true, Some(interval), rest)?;
    let def = Definition {
        interval,
        simple: lists.simple,
        arrays: lists.arrays,
    };
    Ok((Report03::Structure(key, Structure { def, enabled }), rest))
}

/// Values of parameters: the ID of a structure, and the octets up to the end.
fn read_values<'a>(
    alloc: Global,
    tailoring: &Tailoring,
    kind: Kind,
    octets: &'a [u8],
) -> Result<(Report03, &'a [u8]), BodyFault>
    ensures gives { Gives (λ x. (x.0, x.1.now)) result (parameter_report tailoring.now kind octets.now) }
    ensures left { IfOk result (λ x. length x.1.now ≤ length octets.now) }
{
    let (key, payload) = read_key(tailoring, kind, octets)?;
    let values = Items::from_slice(alloc, payload)?;
    Ok((Report03::Values(key, values), &[]))
}

/// The periodic properties of structures.
fn read_periodic<'a>(
    alloc: Global,
    tailoring: &Tailoring,
    kind: Kind,
    octets: &'a [u8],
) -> Result<(Report03, &'a [u8]), BodyFault>
    ensures gives { Gives (λ x. (x.0, x.1.now)) result (periodic_report tailoring.now kind octets.now) }
    ensures left { IfOk result (λ x. length x.1.now ≤ length octets.now) }
{
    let (rows, rest) = read_list(alloc, tailoring, 1, &Rows { tailoring }, octets)?;
    Ok((Report03::Periodic(kind, rows), rest))
}

/// Whether a subtype is that of a report of this service.
pub fn knows_report(subtype: u8) -> bool
    ensures { (t : TailoringParts) → result ≡ is_some (reader (report_table t) subtype) }
{
    matches!(subtype, 10 | 12 | 25 | 26 | 35 | 36)
}

/// What the fields of a body are read as, up to its end.
fn read_body(
    alloc: Global,
    tailoring: &Tailoring,
    subtype: u8,
    body: &[u8],
) -> Result<Report03, BodyFault>
    requires known { is_some (reader (report_table tailoring.now) subtype) ≡ true }
    requires size { length body.now ≤ 2 ^ 31 }
    ensures { IfSome (report_body tailoring.now subtype body.now) (λ given. Gives (λ report. report) result given) }
{
    let read = match subtype {
        10 => read_structure(alloc, tailoring, Kind::Housekeeping, body),
        12 => read_structure(alloc, tailoring, Kind::Diagnostic, body),
        25 => read_values(alloc, tailoring, Kind::Housekeeping, body),
        26 => read_values(alloc, tailoring, Kind::Diagnostic, body),
        35 => read_periodic(alloc, tailoring, Kind::Housekeeping, body),
        36 => read_periodic(alloc, tailoring, Kind::Diagnostic, body),
        _ => unreachable!(),
    };
    whole(read)
}

/// The report that a body is, or the fault of the first field that can't stand.
pub fn decode_report(
    alloc: Global,
    tailoring: &Tailoring,
    subtype: u8,
    body: &[u8],
) -> Result<Report03, BodyFault>
    requires known { is_some (reader (report_table tailoring.now) subtype) ≡ true }
    requires size { length body.now ≤ 2 ^ 31 }
    ensures gives { IfSome (report_body tailoring.now subtype body.now) (λ given. Gives (λ report. report) result given) }
    ensures found { IfOk result (λ report. IsSpelledReport tailoring.now subtype report body.now) }
{
    read_body(alloc, tailoring, subtype, body)
}
