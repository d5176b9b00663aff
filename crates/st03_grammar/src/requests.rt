ghost use Rattle.std.specs.Prelude.{◌≡◌, ◌≤◌, ◌^◌, true, length, is_some, IfOk, IfSome};
ghost use Rattle.hk_base.specs.TailoringParts.{TailoringParts};
ghost use Rattle.body_fields.specs.Outcomes.{Gives};
ghost use Rattle.body_fields.specs.Reading.{reader};
ghost use Rattle.st03_grammar.specs.Instructions.{structure_changes, AreKeysApart};
ghost use Rattle.st03_grammar.specs.Spelling.{IsSpelledRequest};
ghost use Rattle.st03_grammar.specs.Bodies.{creation, appending, on_each, intervals, request_table, request_body};

use crate::bodies::{Each, Request03};
use crate::fields::{Pairs, StructureIds, read_key};
use crate::lists::read_lists;
use body_fields::{BodyFault, read_interval, read_list, whole};
use hk_base::{Definition, Kind, Tailoring};
use std::alloc::Global;

/// Creation of a structure: its ID, its interval, and its parameters.
fn read_creation<'a>(
    alloc: Global,
    tailoring: &Tailoring,
    kind: Kind,
    octets: &'a [u8],
) -> Result<(Request03, &'a [u8]), BodyFault>
    ensures gives { Gives (λ x. (x.0, x.1.now)) result (creation tailoring.now kind octets.now) }
    ensures left { IfOk result (λ x. length x.1.now ≤ length octets.now) }
{
    let (key, rest) = read_key(tailoring, kind, octets)?;
    let (interval, rest) = read_interval(tailoring, rest)?;
    let (lists, rest) = read_lists(alloc, tailoring, false, Some(interval), rest)?;
    let def = Definition {
        interval,
        simple: lists.simple,
        arrays: lists.arrays,
    };
    Ok((Request03::Create(key, def), rest))
}

/// Parameters that are appended to a structure.
fn read_appending<'a>(
    alloc: Global,
    tailoring: &Tailoring,
    kind: Kind,
    octets: &'a [u8],
) -> Result<(Request03, &'a [u8]), BodyFault>
    ensures gives { Gives (λ x. (x.0, x.1.now)) result (appending tailoring.now kind octets.now) }
    ensures left { IfOk result (λ x. length x.1.now ≤ length octets.now) }
{
    let (key, rest) = read_key(tailoring, kind, octets)?;
    let (lists, rest) = read_lists(alloc, tailoring, false, None, rest)?;
    Ok((Request03::Append(key, lists), rest))
}

/// One and the same instruction on each of a list of structures.
fn read_on_each<'a>(
    alloc: Global,
    tailoring: &Tailoring,
    each: Each,
    kind: Kind,
    octets: &'a [u8],
) -> Result<(Request03, &'a [u8]), BodyFault>
    ensures gives { Gives (λ x. (x.0, x.1.now)) result (on_each tailoring.now each kind octets.now) }
    ensures left { IfOk result (λ x. length x.1.now ≤ length octets.now) }
{
    let (ids, rest) = read_list(alloc, tailoring, 1, &StructureIds { tailoring }, octets)?;
    Ok((Request03::OnEach(each, kind, ids), rest))
}

/// New intervals of structures.
fn read_intervals<'a>(
    alloc: Global,
    tailoring: &Tailoring,
    kind: Kind,
    octets: &'a [u8],
) -> Result<(Request03, &'a [u8]), BodyFault>
    ensures gives { Gives (λ x. (x.0, x.1.now)) result (intervals tailoring.now kind octets.now) }
    ensures left { IfOk result (λ x. length x.1.now ≤ length octets.now) }
{
    let (pairs, rest) = read_list(alloc, tailoring, 1, &Pairs { tailoring }, octets)?;
    Ok((Request03::Intervals(kind, pairs), rest))
}

/// Whether a subtype is that of a request of this service.
pub fn knows_request(subtype: u8) -> bool
    ensures { (t : TailoringParts) → result ≡ is_some (reader (request_table t) subtype) }
{
    matches!(subtype, 1..=9 | 11 | 27..=34)
}

/// What the fields of a body are read as, up to its end.
fn read_body(
    alloc: Global,
    tailoring: &Tailoring,
    subtype: u8,
    body: &[u8],
) -> Result<Request03, BodyFault>
    requires known { is_some (reader (request_table tailoring.now) subtype) ≡ true }
    requires size { length body.now ≤ 2 ^ 31 }
    ensures { IfSome (request_body tailoring.now subtype body.now) (λ given. Gives (λ request. request) result given) }
{
    use Each::{Delete, Disable, Enable, OneShot, Show, ShowPeriodic};
    use Kind::{Diagnostic, Housekeeping};
    let read = match subtype {
        1 => read_creation(alloc, tailoring, Housekeeping, body),
        2 => read_creation(alloc, tailoring, Diagnostic, body),
        3 => read_on_each(alloc, tailoring, Delete, Housekeeping, body),
        4 => read_on_each(alloc, tailoring, Delete, Diagnostic, body),
        5 => read_on_each(alloc, tailoring, Enable, Housekeeping, body),
        6 => read_on_each(alloc, tailoring, Disable, Housekeeping, body),
        7 => read_on_each(alloc, tailoring, Enable, Diagnostic, body),
        8 => read_on_each(alloc, tailoring, Disable, Diagnostic, body),
        9 => read_on_each(alloc, tailoring, Show, Housekeeping, body),
        11 => read_on_each(alloc, tailoring, Show, Diagnostic, body),
        27 => read_on_each(alloc, tailoring, OneShot, Housekeeping, body),
        28 => read_on_each(alloc, tailoring, OneShot, Diagnostic, body),
        29 => read_appending(alloc, tailoring, Housekeeping, body),
        30 => read_appending(alloc, tailoring, Diagnostic, body),
        31 => read_intervals(alloc, tailoring, Housekeeping, body),
        32 => read_intervals(alloc, tailoring, Diagnostic, body),
        33 => read_on_each(alloc, tailoring, ShowPeriodic, Housekeeping, body),
        34 => read_on_each(alloc, tailoring, ShowPeriodic, Diagnostic, body),
        _ => unreachable!(),
    };
    whole(read)
}

/// The request that a body is, or the fault of the first field that can't stand. It names no structure twice.
pub fn decode_request(
    alloc: Global,
    tailoring: &Tailoring,
    subtype: u8,
    body: &[u8],
) -> Result<Request03, BodyFault>
    requires known { is_some (reader (request_table tailoring.now) subtype) ≡ true }
    requires size { length body.now ≤ 2 ^ 31 }
    ensures gives { IfSome (request_body tailoring.now subtype body.now) (λ given. Gives (λ request. request) result given) }
    ensures found { IfOk result (λ request. IsSpelledRequest tailoring.now subtype request body.now) }
    ensures few { IfOk result (λ request. length (structure_changes request) ≤ 255) }
    ensures apart { IfOk result (λ request. AreKeysApart request) }
{
    read_body(alloc, tailoring, subtype, body)
}
