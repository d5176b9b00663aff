//! Reports, read and written.
ghost use Rattle.std.specs.Prelude.{◌≡◌, ◌≤◌, ◌^◌, ◌++◌, length, is_some, IsSome, IfSome, IfOk, OnErr};
ghost use Rattle.hk_base.specs.TailoringParts.{TailoringParts};
ghost use Rattle.body_fields.specs.Outcomes.{Gives, Appends};
ghost use Rattle.body_fields.specs.Reading.{reader};
ghost use Rattle.body_fields.specs.Spelling.{IsInterval};
ghost use Rattle.st04_grammar.specs.Bodies.{report_table, report_body, statistics_report, definition_report};
ghost use Rattle.st04_grammar.specs.Spelling.{IsStatistics, AreNumericIds, IsReport, report_subtype, statistics_octets, definition_octets, report_octets};

use crate::bodies::{Report04, StatReport};
use crate::fields::write_ids;
use crate::numeric::NumericIds;
use crate::rows::Rows;
use body_fields::{
    BodyFault, or_undo, read_flag, read_interval, read_list, read_time, whole, write_flag,
    write_interval, write_list, write_time,
};
use hk_base::{Memory, Tailoring};
use std::alloc::Global;

/// Whether reports have this subtype.
pub fn knows_report(subtype: u8) -> bool
    ensures { (t : TailoringParts) → result ≡ is_some (reader (report_table t) subtype) }
{
    matches!(subtype, 2 | 9)
}

/// The report that a body is, or the first fault from the left.
pub fn decode_report(
    alloc: Global,
    tailoring: &Tailoring,
    subtype: u8,
    body: &[u8],
) -> Result<Report04, BodyFault>
    requires known { IsSome (reader (report_table tailoring.now) subtype) }
    requires small { length body.now ≤ 2 ^ 31 }
    ensures { IfSome (report_body tailoring.now subtype body.now) (λ given. Gives (λ v. v) result given) }
{
    match subtype {
        2 => whole(read_statistics(alloc, tailoring, body)),
        9 => whole(read_definitions(alloc, tailoring, body)),
        _ => unreachable!(),
    }
}

/// Two times, and rows.
fn read_statistics<'a>(
    alloc: Global,
    tailoring: &Tailoring,
    octets: &'a [u8],
) -> Result<(Report04, &'a [u8]), BodyFault>
    ensures gives { Gives (λ x. (x.0, x.1.now)) result (statistics_report tailoring.now octets.now) }
    ensures left { IfOk result (λ x. length x.1.now ≤ length octets.now) }
{
    let (start, rest) = read_time(tailoring, octets)?;
    let (end, rest) = read_time(tailoring, rest)?;
    let (rows, rest) = read_list(alloc, tailoring, 0, &Rows { tailoring }, rest)?;
    Ok((Report04::Statistics(StatReport { start, end, rows }), rest))
}

/// A status, an interval, and parameters.
fn read_definitions<'a>(
    alloc: Global,
    tailoring: &Tailoring,
    octets: &'a [u8],
) -> Result<(Report04, &'a [u8]), BodyFault>
    ensures gives { Gives (λ x. (x.0, x.1.now)) result (definition_report tailoring.now octets.now) }
    ensures left { IfOk result (λ x. length x.1.now ≤ length octets.now) }
{
    let (enabled, rest) = read_flag(octets)?;
    let (interval, rest) = read_interval(tailoring, rest)?;
    let (ids, rest) = read_list(alloc, tailoring, 0, &NumericIds { tailoring }, rest)?;
    Ok((Report04::Definitions(enabled, interval, ids), rest))
}

/// Appends the body of a report, and answers its subtype. An error leaves `out` as it was.
pub fn encode_report(
    tailoring: &Tailoring,
    report: &Report04,
    out: &mut Vec<u8>,
) -> Result<u8, Memory>
    requires { IsReport tailoring.now report.now }
    ensures subtype { IfOk result (λ subtype. subtype ≡ report_subtype report.now) }
    ensures ok { IfOk result (λ subtype. out.new.items ≡ out.old.items ++ report_octets tailoring.now report.now) }
    ensures err { OnErr result (out.new.items ≡ out.old.items) }
{
    let kept = out.len();
    let written = write_report(tailoring, report, out);
    or_undo(written, kept, out)?;
    Ok(subtype_of(report))
}

fn subtype_of(report: &Report04) -> u8
    ensures { result ≡ report_subtype report.now }
{
    match report {
        Report04::Statistics(_) => 2,
        Report04::Definitions(_, _, _) => 9,
    }
}

/// Appends the fields of a report.
fn write_report(tailoring: &Tailoring, report: &Report04, out: &mut Vec<u8>) -> Result<(), Memory>
    requires { IsReport tailoring.now report.now }
    ensures { Appends out.old.items result out.new.items (report_octets tailoring.now report.now) }
{
    match report {
        Report04::Statistics(report) => write_statistics(tailoring, report, out),
        Report04::Definitions(enabled, interval, ids) => {
            write_definitions(tailoring, *enabled, *interval, ids.as_slice(), out)
        }
    }
}

/// Appends two times, and rows.
fn write_statistics(
    tailoring: &Tailoring,
    report: &StatReport,
    out: &mut Vec<u8>,
) -> Result<(), Memory>
    requires { IsStatistics tailoring.now report.now }
    ensures { Appends out.old.items result out.new.items (statistics_octets tailoring.now report.now) }
{
    write_time(tailoring, report.start, out)?;
    write_time(tailoring, report.end, out)?;
    write_list(tailoring, &Rows { tailoring }, report.rows.as_slice(), out)
}

/// Appends a status, an interval, and parameters.
fn write_definitions(
    tailoring: &Tailoring,
    enabled: bool,
    interval: u32,
    ids: &[u32],
    out: &mut Vec<u8>,
) -> Result<(), Memory>
    requires interval { IsInterval tailoring.now interval }
    requires ids { AreNumericIds tailoring.now 0 ids.now }
    ensures { Appends out.old.items result out.new.items (definition_octets tailoring.now enabled interval ids.now) }
{
    write_flag(enabled, out)?;
    write_interval(tailoring, interval, out)?;
    write_ids(tailoring, ids, out)
}
