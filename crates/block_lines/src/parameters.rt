//! The blocks of reports of statistics and of current values.
ghost use Rattle.std.specs.Prelude.{◌≡◌, ◌++◌, ◌^◌, ◌<◌, flat_map};
ghost use Rattle.body_fields.specs.Outcomes.{Appends};
ghost use Rattle.session_texts.specs.Blocks.{stat_line, statistics_lines, current_line, current_lines};
ghost use Rattle.block_lines.specs.Parts.{statistics_front, current_front};

use crate::parts::{Part, put_parts};
use hk_base::{Memory, Tailoring};
use st04_grammar::{StatReport, StatRow};
use st20_grammar::Setting;

/// Appends the block of a statistics report with this tag.
pub fn write_statistics(
    out: &mut Vec<u8>,
    tailoring: &Tailoring,
    tag: u64,
    report: &StatReport,
) -> Result<(), Memory>
    ensures { Appends out.old.items result out.new.items (statistics_lines tailoring.now tag report.now) }
{
    write_statistics_front(out, tag, report)?;
    write_rows(out, tailoring, report.rows.as_slice())?;
    Ok(())
}

/// Appends the first line of the block of a statistics report.
fn write_statistics_front(out: &mut Vec<u8>, tag: u64, report: &StatReport) -> Result<(), Memory>
    ensures { Appends out.old.items result out.new.items (statistics_front tag report.now) }
{
    put_parts(
        out,
        &[
            Part::Text("statistics tag "),
            Part::Number(tag),
            Part::Text(" from "),
            Part::Number(report.start),
            Part::Text(" to "),
            Part::Number(report.end),
            Part::Text("\n"),
        ],
    )
}

/// Appends a line for each row.
fn write_rows(out: &mut Vec<u8>, tailoring: &Tailoring, rows: &[StatRow]) -> Result<(), Memory>
    ensures { Appends out.old.items result out.new.items (flat_map (stat_line tailoring.now) rows.now) }
{
    for row in rows {
        write_row(out, tailoring, row)?;
    }
    Ok(())
}

/// Appends the line of a parameter's statistics.
fn write_row(out: &mut Vec<u8>, tailoring: &Tailoring, row: &StatRow) -> Result<(), Memory>
    ensures { Appends out.old.items result out.new.items (stat_line tailoring.now row.now) }
{
    let scale = scale(tailoring);
    put_parts(
        out,
        &[
            Part::Text("stat "),
            Part::Number(u64::from(row.param)),
            Part::Text(" count "),
            Part::Number(u64::from(row.count)),
            Part::Text(" max "),
            Part::Value(row.max),
            Part::Text(" at "),
            Part::Number(row.max_time),
            Part::Text(" min "),
            Part::Value(row.min),
            Part::Text(" at "),
            Part::Number(row.min_time),
            Part::Text(" mean "),
            Part::Value(row.mean),
            Part::Text(" scale "),
            Part::Number(scale),
            Part::Text("\n"),
        ],
    )
}

/// How many units of a mean are one.
fn scale(tailoring: &Tailoring) -> u64
    ensures { result ≡ 256 ^ tailoring.now.widths.mean_fraction }
{
    256u64.pow(u32::from(tailoring.widths().mean_fraction))
}

/// Appends the block of a report of values with this tag.
pub fn write_current(out: &mut Vec<u8>, tag: u64, pairs: &[Setting]) -> Result<(), Memory>
    ensures { Appends out.old.items result out.new.items (current_lines tag pairs.now) }
{
    write_current_front(out, tag)?;
    write_pairs(out, pairs)?;
    Ok(())
}

/// Appends the first line of the block of a report of values.
fn write_current_front(out: &mut Vec<u8>, tag: u64) -> Result<(), Memory>
    ensures { Appends out.old.items result out.new.items (current_front tag) }
{
    put_parts(
        out,
        &[
            Part::Text("values tag "),
            Part::Number(tag),
            Part::Text("\n"),
        ],
    )
}

/// Appends a line for each pair.
fn write_pairs(out: &mut Vec<u8>, pairs: &[Setting]) -> Result<(), Memory>
    ensures { Appends out.old.items result out.new.items (flat_map current_line pairs.now) }
{
    for pair in pairs {
        write_pair(out, *pair)?;
    }
    Ok(())
}

/// Appends the line of a parameter's value.
fn write_pair(out: &mut Vec<u8>, pair: Setting) -> Result<(), Memory>
    ensures { Appends out.old.items result out.new.items (current_line pair) }
{
    put_parts(
        out,
        &[
            Part::Text("current "),
            Part::Number(u64::from(pair.param)),
            Part::Text(" = "),
            Part::Value(pair.value),
            Part::Text("\n"),
        ],
    )
}
