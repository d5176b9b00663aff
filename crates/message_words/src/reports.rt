//! The words of reports.
ghost use Rattle.std.specs.Prelude.{◌≡◌, ◌∷◌, ◌++◌, [], flat_map, OnOk, IfOk};
ghost use Rattle.std.specs.String.{string_bytes};
ghost use Rattle.message_words.specs.Words as spelling;
ghost use Rattle.message_words.specs.Words.{verification_words, housekeeping_report_words, statistics_report_words, report_body_words, id_words, cause_words, refused_words, row_words, type_word, report_text};
ghost use Rattle.message_words.specs.Tails.{tail};

use crate::lists::{push_definition, push_key};
use crate::words::{kind_word, push_count, push_hex, push_named, push_number, push_word};
use hk_base::{Memory, Octets, RequestId};
use pus_messages::{Report, ReportBody};
use st01_reports::{Cause, Verification};
use st03_grammar::{PeriodicRow, Report03};
use st04_grammar::Report04;
use std::alloc::{AllocError, Global};
use std::fmt::Write;

/// The words of a report: its tag, its service and subtype, and its body.
pub fn report_words(alloc: Global, report: &Report) -> Result<Octets, Memory>
    ensures { IfOk result (λ words. words ≡ report_text report.now) }
{
    let mut line = String::new(alloc);
    let tag = report.header.tag;
    write!(line, "{tag}")?;
    push_type(&mut line, report.header.service, report.header.subtype)?;
    push_body(&mut line, &report.body)?;
    Ok(Octets::from_vec(line.into_bytes()))
}

/// Appends a service and a subtype.
fn push_type(line: &mut String, service: u8, subtype: u8) -> Result<(), AllocError>
    ensures { OnOk result (string_bytes line.new ≡ string_bytes line.old ++ tail (type_word service subtype ∷ [])) }
{
    write!(line, " {service}.{subtype}")?;
    Ok(())
}

fn push_body(line: &mut String, body: &ReportBody) -> Result<(), AllocError>
    ensures { OnOk result (string_bytes line.new ≡ string_bytes line.old ++ tail (report_body_words body.now)) }
{
    match body {
        ReportBody::Verify(verification) => push_verification(line, verification),
        ReportBody::Hk(report) => push_housekeeping(line, report),
        ReportBody::Stat(report) => push_statistics(line, report),
        ReportBody::Par(report) => push_count(line, "rows", report.pairs.as_slice().len()),
    }
}

fn push_verification(line: &mut String, verification: &Verification) -> Result<(), AllocError>
    ensures { OnOk result (string_bytes line.new ≡ string_bytes line.old ++ tail (verification_words verification.now)) }
{
    match verification {
        Verification::Accepted(id) => push_id(line, *id),
        Verification::Refused(id, cause) => push_refusal(line, *id, *cause),
        Verification::Started(id) => push_id(line, *id),
        Verification::NotStarted(id, cause) => push_refusal(line, *id, *cause),
        Verification::Step(id, step) => push_step(line, *id, *step),
        Verification::StepFailed(id, step, cause) => {
            push_step(line, *id, *step)?;
            push_cause(line, *cause)
        }
        Verification::Completed(id) => push_id(line, *id),
        Verification::Incomplete(id, code, steps) => {
            push_id(line, *id)?;
            push_named(line, "code", u32::from(*code))?;
            push_refused(line, steps.as_slice())
        }
        Verification::NotRouted(id, cause) => push_refusal(line, *id, *cause),
    }
}

/// Appends the ID of a request.
fn push_id(line: &mut String, id: RequestId) -> Result<(), AllocError>
    ensures { OnOk result (string_bytes line.new ≡ string_bytes line.old ++ tail (id_words id)) }
{
    push_word(line, "request")?;
    push_hex(line, 8, id.word)
}

/// Appends the ID of a request and a step.
fn push_step(line: &mut String, id: RequestId, step: u32) -> Result<(), AllocError>
    ensures { OnOk result (string_bytes line.new ≡ string_bytes line.old ++ tail (id_words id ++ spelling.step_words step)) }
{
    push_id(line, id)?;
    push_named(line, "step", step)
}

/// Appends the ID of a request and a cause.
fn push_refusal(line: &mut String, id: RequestId, cause: Cause) -> Result<(), AllocError>
    ensures { OnOk result (string_bytes line.new ≡ string_bytes line.old ++ tail (id_words id ++ cause_words cause)) }
{
    push_id(line, id)?;
    push_cause(line, cause)
}

fn push_cause(line: &mut String, cause: Cause) -> Result<(), AllocError>
    ensures { OnOk result (string_bytes line.new ≡ string_bytes line.old ++ tail (cause_words cause)) }
{
    push_named(line, "code", u32::from(cause.code))?;
    push_named(line, "detail", cause.detail)
}

/// Appends the steps that were refused.
fn push_refused(line: &mut String, steps: &[u32]) -> Result<(), AllocError>
    ensures { OnOk result (string_bytes line.new ≡ string_bytes line.old ++ tail (flat_map refused_words steps.now)) }
{
    for step in steps {
        push_named(line, "refused", *step)?;
    }
    Ok(())
}

fn push_housekeeping(line: &mut String, report: &Report03) -> Result<(), AllocError>
    ensures { OnOk result (string_bytes line.new ≡ string_bytes line.old ++ tail (housekeeping_report_words report.now)) }
{
    match report {
        Report03::Structure(key, structure) => {
            push_key(line, *key)?;
            push_word(line, status_word(structure.enabled))?;
            push_definition(line, &structure.def)
        }
        Report03::Values(key, payload) => {
            push_key(line, *key)?;
            push_count(line, "octets", payload.as_slice().len())
        }
        Report03::Periodic(kind, rows) => {
            push_word(line, kind_word(*kind))?;
            push_rows(line, rows.as_slice())
        }
    }
}

/// The word of a status.
fn status_word(enabled: bool) -> &'static str
    ensures { result.now ≡ spelling.status_word enabled }
{
    if enabled { "enabled" } else { "disabled" }
}

/// Appends the periodic properties of structures.
fn push_rows(line: &mut String, rows: &[PeriodicRow]) -> Result<(), AllocError>
    ensures { OnOk result (string_bytes line.new ≡ string_bytes line.old ++ tail (flat_map row_words rows.now)) }
{
    for row in rows {
        push_number(line, row.id)?;
        push_named(line, status_word(row.enabled), row.interval)?;
    }
    Ok(())
}

fn push_statistics(line: &mut String, report: &Report04) -> Result<(), AllocError>
    ensures { OnOk result (string_bytes line.new ≡ string_bytes line.old ++ tail (statistics_report_words report.now)) }
{
    match report {
        Report04::Statistics(statistics) => {
            push_count(line, "rows", statistics.rows.as_slice().len())
        }
        Report04::Definitions(_, _, ids) => push_count(line, "rows", ids.as_slice().len()),
    }
}
