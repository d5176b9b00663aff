//! The blocks of reports that can be written.
ghost use Rattle.std.specs.Prelude.{◌≡◌, ◌≤◌, IfOk, length};
ghost use Rattle.body_fields.specs.Outcomes.{Appends};
ghost use Rattle.pus_messages.specs.Spelling.{HasRoom};
ghost use Rattle.session_texts.specs.Follow.{is_decision};
ghost use Rattle.definition_intervals.specs.Verdicts as definitions;
ghost use Rattle.block_lines.specs.Decisions.{IsExplained};
ghost use Rattle.live_verdicts.specs.Marks.{StandsFor};
ghost use Rattle.decommutator.specs.Due.{due_text, waits, ready_block, is_ready_report, decided_block, is_decided};

use block_lines::{write_current, write_report, write_statistics};
use definition_intervals::{Verdict, decisions_are_formed};
use ground_history::History;
use hk_base::{Key, Memory};
use live_verdicts::LiveVerdicts;
use pus_messages::{Report, ReportBody};
use st03_grammar::Report03;
use st04_grammar::Report04;
use std::alloc::Global;

/// Appends the block of the report with this tag if it can be written. Returns true if the report must still wait.
pub(crate) fn put_due(
    alloc: Global,
    live: &mut LiveVerdicts,
    history: &History,
    tag: u64,
    out: &mut Vec<u8>,
) -> Result<bool, Memory>
    requires stands { StandsFor live.old history.now }
    ensures waits { IfOk result (λ waiting. waiting ≡ waits history.now tag) }
    ensures block { Appends out.old.items result out.new.items (due_text history.now tag) }
    ensures stands { StandsFor live.new history.now }
{
    let _tailoring = history.tailoring();
    match history.report_from(tag) {
        Some(report) => Ok(!put_ready(alloc, live, history, report, out)?),
        None => Ok(false),
    }
}

/// Appends the block of a report if it can be written. Returns whether it can.
fn put_ready(
    alloc: Global,
    live: &mut LiveVerdicts,
    history: &History,
    report: &Report,
    out: &mut Vec<u8>,
) -> Result<bool, Memory>
    requires room { HasRoom report.now.body }
    requires stands { StandsFor live.old history.now }
    ensures ready { IfOk result (λ ready. ready ≡ is_ready_report history.now report.now) }
    ensures block { Appends out.old.items result out.new.items (ready_block history.now report.now) }
    ensures stands { StandsFor live.new history.now }
{
    let tag = report.header.tag;
    match &report.body {
        ReportBody::Hk(Report03::Values(key, payload)) => {
            put_decided(alloc, live, history, *key, tag, payload.as_slice(), out)
        }
        ReportBody::Stat(Report04::Statistics(report)) => {
            write_statistics(out, history.tailoring(), tag, report)?;
            Ok(true)
        }
        ReportBody::Par(report) => {
            write_current(out, tag, report.pairs.as_slice())?;
            Ok(true)
        }
        _ => Ok(true),
    }
}

/// Appends the block of a parameter report if it is decided. Returns whether it is.
fn put_decided(
    alloc: Global,
    live: &mut LiveVerdicts,
    history: &History,
    key: Key,
    tag: u64,
    payload: &[u8],
    out: &mut Vec<u8>,
) -> Result<bool, Memory>
    requires limit { length payload.now ≤ 2147483648 }
    requires stands { StandsFor live.old history.now }
    ensures decided { IfOk result (λ decided. decided ≡ is_decided history.now key tag payload.now) }
    ensures block { Appends out.old.items result out.new.items (decided_block history.now key tag payload.now) }
    ensures stands { StandsFor live.new history.now }
{
    let verdict = verdict_on(live, history, key, tag, payload)?;
    if !is_decision(&verdict) {
        return Ok(false);
    }
    let tailoring = history.tailoring();
    write_report(alloc, out, tailoring, key, tag, &verdict, payload)?;
    Ok(true)
}

/// The verdict on a parameter report. A definition that it names explains the report.
fn verdict_on(
    live: &mut LiveVerdicts,
    history: &History,
    key: Key,
    tag: u64,
    payload: &[u8],
) -> Result<Verdict, Memory>
    requires limit { length payload.now ≤ 2147483648 }
    requires stands { StandsFor live.old history.now }
    ensures verdict { IfOk result (λ verdict. verdict ≡ definitions.verdict history.now.tailoring history.now.history key tag payload.now) }
    ensures explained { IfOk result (λ verdict. IsExplained history.now.tailoring tag payload.now verdict) }
    ensures stands { StandsFor live.new history.now }
{
    // A law: it says what a decided definition is, and does nothing.
    decisions_are_formed();
    let _most = history.tailoring().widths();
    live.verdict(history, key, tag, payload)
}

/// Whether a verdict names a definition.
fn is_decision(verdict: &Verdict) -> bool
    ensures { result ≡ is_decision verdict.now }
{
    matches!(verdict, Verdict::Decided(_))
}
