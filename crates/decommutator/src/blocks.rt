//! The blocks of kept reports.
ghost use Rattle.std.specs.Prelude.{◌≡◌, ◌≤◌, ◌++◌, length};
ghost use Rattle.body_fields.specs.Outcomes.{Appends};
ghost use Rattle.pus_messages.specs.Spelling.{HasRoom};
ghost use Rattle.session_texts.specs.Blocks.{block, body_block};
ghost use Rattle.decommutator.specs.Standing.{blocks_by};
ghost use Rattle.decommutator.specs.Output.{Proceeds, as_seen};
ghost use Rattle.decommutator.specs.Blocks.{parameter_block};

use crate::output::write_piece;
use crate::verdicts::Verdicts;
use block_lines::{write_current, write_report, write_statistics};
use ground_history::KeptPacket;
use hk_base::{Key, Memory, Sink};
use pus_messages::{Report, ReportBody};
use session_record::WriteFault;
use st03_grammar::Report03;
use st04_grammar::Report04;
use std::alloc::Global;

/// Writes the blocks of the kept reports in the order of tags. A last part of them stays gathered.
pub(crate) fn write_blocks<K: Sink>(
    alloc: Global,
    verdicts: &Verdicts<'_>,
    sink: &mut K,
    out: &mut Vec<u8>,
) -> Result<(), WriteFault>
    ensures { Proceeds (out.old.items ++ blocks_by verdicts.now) (as_seen K.Sink sink.old) result out.new.items (as_seen K.Sink sink.new) }
{
    for kept in verdicts.history().packets() {
        put_block(alloc, verdicts, kept, out)?;
        write_piece(sink, out)?;
    }
    Ok(())
}

/// Appends the block of a kept report.
fn put_block(
    alloc: Global,
    verdicts: &Verdicts<'_>,
    kept: &KeptPacket,
    out: &mut Vec<u8>,
) -> Result<(), Memory>
    requires { HasRoom kept.now.report.body }
    ensures { Appends out.old.items result out.new.items (block verdicts.now.tailoring verdicts.now.history kept.now) }
{
    put_last(alloc, verdicts, kept.report(), out)
}

/// Appends the block of a report by the history.
pub(crate) fn put_last(
    alloc: Global,
    verdicts: &Verdicts<'_>,
    report: &Report,
    out: &mut Vec<u8>,
) -> Result<(), Memory>
    requires { HasRoom report.now.body }
    ensures { Appends out.old.items result out.new.items (body_block verdicts.now.tailoring verdicts.now.history report.now.header.tag report.now.body) }
{
    let tag = report.header.tag;
    match &report.body {
        ReportBody::Hk(Report03::Values(key, payload)) => {
            put_report(alloc, verdicts, *key, tag, payload.as_slice(), out)
        }
        ReportBody::Stat(Report04::Statistics(report)) => {
            write_statistics(out, verdicts.history().tailoring(), tag, report)
        }
        ReportBody::Par(report) => write_current(out, tag, report.pairs.as_slice()),
        _ => Ok(()),
    }
}

/// Appends the block of a parameter report.
fn put_report(
    alloc: Global,
    verdicts: &Verdicts<'_>,
    key: Key,
    tag: u64,
    payload: &[u8],
    out: &mut Vec<u8>,
) -> Result<(), Memory>
    requires { length payload.now ≤ 2147483648 }
    ensures { Appends out.old.items result out.new.items (parameter_block verdicts.now.tailoring verdicts.now.history key tag payload.now) }
{
    let verdict = verdicts.on_report(alloc, key, tag, payload)?;
    let tailoring = verdicts.history().tailoring();
    write_report(alloc, out, tailoring, key, tag, &verdict, payload)
}
