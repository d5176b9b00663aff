//! What is written at the end of a session that was followed.
ghost use Rattle.std.specs.Prelude.{◌≡◌, ◌++◌, flat_map};
ghost use Rattle.body_fields.specs.Outcomes.{Appends};
ghost use Rattle.decommutator.specs.Output.{HasEnded, Proceeds, as_seen};
ghost use Rattle.decommutator.specs.Due.{last_text, rest_by};

use crate::blocks::put_last;
use crate::output::{write_gathered, write_piece};
use crate::verdicts::Verdicts;
use block_lines::{Counts, write_counts};
use ground_history::History;
use hk_base::{Memory, Sink};
use session_record::WriteFault;
use std::alloc::Global;

/// Writes the blocks of the reports with these tags by the history, and then the counts.
pub(crate) fn write_rest<K: Sink>(
    alloc: Global,
    history: &History,
    counts: &Counts,
    tags: &[u64],
    sink: &mut K,
) -> Result<(), WriteFault>
    ensures { HasEnded (rest_by history.now tags.now counts.now) result (as_seen K.Sink sink.old) (as_seen K.Sink sink.new) }
{
    let verdicts = Verdicts::on_many(alloc, history)?;
    write_last(alloc, &verdicts, counts, tags, sink)
}

/// Writes the blocks of the reports with these tags, and then the counts.
fn write_last<K: Sink>(
    alloc: Global,
    verdicts: &Verdicts<'_>,
    counts: &Counts,
    tags: &[u64],
    sink: &mut K,
) -> Result<(), WriteFault>
    ensures { HasEnded (rest_by verdicts.now tags.now counts.now) result (as_seen K.Sink sink.old) (as_seen K.Sink sink.new) }
{
    let mut out = Vec::new(alloc);
    write_blocks(alloc, verdicts, tags, sink, &mut out)?;
    write_counts(&mut out, counts)?;
    write_gathered(sink, &mut out)
}

/// Writes the blocks of the reports with these tags, in their order. A last part of them stays gathered.
fn write_blocks<K: Sink>(
    alloc: Global,
    verdicts: &Verdicts<'_>,
    tags: &[u64],
    sink: &mut K,
    out: &mut Vec<u8>,
) -> Result<(), WriteFault>
    ensures { Proceeds (out.old.items ++ flat_map (last_text verdicts.now) tags.now) (as_seen K.Sink sink.old) result out.new.items (as_seen K.Sink sink.new) }
{
    for tag in tags {
        put_with_tag(alloc, verdicts, *tag, out)?;
        write_piece(sink, out)?;
    }
    Ok(())
}

/// Appends the block of the report with this tag.
fn put_with_tag(
    alloc: Global,
    verdicts: &Verdicts<'_>,
    tag: u64,
    out: &mut Vec<u8>,
) -> Result<(), Memory>
    ensures { Appends out.old.items result out.new.items (last_text verdicts.now tag) }
{
    match verdicts.history().report_from(tag) {
        Some(report) => put_last(alloc, verdicts, report, out),
        None => Ok(()),
    }
}
