//! The whole text.
ghost use Rattle.std.specs.Prelude.{◌≡◌};
ghost use Rattle.decommutator.specs.Output.{HasEnded, as_seen};
ghost use Rattle.decommutator.specs.Standing.{text_by};

use crate::blocks::write_blocks;
use crate::output::write_gathered;
use crate::verdicts::Verdicts;
use block_lines::{Counts, write_counts};
use ground_history::History;
use hk_base::Sink;
use session_record::WriteFault;
use std::alloc::Global;

/// Writes the whole text of a history and these counts.
pub(crate) fn write_text<K: Sink>(
    alloc: Global,
    history: &History,
    counts: &Counts,
    sink: &mut K,
) -> Result<(), WriteFault>
    ensures { HasEnded (text_by history.now counts.now) result (as_seen K.Sink sink.old) (as_seen K.Sink sink.new) }
{
    let verdicts = Verdicts::on_many(alloc, history)?;
    write_lines(alloc, &verdicts, counts, sink)
}

/// Writes the blocks of the kept reports in the order of tags, and then the counts.
fn write_lines<K: Sink>(
    alloc: Global,
    verdicts: &Verdicts<'_>,
    counts: &Counts,
    sink: &mut K,
) -> Result<(), WriteFault>
    ensures { HasEnded (text_by verdicts.now counts.now) result (as_seen K.Sink sink.old) (as_seen K.Sink sink.new) }
{
    let mut out = Vec::new(alloc);
    write_blocks(alloc, verdicts, sink, &mut out)?;
    write_counts(&mut out, counts)?;
    write_gathered(sink, &mut out)
}
