//! Reports that wait are looked at again.
ghost use Rattle.std.specs.Prelude.{◌≡◌, ◌++◌, ◌∷◌, [], true, filter, flat_map, OnOk, IfOk};
ghost use Rattle.std.specs.List.{AllByRecursion};
ghost use Rattle.body_fields.specs.Outcomes.{Appends};
ghost use Rattle.live_verdicts.specs.Marks.{StandsFor};
ghost use Rattle.decommutator.specs.Output.{Proceeds, as_seen};
ghost use Rattle.decommutator.specs.Due as due;
ghost use Rattle.decommutator.specs.Due.{AreRising, due_text, waits};

use crate::changed::Changed;
use crate::due::put_due;
use crate::output::{write_gathered, write_piece};
use crate::waiting::split_from;
use ground_history::History;
use hk_base::{Memory, Sink};
use live_verdicts::LiveVerdicts;
use session_record::WriteFault;
use std::alloc::Global;

/// Writes the blocks of the waiting reports that can be written now, in the order of tags. The others still wait.
pub(crate) fn write_due<K: Sink>(
    alloc: Global,
    live: &mut LiveVerdicts,
    history: &History,
    changed: Changed,
    waiting: &mut Vec<u64>,
    sink: &mut K,
) -> Result<(), WriteFault>
    requires stands { StandsFor live.old history.now }
    requires rising { AreRising waiting.old.items }
    requires same { AllByRecursion (λ tag. due.is_same changed tag ≡ true → waits history.now tag ≡ true) waiting.old.items }
    ensures text { Proceeds (flat_map (due_text history.now) waiting.old.items) (as_seen K.Sink sink.old) result [] (as_seen K.Sink sink.new) }
    ensures waiting { OnOk result (waiting.new.items ≡ filter (waits history.now) waiting.old.items) }
    ensures stands { OnOk result (StandsFor live.new history.now) }
{
    let Some(first) = changed.first() else {
        return Ok(());
    };
    let tags = split_from(waiting, first)?;
    let mut out = Vec::new(alloc);
    look_over(
        alloc,
        live,
        history,
        changed,
        tags.as_slice(),
        waiting,
        sink,
        &mut out,
    )?;
    write_gathered(sink, &mut out)
}

/// Looks at reports with these tags, in their order: a block is written, or the report still waits. A last part stays gathered.
fn look_over<K: Sink>(
    alloc: Global,
    live: &mut LiveVerdicts,
    history: &History,
    changed: Changed,
    tags: &[u64],
    waiting: &mut Vec<u64>,
    sink: &mut K,
    out: &mut Vec<u8>,
) -> Result<(), WriteFault>
    requires stands { StandsFor live.old history.now }
    requires same { AllByRecursion (λ tag. due.is_same changed tag ≡ true → waits history.now tag ≡ true) tags.now }
    ensures text { Proceeds (out.old.items ++ flat_map (due_text history.now) tags.now) (as_seen K.Sink sink.old) result out.new.items (as_seen K.Sink sink.new) }
    ensures waiting { OnOk result (waiting.new.items ≡ waiting.old.items ++ filter (waits history.now) tags.now) }
    ensures stands { OnOk result (StandsFor live.new history.now) }
{
    for tag in tags {
        look_at(alloc, live, history, changed, *tag, waiting, out)?;
        write_piece(sink, out)?;
    }
    Ok(())
}

/// Looks at the report with this tag: its block is appended, or it still waits.
fn look_at(
    alloc: Global,
    live: &mut LiveVerdicts,
    history: &History,
    changed: Changed,
    tag: u64,
    waiting: &mut Vec<u64>,
    out: &mut Vec<u8>,
) -> Result<(), Memory>
    requires stands { StandsFor live.old history.now }
    requires same { due.is_same changed tag ≡ true → waits history.now tag ≡ true }
    ensures block { Appends out.old.items result out.new.items (due_text history.now tag) }
    ensures waiting { OnOk result (waiting.new.items ≡ waiting.old.items ++ filter (waits history.now) (tag ∷ [])) }
    ensures stands { StandsFor live.new history.now }
{
    if still_waits(alloc, live, history, changed, tag, out)? {
        waiting.push(tag)?;
    }
    Ok(())
}

/// Whether the report with this tag still waits. If not, its block is appended.
fn still_waits(
    alloc: Global,
    live: &mut LiveVerdicts,
    history: &History,
    changed: Changed,
    tag: u64,
    out: &mut Vec<u8>,
) -> Result<bool, Memory>
    requires stands { StandsFor live.old history.now }
    requires same { due.is_same changed tag ≡ true → waits history.now tag ≡ true }
    ensures waits { IfOk result (λ waiting. waiting ≡ waits history.now tag) }
    ensures block { Appends out.old.items result out.new.items (due_text history.now tag) }
    ensures stands { StandsFor live.new history.now }
{
    if changed.is_same(tag) {
        return Ok(true);
    }
    put_due(alloc, live, history, tag, out)
}
