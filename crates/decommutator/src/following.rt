//! What stands between entries that are followed.
ghost use Rattle.std.specs.Prelude.{◌≡◌, [], filter, flat_map, OnOk};
ghost use Rattle.live_verdicts.specs.Marks.{StandsFor};
ghost use Rattle.decommutator.specs.Output.{Proceeds, seen_as};
ghost use Rattle.decommutator.specs.Due.{new_tag, with_new, due_text, waits};
ghost use Rattle.decommutator.specs.Follows.{HasCome};

use crate::changed::{Came, changes_by};
use crate::looking::write_due;
use crate::waiting::add_new;
use ground_history::History;
use hk_base::Sink;
use live_verdicts::LiveVerdicts;
use session_record::WriteFault;
use std::alloc::Global;

/// What following goes on from.
#[derive(Drop)]
pub(crate) struct Following {
    pub(crate) live: LiveVerdicts,
    /// The tags of the reports whose blocks aren't written, in order.
    pub(crate) waiting: Vec<u64>,
}

/// Goes on after an entry: writes the blocks that can be written now and weren't before, in the order of tags.
pub(crate) fn go_on<K: Sink>(
    alloc: Global,
    live: &mut LiveVerdicts,
    waiting: &mut Vec<u64>,
    history: &History,
    came: Came,
    sink: &mut K,
) -> Result<(), WriteFault>
    requires { HasCome live.old waiting.old.items came history.now }
    ensures text { Proceeds (flat_map (due_text history.now) (with_new (new_tag came) waiting.old.items))
        (seen_as (K.taken sink.old) (K.faults sink.old) (K.room sink.old)) result []
        (seen_as (K.taken sink.new) (K.faults sink.new) (K.room sink.new)) }
    ensures waiting { OnOk result (waiting.new.items ≡ filter (waits history.now) (with_new (new_tag came) waiting.old.items)) }
    ensures stands { OnOk result (StandsFor live.new history.now) }
{
    let changed = changes_by(history, came);
    live.forget_from(changed.from, changed.touched);
    add_new(waiting, changed.new)?;
    write_due(alloc, live, history, changed, waiting, sink)
}
