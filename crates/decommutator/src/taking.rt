//! What an entry makes of the history and of the counts.
ghost use Rattle.std.specs.Prelude.{◌≡◌, ◌≤◌, ◌<◌, ◌^◌, IfOk, length};
ghost use Rattle.ground_history.specs.Ground.{IsAnswer};
ghost use Rattle.session_record.specs.Records.{held_octets};
ghost use Rattle.decommutator.specs.Standing.{total, answer_of, ground_after, counts_after};
ghost use Rattle.decommutator.specs.Due.{came_of, done_by};

use crate::changed::Came;
use crate::counts::count;
use block_lines::Counts;
use ground_history::{History, SentFault};
use session_record::Entry;

/// Takes an entry: a packet that was sent, or one that was received. A line of the journal is skipped, and a refusal changes nothing.
pub(crate) fn take(
    history: &mut History,
    counts: &mut Counts,
    entry: &Entry,
) -> Result<Came, SentFault>
    requires few { total counts.old < 4294967295 }
    requires size { length (held_octets entry.now) ≤ 2 ^ 31 }
    ensures answer { IsAnswer (answer_of history.old entry.now) (done_by result) }
    ensures history { history.new ≡ ground_after history.old entry.now (done_by result) }
    ensures counts { counts.new ≡ counts_after history.old counts.old entry.now (done_by result) }
    ensures came { IfOk result (λ came. came ≡ came_of history.old entry.now) }
{
    match entry {
        Entry::Sent(packet) => {
            let new = history.sent(packet.as_slice())?;
            Ok(Came::sent(new))
        }
        Entry::Got(packet) => {
            let kind = history.got(packet.as_slice())?;
            count(counts, kind);
            Ok(Came::got(kind))
        }
        Entry::Line(_) => Ok(Came::Nothing),
    }
}
