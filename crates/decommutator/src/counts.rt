//! What became of received packets that weren't kept.
ghost use Rattle.std.specs.Prelude.{◌≡◌, ◌<◌};
ghost use Rattle.decommutator.specs.Standing as standing;
ghost use Rattle.decommutator.specs.Standing.{with_kind, total};

use block_lines::Counts;
use ground_history::GotKind;

/// Nothing was received.
pub(crate) fn no_counts() -> Counts
    ensures { result ≡ standing.no_counts }
{
    Counts {
        repeats: 0,
        conflicts: 0,
        foreign: 0,
        skipped: 0,
        unread: 0,
        stray: 0,
    }
}

/// Counts what became of one more packet.
pub(crate) fn count(counts: &mut Counts, kind: GotKind)
    requires { total counts.old < 4294967295 }
    ensures { counts.new ≡ with_kind counts.old kind }
{
    match kind {
        GotKind::Kept(_) => {}
        GotKind::Repeat(_) => counts.repeats += 1,
        GotKind::Conflict(_) => counts.conflicts += 1,
        GotKind::Foreign(_) => counts.foreign += 1,
        GotKind::Skipped(_, _) => counts.skipped += 1,
        GotKind::Unread => counts.unread += 1,
        GotKind::Stray(_) => counts.stray += 1,
    }
}
