//! The first request that an entry says something new about.
ghost use Rattle.std.specs.Prelude.{◌≡◌, ℕ, List, None};
ghost use Rattle.pus_messages.specs.Messages.{protocol};
ghost use Rattle.ground_history.specs.Histories.{got_kind, history_with_got, with_sent};
ghost use Rattle.ground_history.specs.Ground.{Ground, IsGrounded, with_history};
ghost use Rattle.ground_history.specs.declared.answer.GotKind.TheVariants as became;
ghost use Rattle.entry_changes.specs.Changes as changes;
ghost use Rattle.entry_changes.specs.Changes.{AreUnsureSame, with_packet};

use ground_history::{History, KeptPacket};
use pus_messages::ReportBody;
use st01_reports::Verification;

/// The first request with new evidence since the packet with this tag was kept; None where there is none.
pub fn touched_by_kept(history: &History, tag: u64) -> Option<u64>
    ensures { (g : Ground) (packet : List ℕ) → IsGrounded g → got_kind (protocol g.tailoring) g.history packet ≡ became.Kept tag
        → history.now ≡ with_history g (history_with_got g.history packet ((protocol g.tailoring).reception packet))
        → AreUnsureSame result g history.now }
{
    match history.kept_from(tag) {
        Some(kept) => touched_by_packet(kept),
        None => Some(0),
    }
}

/// The first request that a kept packet says something new about.
fn touched_by_packet(kept: &KeptPacket) -> Option<u64>
    ensures { (g : Ground) → AreUnsureSame result g (with_history g (with_packet g.history kept.now)) }
{
    let ReportBody::Verify(verification) = &kept.report().body else {
        return None;
    };
    if tells_acceptance(verification) {
        return None;
    }
    Some(kept.number().unwrap_or(0))
}

/// Whether a verification report tells neither that its request is barred nor what came of its instructions, but that it was accepted.
fn tells_acceptance(verification: &Verification) -> bool
    ensures { result ≡ changes.tells_acceptance verification.now }
{
    matches!(verification, Verification::Accepted(_))
}

/// A request that is sent touches none of those before it.
pub fn sent_touches_none()
    ensures { (g : Ground) (packet : List ℕ) → AreUnsureSame None g (with_history g (with_sent (protocol g.tailoring) g.history packet)) }
{}
