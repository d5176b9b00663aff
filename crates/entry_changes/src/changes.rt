//! From which tag on an entry may have changed verdicts.
ghost use Rattle.std.specs.Prelude.{◌≡◌, ◌<◌, ◌≤◌, ◌+◌, ℕ, List, IfSome, true, is_some, length, max};
ghost use Rattle.pus_messages.specs.Messages.{protocol};
ghost use Rattle.ground_history.specs.Evidence.{floor, high, low};
ghost use Rattle.ground_history.specs.Histories.{got_kind, history_with_got, with_sent};
ghost use Rattle.ground_history.specs.Indexes as indexes;
ghost use Rattle.pus_messages.specs.declared.message.ReportBody.TheVariants.{Verify};
ghost use Rattle.ground_history.specs.Ground.{Ground, IsGrounded, with_history, tells_structure};
ghost use Rattle.ground_history.specs.declared.answer.GotKind.TheVariants as became;
ghost use Rattle.entry_changes.specs.Changes.{AreSameBelow, IsLastBefore, is_under, with_packet};

use ground_history::{History, KeptPacket, bounds_rise};
use pus_messages::ReportBody;
use st01_reports::Verification;
use st03_grammar::Report03;

/// The first tag of the reports on which verdicts may have changed since a new request was sent; None where there is none.
pub fn changed_by_sent(history: &History) -> Option<u64>
    ensures { (g : Ground) (packet : List ℕ) → history.now ≡ with_history g (with_sent (protocol g.tailoring) g.history packet)
        → AreSameBelow result g history.now }
{
    let count = history.count();
    if count == 0 {
        return Some(0);
    }
    Some(history.low(count - 1).saturating_add(1))
}

/// The first tag of the reports on which verdicts may have changed since the packet with this tag was kept; None where there is none.
pub fn changed_by_kept(history: &History, tag: u64) -> Option<u64>
    ensures { (g : Ground) (packet : List ℕ) → IsGrounded g → got_kind (protocol g.tailoring) g.history packet ≡ became.Kept tag
        → history.now ≡ with_history g (history_with_got g.history packet ((protocol g.tailoring).reception packet)) → AreSameBelow result g history.now }
{
    match history.kept_from(tag) {
        Some(kept) => changed_by_packet(history, kept),
        None => Some(0),
    }
}

/// The first tag of the reports on which verdicts may have changed since a packet was kept.
fn changed_by_packet(history: &History, kept: &KeptPacket) -> Option<u64>
    ensures { (g : Ground) → IsGrounded g → history.now ≡ with_history g (with_packet g.history kept.now) → AreSameBelow result g history.now }
{
    let body = &kept.report().body;
    if let ReportBody::Verify(verification) = body {
        return Some(changed_by_verification(history, kept, verification));
    }
    if tells(body) {
        Some(kept.tag().saturating_add(1))
    } else {
        None
    }
}

/// Whether a body is that of a report of a structure.
fn tells(body: &ReportBody) -> bool
    ensures { result ≡ tells_structure body.now }
{
    matches!(body, ReportBody::Hk(Report03::Structure(_, _)))
}

/// The same of a verification report.
fn changed_by_verification(history: &History, kept: &KeptPacket, verification: &Verification) -> u64
    requires { kept.now.report.body ≡ Verify verification.now }
    ensures { (g : Ground) → IsGrounded g → history.now ≡ with_history g (with_packet g.history kept.now) → AreSameBelow (Some result) g history.now }
{
    // A law: it says that bounds rise, and does nothing.
    bounds_rise();
    let _tailoring = history.tailoring();
    let Some(number) = kept.number() else {
        return 0;
    };
    if number >= history.count() {
        return 0;
    }
    match last_before(history, number, verification, kept.tag()) {
        Some(last) => unseen_below(history, last),
        None => 1,
    }
}

/// One above a tag that no request after one was executed at or below, whatever a report on one of them tells.
fn unseen_below(history: &History, last: u64) -> u64
    requires { last + 1 < length history.now.history.requests }
    ensures { result ≤ max (low history.now.history last) (floor history.now.history (last + 1)) + 1 }
{
    let _sent = history.count();
    let ended = history.low(last);
    let sent = history.floor(last + 1);
    ended.max(sent).saturating_add(1)
}

/// The last request before the first of which a verification report on a request tells something new.
fn last_before(history: &History, number: u64, verification: &Verification, tag: u64) -> Option<u64>
    requires { number < length history.now.history.requests }
    ensures { IfSome result (IsLastBefore history.now.history number verification.now tag) }
{
    if !has_place_after(number, verification) {
        return number.checked_sub(1);
    }
    last_ended(history, number, tag)
}

/// Whether a verification report on a request tells that requests have ended.
fn has_place_after(number: u64, verification: &Verification) -> bool
    ensures { result ≡ is_some (indexes.place_after number verification.now) }
{
    match verification {
        Verification::Completed(_) | Verification::Incomplete(..) => true,
        Verification::Started(_) | Verification::NotStarted(_, _) => number != 0,
        _ => false,
    }
}

/// The last request before another that is known to have ended below a tag, by binary search.
fn last_ended(history: &History, number: u64, tag: u64) -> Option<u64>
    requires { number < length history.now.history.requests }
    ensures { IfSome result (λ last. (last < number) × (is_under (high history.now.history last) tag ≡ true)) }
{
    let mut last = None;
    let mut from = 0;
    let mut to = number;
    while from < to {
        let middle = from + (to - from) / 2;
        if is_below(history.high(middle), tag) {
            last = Some(middle);
            from = middle + 1;
        } else {
            to = middle;
        }
    }
    last
}

/// Whether a tag is known and below another.
fn is_below(known: Option<u64>, tag: u64) -> bool
    ensures { result ≡ is_under known tag }
{
    match known {
        Some(known) => known < tag,
        None => false,
    }
}
