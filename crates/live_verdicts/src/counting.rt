//! How many requests may have been executed below a tag, and how many are known to have ended at it.
ghost use Rattle.std.specs.Prelude.{◌≤◌, length};
ghost use Rattle.live_verdicts.specs.Marks.{AreListedBelow};

use crate::firm::{have_begun, is_at_most};
use ground_history::{History, bounds_rise};

/// The number below which requests may have been executed below a tag, by binary search.
pub(crate) fn listed_below(history: &History, tag: u64) -> u64
    ensures { AreListedBelow history.now.history tag result }
{
    // A law: it says that bounds rise, and does nothing.
    bounds_rise();
    let _tailoring = history.tailoring();
    let sent = history.count();
    if have_begun(history, sent, tag) {
        return sent;
    }
    let mut from = 0;
    let mut to = sent;
    while from < to {
        let middle = from + (to - from) / 2;
        if history.low(middle) < tag {
            from = middle + 1;
        } else {
            to = middle;
        }
    }
    from
}

/// The number of the first request in a range that isn't known to have ended at a tag, by binary search; the end of the range where there is none.
pub(crate) fn ended_before(history: &History, from: u64, to: u64, tag: u64) -> u64
    requires order { from ≤ to }
    requires within { to ≤ length history.now.history.requests }
    ensures { result ≤ to }
{
    if from < to && is_at_most(history.high(to - 1), tag) {
        return to;
    }
    let mut first = from;
    let mut end = to;
    while first < end {
        let middle = first + (end - first) / 2;
        if is_at_most(history.high(middle), tag) {
            first = middle + 1;
        } else {
            end = middle;
        }
    }
    first
}
