//! Whether verdicts on reports with a tag can start from a mark.
ghost use Rattle.std.specs.Prelude.{◌≡◌, ◌<◌, ◌≤◌, true, length};
ghost use Rattle.definition_intervals.specs.Openings as openings;
ghost use Rattle.entry_changes.specs.Changes.{told_below};
ghost use Rattle.live_verdicts.specs.Marks.{ArePending, AreLate, ComesTo, GoesOn, HaveBegun, HavePassed, HoldsFor};

use crate::mark::Mark;
use ground_history::{History, bounds_rise};
use hk_base::Key;

/// Whether a mark comes to reports with a tag, where the requests below a number may have been executed.
pub(crate) fn comes_to(history: &History, mark: &Mark, listed: u64, tag: u64) -> bool
    ensures { result ≡ true → ComesTo history.now.history mark.now listed tag }
{
    mark.listed <= listed && holds_for(history, mark, listed, tag)
}

/// Whether verdicts on reports with a tag can start from a mark, with the requests below a number.
pub(crate) fn goes_on(history: &History, mark: &Mark, listed: u64, tag: u64) -> bool
    ensures { result ≡ true → GoesOn history.now.history mark.now listed tag }
{
    mark.listed <= listed
        && listed <= mark.calm
        && holds_for(history, mark, listed, tag)
        && are_pending(history, listed, mark.opened)
        && are_late(history, listed, mark.opened)
}

/// Whether a mark is valid for reports with a tag, over the requests below a number.
fn holds_for(history: &History, mark: &Mark, listed: u64, tag: u64) -> bool
    ensures { result ≡ true → HoldsFor history.now.history mark.now listed tag }
{
    mark.tag <= tag
        && mark.past <= listed
        && listed <= history.count()
        && have_passed(history, mark.past, mark.tag)
        && (mark.past == listed || are_pending(history, mark.past, tag))
        && have_begun(history, listed, tag)
}

/// Whether no state of the structure was told from a tag on and below another.
pub(crate) fn is_untold(history: &History, key: Key, from: u64, tag: u64) -> bool
    ensures { result ≡ true → from ≤ tag → told_below history.now.history key tag ≡ told_below history.now.history key from }
{
    let _tailoring = history.tailoring();
    from == tag || history.newest_told() < from
}

/// Whether the requests before a number are known to have ended at a tag, and may have been executed below it.
fn have_passed(history: &History, past: u64, tag: u64) -> bool
    requires { past ≤ length history.now.history.requests }
    ensures { result ≡ true → HavePassed history.now.history past tag }
{
    // A law: it says that bounds rise, and does nothing.
    bounds_rise();
    let _tailoring = history.tailoring();
    past == 0 || (is_at_most(history.high(past - 1), tag) && history.low(past - 1) < tag)
}

/// Whether the requests before a number may have been executed below a tag.
pub(crate) fn have_begun(history: &History, end: u64, tag: u64) -> bool
    requires { end ≤ length history.now.history.requests }
    ensures { result ≡ true → HaveBegun history.now.history end tag }
{
    // A law: it says that bounds rise, and does nothing.
    bounds_rise();
    let _tailoring = history.tailoring();
    end == 0 || history.low(end - 1) < tag
}

/// Whether the requests from a number on aren't known to have ended at a tag.
fn are_pending(history: &History, first: u64, tag: u64) -> bool
    ensures { result ≡ true → ArePending history.now.history first tag }
{
    // A law: it says that bounds rise, and does nothing.
    bounds_rise();
    let _tailoring = history.tailoring();
    first >= history.count() || !is_at_most(history.high(first), tag)
}

/// Whether no request from a number on may have been executed below a tag.
fn are_late(history: &History, first: u64, tag: u64) -> bool
    ensures { result ≡ true → AreLate history.now.history first tag }
{
    // A law: it says that bounds rise, and does nothing.
    bounds_rise();
    let _tailoring = history.tailoring();
    first >= history.count() || tag <= history.low(first)
}

/// Whether a tag is known and no greater than another.
pub(crate) fn is_at_most(known: Option<u64>, tag: u64) -> bool
    ensures { result ≡ openings.is_at_most known tag }
{
    match known {
        Some(known) => known <= tag,
        None => false,
    }
}
