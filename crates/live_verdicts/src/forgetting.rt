//! Which marks stay while entries come.
ghost use Rattle.std.specs.Prelude.{◌≡◌, true, None};
ghost use Rattle.ground_history.specs.Ground.{Ground};
ghost use Rattle.entry_changes.specs.Changes.{AreSameBelow, AreUnsureSame, IsBelow, IsUpTo};
ghost use Rattle.live_verdicts.specs.Marks.{IsKept, StandsFor, narrowed_to};

use crate::mark::{Mark, StructureMark};

/// Drops the marks that depend on tags from which on something may have changed, or on requests with new evidence, and narrows the others to the
/// requests before those.
pub(crate) fn forget(held: &mut Vec<StructureMark>, from: Option<u64>, touched: Option<u64>)
    ensures { (g later : Ground) → StandsFor held.old.items g → AreSameBelow from g later → AreUnsureSame touched g later
        → StandsFor held.new.items later }
{
    if is_nothing(from, touched) {
        return;
    }
    let mut place = 0;
    while place < held.len() {
        if is_kept(&held[place].mark, from, touched) {
            held[place].mark.calm = narrowed(held[place].mark.calm, touched);
            place += 1;
        } else {
            held.remove(place);
        }
    }
}

/// Whether nothing has changed.
fn is_nothing(from: Option<u64>, touched: Option<u64>) -> bool
    ensures { result ≡ true → (from ≡ None) × (touched ≡ None) }
{
    match (from, touched) {
        (None, None) => true,
        _ => false,
    }
}

/// Whether a mark stays.
fn is_kept(mark: &Mark, from: Option<u64>, touched: Option<u64>) -> bool
    ensures { result ≡ true → IsKept mark.now from touched }
{
    is_below(mark.tag, from) && is_up_to(mark.listed, touched)
}

fn is_below(tag: u64, from: Option<u64>) -> bool
    ensures { result ≡ true → IsBelow tag from }
{
    match from {
        Some(from) => tag < from,
        None => true,
    }
}

fn is_up_to(end: u64, touched: Option<u64>) -> bool
    ensures { result ≡ true → IsUpTo end touched }
{
    match touched {
        Some(touched) => end <= touched,
        None => true,
    }
}

/// A number, or that of the first request that was touched, if that is less.
fn narrowed(calm: u64, touched: Option<u64>) -> u64
    ensures { result ≡ narrowed_to calm touched }
{
    match touched {
        Some(touched) => calm.min(touched),
        None => calm,
    }
}
