//! Extends a mark over more requests.
ghost use Rattle.std.specs.Prelude.{◌≡◌, ◌≤◌, ◌<◌, true, List, IfOk, All, length};
ghost use Rattle.definition_intervals.specs.Findings.{IsFormedCandidate};
ghost use Rattle.definition_intervals.specs.Founds.{AreSameFound, IsFormedFound, found_after, first_after};
ghost use Rattle.opening_sweeps.specs.Requests.{Start};
ghost use Rattle.live_verdicts.specs.Marks.{IsCalmTo, IsMarkOf, IsFormedMark, IsGrown, Leaves};

use crate::finds::{basis_of_finds, copied_finds, finds_over, first_over};
use crate::leaving::passes;
use crate::mark::Mark;
use crate::unsure::next_unsure;
use definition_intervals::{Candidate, found_after, is_same_found, same_is_found};
use ground_history::History;
use hk_base::{Items, Key, Memory, Structure, Tailoring};
use opening_sweeps::first_after;
use std::alloc::Global;

/// The number up to which requests leave a mark unchanged, from its end on and before another number.
pub(crate) fn calm_until(
    alloc: Global,
    history: &History,
    key: Key,
    mark: &Mark,
    end: u64,
) -> Result<u64, Memory>
    requires order { mark.now.calm ≤ end }
    requires within { end ≤ length history.now.history.requests }
    requires formed { IsFormedMark history.now.tailoring mark.now }
    ensures calm { IfOk result (IsCalmTo history.now key mark.now) }
    ensures within { IfOk result (λ calm. (mark.now.calm ≤ calm) × (calm ≤ end)) }
{
    // A law: it says that the same is found of the same, and does nothing.
    same_is_found();
    let mut left = Vec::new(alloc);
    for number in mark.calm..end {
        if !passes(alloc, history, key, number, mark, &mut left)? {
            return Ok(number);
        }
    }
    Ok(end)
}

/// The mark extended by the request at its end.
pub(crate) fn grown(alloc: Global, history: &History, key: Key, mark: &Mark) -> Result<Mark, Memory>
    requires within { mark.now.calm < length history.now.history.requests }
    requires formed { IsFormedMark history.now.tailoring mark.now }
    ensures grown { IfOk result (IsGrown mark.now) }
    ensures mark { IfOk result (λ grown. (starts : List Start) → IsMarkOf history.now key starts mark.now → IsMarkOf history.now key starts grown) }
{
    // A law: it says that the same is found of the same, and does nothing.
    same_is_found();
    let _sent = history.count();
    let requests = next_unsure(alloc, history, key, mark.calm)?;
    let finds = finds_over(alloc, history.tailoring(), &requests, &mark.finds)?;
    let first = first_over(&requests, mark.first);
    let basis = basis_of_finds(alloc, &finds, first)?;
    let listed = mark.calm + 1;
    Ok(Mark {
        tag: mark.tag,
        opened: mark.opened,
        past: mark.past,
        listed,
        calm: listed,
        finds,
        first,
        open_change: first_over(&requests, mark.open_change),
        origins: copied_finds(alloc, &mark.origins)?,
        basis,
    })
}
