//! Whether requests leave a mark unchanged.
ghost use Rattle.std.specs.Prelude.{◌≡◌, ◌<◌, ◌+◌, true, IfOk, All, length};
ghost use Rattle.st03_grammar.specs.Instructions.{change_of};
ghost use Rattle.definition_intervals.specs.Findings.{IsFormedCandidate};
ghost use Rattle.definition_intervals.specs.Founds.{AreSameFound, IsFormedFound, found_after, first_after};
ghost use Rattle.entry_changes.specs.Changes.{unsures};
ghost use Rattle.live_verdicts.specs.Marks.{HasAlike, IsAlike, IsFormedMark, Leaves, LeavesFinds};

use crate::mark::Mark;
use crate::unsure::unsure;
use definition_intervals::{Candidate, changes_are_formed, found_after, is_same_found};
use ground_history::History;
use hk_base::{Items, Key, Memory, Structure, Tailoring};
use opening_sweeps::first_after;
use st03_grammar::Change;
use std::alloc::Global;

/// Whether the request with this number leaves a mark unchanged. Those that leave its finds are told to later calls.
pub(crate) fn passes<'a>(
    alloc: Global,
    history: &'a History,
    key: Key,
    number: u64,
    mark: &Mark,
    left: &mut Vec<Candidate<'a>>,
) -> Result<bool, Memory>
    requires sent { number < length history.now.history.requests }
    requires formed { IsFormedMark history.now.tailoring mark.now }
    requires left { All (λ c. LeavesFinds history.now.tailoring c mark.now) left.old.items }
    ensures passes { IfOk result (λ yes. yes ≡ true → All (λ c. Leaves history.now.tailoring c mark.now) (unsures history.now.history key number (number + 1))) }
    ensures left { All (λ c. LeavesFinds history.now.tailoring c mark.now) left.new.items }
{
    // A law: it says that changes are of the grammar, and does nothing.
    changes_are_formed();
    let tailoring = history.tailoring();
    match unsure(history, key, number) {
        Some(request) => leaves(alloc, tailoring, mark, request, left),
        None => Ok(true),
    }
}

/// Whether a request leaves a mark unchanged.
fn leaves<'a>(
    alloc: Global,
    tailoring: &Tailoring,
    mark: &Mark,
    request: Candidate<'a>,
    left: &mut Vec<Candidate<'a>>,
) -> Result<bool, Memory>
    requires request { IsFormedCandidate tailoring.now request }
    requires finds { All (IsFormedFound tailoring.now) mark.now.finds.items }
    requires left { All (λ c. LeavesFinds tailoring.now c mark.now) left.old.items }
    ensures leaves { IfOk result (λ yes. yes ≡ true → Leaves tailoring.now request.entry mark.now) }
    ensures left { All (λ c. LeavesFinds tailoring.now c mark.now) left.new.items }
{
    if !leaves_change(&request, mark.first) || !leaves_change(&request, mark.open_change) {
        return Ok(false);
    }
    if has_alike(left, &request) {
        return Ok(true);
    }
    if !leaves_finds(alloc, tailoring, &mark.finds, &request)? {
        return Ok(false);
    }
    left.push(request)?;
    Ok(true)
}

/// Whether the first open change after a request is the one before it.
fn leaves_change(request: &Candidate<'_>, first: Option<u64>) -> bool
    ensures { result ≡ true → first_after request.now first ≡ first }
{
    first_after(request, first) == first
}

/// Whether some request has the same change, of which the same is known.
fn has_alike(requests: &[Candidate<'_>], request: &Candidate<'_>) -> bool
    ensures { result ≡ true → HasAlike requests.now request.now }
{
    for other in requests {
        if is_alike(other, request) {
            return true;
        }
    }
    false
}

/// Whether two requests have the same change, of which the same is known. False may be said of equal creations and additions.
fn is_alike(a: &Candidate<'_>, b: &Candidate<'_>) -> bool
    ensures { result ≡ true → IsAlike a.now b.now }
{
    a.certain == b.certain && a.outcome == b.outcome && is_same_change(&a.change, &b.change)
}

fn is_same_change(a: &Change<'_>, b: &Change<'_>) -> bool
    ensures { result ≡ true → change_of a.now ≡ change_of b.now }
{
    match (a, b) {
        (Change::Interval(a), Change::Interval(b)) => a == b,
        (Change::Plain(a), Change::Plain(b)) => a == b,
        _ => false,
    }
}

/// Whether the same is found after a request as before it.
fn leaves_finds(
    alloc: Global,
    tailoring: &Tailoring,
    finds: &[Option<Items<Option<Structure>>>],
    request: &Candidate<'_>,
) -> Result<bool, Memory>
    requires request { IsFormedCandidate tailoring.now request.now }
    requires finds { All (IsFormedFound tailoring.now) finds.now }
    ensures { IfOk result (λ same. same ≡ true → All (λ f. AreSameFound f (found_after tailoring.now request.now f)) finds.now) }
{
    for found in finds {
        let after = found_after(alloc, tailoring, request, found)?;
        if !is_same_found(found, &after) {
            return Ok(false);
        }
    }
    Ok(true)
}
