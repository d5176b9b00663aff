//! From a mark on to a later tag.
ghost use Rattle.std.specs.Prelude.{◌≡◌, ◌≢◌, ◌≤◌, ◌<◌, ◌⊎◌, ◌++◌, ◌∷◌, [], Option, None, IfOk, All, map, length, option_to_list};
ghost use Rattle.hk_base.specs.declared.types.Structure.{Structure};
ghost use Rattle.ground_history.specs.Ground.{IsGrounded, newest_told};
ghost use Rattle.definition_intervals.specs.Founds.{IsFormedFound, first_after_all};
ghost use Rattle.opening_sweeps.specs.Requests.{IsFormedStart};
ghost use Rattle.entry_changes.specs.Changes.{unsures};
ghost use Rattle.live_verdicts.specs.Marks as marks;
ghost use Rattle.live_verdicts.specs.Marks.{AreAlike, Finds, GoesOn, HoldsFor, IsMark, found_by, first_by, first_found};

use crate::between::{Numbers, among, told_between};
use crate::counting::ended_before;
use crate::finds::{add_find, basis_of_finds, finds_over, first_over, found_from};
use crate::mark::Mark;
use crate::unsure::unsures;
use definition_intervals::{copied_state, same_is_found};
use ground_history::History;
use hk_base::{Items, Key, Memory, Structure};
use opening_sweeps::{Start, boot_start, starts_rise};
use std::alloc::Global;

/// What is found of openings, each find once, and the first open change of the latest one.
#[derive(Debug, Drop)]
pub(crate) struct Finding {
    pub finds: Vec<Option<Items<Option<Structure>>>>,
    pub first: Option<u64>,
}

/// The mark for reports with a tag, from one that goes on to it with the requests below the first of the numbers: it holds of those below the last.
pub(crate) fn later_mark(
    alloc: Global,
    history: &History,
    key: Key,
    mark: &Mark,
    numbers: Numbers,
    tag: u64,
) -> Result<Mark, Memory>
    requires mark { IsMark history.now key mark.now }
    requires goes { GoesOn history.now.history mark.now numbers.first tag }
    requires order { numbers.first ≤ numbers.end }
    requires within { numbers.end ≤ length history.now.history.requests }
    ensures past { IfOk result (λ later. later.past ≤ numbers.end) }
    ensures mark { IfOk result (λ later. HoldsFor history.now.history later numbers.end tag → IsMark history.now key later) }
{
    // Laws: they say that the same is found of the same, and do nothing.
    same_is_found();
    starts_rise();
    let tailoring = history.tailoring();
    let tail = among(alloc, history, key, mark.opened, tag, numbers)?;
    let finding = Finding {
        finds: finds_over(alloc, tailoring, &tail, &mark.finds)?,
        first: first_over(&tail, mark.first),
    };
    let starts = told_between(alloc, history, key, mark.tag, tag)?;
    let behind = Numbers {
        first: mark.past,
        end: numbers.end,
    };
    let finding = with_starts(alloc, history, key, tag, behind, &starts, finding)?;
    let basis = basis_of_finds(alloc, &finding.finds, finding.first)?;
    let past = ended_before(history, mark.past, numbers.end, tag);
    let tag = mark_tag(history, mark.tag, past, tag);
    Ok(Mark {
        tag,
        opened: opened_at(history, mark.opened, &starts, tag),
        past,
        listed: numbers.end,
        calm: numbers.end,
        finds: finding.finds,
        first: finding.first,
        open_change: first_open(alloc, history, key, past, numbers.end)?,
        origins: Vec::new(alloc),
        basis,
    })
}

/// The first open change of the requests with numbers from one on and below another that may have changed a structure, none of them known to have ended.
fn first_open(
    alloc: Global,
    history: &History,
    key: Key,
    first: u64,
    end: u64,
) -> Result<Option<u64>, Memory>
    requires order { first ≤ end }
    requires within { end ≤ length history.now.history.requests }
    ensures { IfOk result (λ change. change ≡ first_after_all (unsures history.now.history key first end) None) }
{
    let requests = unsures(alloc, history, key, Numbers { first, end })?;
    Ok(first_over(&requests, None))
}

/// The tag from which on no state opens below another, where these opened behind an earlier one.
pub(crate) fn opened_at(history: &History, opened: u64, starts: &[Start<'_>], tag: u64) -> u64
    ensures none { starts.now ≡ [] → result ≡ opened }
    ensures some { starts.now ≢ [] → (result ≤ tag) × ((newest_told history.now.history.kept < result) ⊎ (result ≡ tag)) }
{
    if starts.is_empty() {
        return opened;
    }
    history.newest_told().saturating_add(1).min(tag)
}

/// The least tag, from one on and up to another, above the states that were told and at which so many requests have ended.
fn mark_tag(history: &History, from: u64, past: u64, tag: u64) -> u64
    requires order { from ≤ tag }
    requires within { past ≤ length history.now.history.requests }
    ensures from { from ≤ result }
    ensures to { result ≤ tag }
    ensures untold { (newest_told history.now.history.kept < result) ⊎ (result ≡ tag) }
{
    let told = history.newest_told().saturating_add(1);
    from.max(told).max(ended_at(history, past)).min(tag)
}

/// A tag at which a number of requests have ended; the greatest where it isn't known.
fn ended_at(history: &History, past: u64) -> u64
    requires { past ≤ length history.now.history.requests }
{
    let Some(last) = past.checked_sub(1) else {
        return 0;
    };
    let begun = history.low(last).saturating_add(1);
    match history.high(last) {
        Some(ended) => ended.max(begun),
        None => u64::MAX,
    }
}

/// What is found with more openings, whose requests have numbers from one on and below another.
fn with_starts(
    alloc: Global,
    history: &History,
    key: Key,
    tag: u64,
    numbers: Numbers,
    starts: &[Start<'_>],
    finding: Finding,
) -> Result<Finding, Memory>
    requires order { numbers.first ≤ numbers.end }
    requires within { numbers.end ≤ length history.now.history.requests }
    requires grounded { IsGrounded history.now }
    requires formed { All (IsFormedStart history.now.tailoring) starts.now }
    ensures alike { IfOk result (λ later. (fs : Finds) → AreAlike fs finding.finds.items
        → AreAlike (fs ++ map (found_by history.now.tailoring history.now.history key tag numbers.first numbers.end) starts.now) later.finds.items) }
    ensures formed { IfOk result (λ later. All (IsFormedFound history.now.tailoring) finding.finds.items
        → All (IsFormedFound history.now.tailoring) later.finds.items) }
    ensures first { IfOk result (λ later. later.first ≡ first_by history.now.history key tag numbers.first numbers.end starts.now finding.first) }
{
    let mut finding = finding;
    for start in starts {
        finding = with_start(alloc, history, key, tag, numbers, start, finding)?;
    }
    Ok(finding)
}

/// What is found with one more opening.
fn with_start(
    alloc: Global,
    history: &History,
    key: Key,
    tag: u64,
    numbers: Numbers,
    start: &Start<'_>,
    finding: Finding,
) -> Result<Finding, Memory>
    requires order { numbers.first ≤ numbers.end }
    requires within { numbers.end ≤ length history.now.history.requests }
    requires grounded { IsGrounded history.now }
    requires formed { IsFormedStart history.now.tailoring start.now }
    ensures alike { IfOk result (λ later. (fs : Finds) → AreAlike fs finding.finds.items
        → AreAlike (fs ++ found_by history.now.tailoring history.now.history key tag numbers.first numbers.end start.now ∷ []) later.finds.items) }
    ensures formed { IfOk result (λ later. All (IsFormedFound history.now.tailoring) finding.finds.items
        → All (IsFormedFound history.now.tailoring) later.finds.items) }
    ensures first { IfOk result (λ later.
        later.first ≡ first_after_all (marks.among history.now.history key start.now.tag tag numbers.first numbers.end) None) }
{
    let tailoring = history.tailoring();
    let requests = among(alloc, history, key, start.tag, tag, numbers)?;
    let found = found_from(alloc, tailoring, start.state, &requests)?;
    let Finding { mut finds, .. } = finding;
    add_find(found, &mut finds)?;
    Ok(Finding {
        finds,
        first: first_over(&requests, None),
    })
}

/// The mark at tag 0, before which nothing but the boot state opens.
pub(crate) fn first_mark(alloc: Global, history: &History, key: Key) -> Result<Mark, Memory>
    ensures { IfOk result (IsMark history.now key) }
{
    let _tailoring = history.tailoring();
    let finds = first_finds(alloc, boot_start(history, key))?;
    let basis = basis_of_finds(alloc, &finds, None)?;
    Ok(Mark {
        tag: 0,
        opened: 0,
        past: 0,
        listed: 0,
        calm: 0,
        finds,
        first: None,
        open_change: None,
        origins: Vec::new(alloc),
        basis,
    })
}

/// What is found of the boot state, if it is known.
fn first_finds(
    alloc: Global,
    boot: Option<Start<'_>>,
) -> Result<Vec<Option<Items<Option<Structure>>>>, Memory>
    ensures finds { IfOk result (λ finds. finds.items ≡ map first_found (option_to_list boot.entry)) }
{
    let mut finds = Vec::new(alloc);
    let Some(start) = boot else {
        return Ok(finds);
    };
    let mut states = Vec::new(alloc);
    states.push(copied_state(alloc, start.state)?)?;
    finds.push(Some(Items::from_vec(states)))?;
    Ok(finds)
}
