//! The sweep over tags.
ghost use Rattle.std.specs.Prelude.{◌≡◌, ◌≤◌, ◌<◌, ℕ, List, [], ◌∷◌, IfOk, IfSome, All, length, take, drop, option_to_list, map, if◌then◌else◌};
ghost use Rattle.std.specs.List.{IsDistinct};
ghost use Rattle.std.specs.List.Sorted.{IsStrictlyIncreasing};
ghost use Rattle.hk_base.specs.TailoringParts.{TailoringParts};
ghost use Rattle.definition_intervals.specs.States.{state_eq};
ghost use Rattle.definition_intervals.specs.Bases.{AreBases, IsFormedBasis};
ghost use Rattle.definition_intervals.specs.Founds.{IsBasisOf};
ghost use Rattle.opening_sweeps.specs.Requests as known;
ghost use Rattle.opening_sweeps.specs.Requests.{AreRising, HaveRisingStarts, IsFormedRequest, IsFormedStart};
ghost use Rattle.opening_sweeps.specs.Courses.{AreAlike, course_of};
ghost use Rattle.opening_sweeps.specs.Groups.{courses, finds, AddsCourses, HaveFormedFinds, IsReached};
ghost use Rattle.opening_sweeps.specs.Sweeps.{IsSwept, last_tag, named_in};
ghost use Rattle.opening_sweeps.specs.declared.group.Group as declared;

use crate::bounded::Bounded;
use crate::cursors::{listed_below, settled_before, told_below};
use crate::gathering::{boot_start, bounded_requests, requests_rise, starts_rise, told_starts};
use crate::group::Group;
use crate::naming::{first_settled, named_request};
use crate::narrowing::common_states;
use crate::opening_groups::add_start;
use crate::settling::settle;
use crate::start::Start;
use crate::tail::reach;
use definition_intervals::{Bases, Basis, finds_give_bases, openings_are_found, same_is_found};
use ground_history::History;
use hk_base::{Key, Memory, Tailoring};
use std::alloc::Global;

/// What is held of the openings of a structure at a tag.
#[derive(Debug, Drop)]
pub(crate) struct Sweep {
    pub tag: u64,
    pub groups: Vec<Group>,
    /// How many of the states that were told have a lower tag.
    pub opened: usize,
    /// How many requests have ended by this tag.
    pub settled: usize,
    /// How many requests have a lower bound below the tag.
    pub listed: usize,
    /// The tag of the latest opening.
    pub latest: u64,
    /// The first open change of the latest opening among the requests that are settled.
    pub first: Option<u64>,
}

/// The basis of verdicts on the reports of a structure, at each of some rising tags.
pub fn bases(alloc: Global, history: &History, key: Key, firsts: &[u64]) -> Result<Bases, Memory>
    requires rising { IsStrictlyIncreasing firsts.now }
    ensures bases { IfOk result (AreBases history.now.tailoring history.now.history key firsts.now) }
    ensures formed { IfOk result (All (IsFormedBasis history.now.tailoring)) }
{
    openings_are_found();
    finds_give_bases();
    same_is_found();
    requests_rise();
    starts_rise();
    let tailoring = history.tailoring();
    let requests = bounded_requests(alloc, history, key)?;
    let starts = told_starts(alloc, history, key)?;
    let mut sweep = begun(alloc, boot_start(history, key))?;
    let mut bases = Bases::new(alloc);
    for tag in firsts {
        sweep = swept(alloc, tailoring, &requests, &starts, *tag, sweep)?;
        bases.push(basis(alloc, &requests, &sweep)?)?;
    }
    Ok(bases)
}

/// A sweep at tag 0, before which nothing but the boot state opens.
fn begun(alloc: Global, boot: Option<Start<'_>>) -> Result<Sweep, Memory>
    ensures swept { IfOk result (λ sweep. (t : TailoringParts) (rs : List known.Bounded) (told : List known.Start) → IfSome boot.entry (IsFormedStart t)
        → IsSwept t rs (option_to_list boot.entry) told sweep) }
    ensures tag { IfOk result (λ sweep. sweep.tag ≡ 0) }
{
    let latest = first_tag(&boot);
    Ok(Sweep {
        tag: 0,
        groups: first_groups(alloc, boot)?,
        opened: 0,
        settled: 0,
        listed: 0,
        latest,
        first: None,
    })
}

fn first_tag(boot: &Option<Start<'_>>) -> u64
    ensures { result ≡ last_tag 0 (option_to_list boot.now) }
{
    match boot {
        Some(start) => start.tag,
        None => 0,
    }
}

fn first_groups(alloc: Global, boot: Option<Start<'_>>) -> Result<Vec<Group>, Memory>
    ensures alike { IfOk result (λ groups. (rest : List known.Bounded) → AreAlike rest (map course_of (option_to_list boot.entry)) (courses groups.items)) }
    ensures reached { IfOk result (λ groups. (t : TailoringParts) (rs : List known.Bounded) → IfSome boot.entry (IsFormedStart t)
        → All (IsReached t rs 0 0) groups.items) }
{
    let mut groups = Vec::new(alloc);
    let Some(start) = boot else {
        return Ok(groups);
    };
    add_start(alloc, &start, 0, &mut groups)?;
    Ok(groups)
}

/// The sweep at a tag that isn't lower.
fn swept(
    alloc: Global,
    tailoring: &Tailoring,
    requests: &[Bounded<'_>],
    starts: &[Start<'_>],
    tag: u64,
    sweep: Sweep,
) -> Result<Sweep, Memory>
    requires opened { sweep.opened ≤ length starts.now }
    requires order { sweep.settled ≤ sweep.listed }
    requires listed { sweep.listed ≤ length requests.now }
    requires reached { All (IsReached tailoring.now requests.now sweep.settled sweep.listed) sweep.groups.items }
    requires formed { All (IsFormedRequest tailoring.now) requests.now }
    requires rising { AreRising requests.now }
    requires starts { All (IsFormedStart tailoring.now) starts.now }
    ensures swept { IfOk result (λ later. (boot : List known.Start) → sweep.tag ≤ tag → HaveRisingStarts starts.now
        → IsSwept tailoring.now requests.now boot starts.now sweep → IsSwept tailoring.now requests.now boot starts.now later) }
    ensures tag { IfOk result (λ later. later.tag ≡ tag) }
{
    let opened = told_below(starts, sweep.opened, tag);
    let listed = listed_below(requests, sweep.listed, tag);
    let settled = settled_before(requests, sweep.settled, listed, tag);
    let latest = latest_of(starts, sweep.opened, opened, sweep.latest);
    let first = first_of(sweep.first, sweep.opened < opened);
    let first = first_settled(requests, sweep.settled, settled, latest, first);
    let groups = open(
        alloc,
        starts,
        sweep.opened,
        opened,
        sweep.settled,
        sweep.groups,
    )?;
    let groups = settle(alloc, tailoring, requests, sweep.settled, settled, groups)?;
    let groups = reach(alloc, tailoring, requests, listed, groups)?;
    Ok(Sweep {
        tag,
        groups,
        opened,
        settled,
        listed,
        latest,
        first,
    })
}

/// The tag of the last of the states from one place to another; that of the latest before them where there is none.
fn latest_of(starts: &[Start<'_>], from: usize, to: usize, latest: u64) -> u64
    requires order { from ≤ to }
    requires within { to ≤ length starts.now }
    ensures { result ≡ last_tag latest (drop from (take to starts.now)) }
{
    let mut latest = latest;
    for place in from..to {
        let start = &starts[place];
        latest = start.tag;
    }
    latest
}

/// The first open change so far, if the latest opening is still the same.
fn first_of(first: Option<u64>, changed: bool) -> Option<u64>
    ensures { result ≡ (if changed then None else first) }
{
    if changed { None } else { first }
}

/// Adds the openings of the states from one place to another, before which so many requests are settled.
fn open(
    alloc: Global,
    starts: &[Start<'_>],
    from: usize,
    to: usize,
    settled: usize,
    groups: Vec<Group>,
) -> Result<Vec<Group>, Memory>
    requires order { from ≤ to }
    requires within { to ≤ length starts.now }
    ensures alike { IfOk result (λ later. AddsCourses groups.items (map course_of (drop from (take to starts.now))) later.items) }
    ensures reached { IfOk result (λ later. (t : TailoringParts) (rs : List known.Bounded) (limit : ℕ) → settled ≤ limit → All (IsFormedStart t) starts.now
        → All (IsReached t rs settled limit) groups.items → All (IsReached t rs settled limit) later.items) }
{
    let mut groups = groups;
    for place in from..to {
        add_start(alloc, &starts[place], settled, &mut groups)?;
    }
    Ok(groups)
}

/// The basis of verdicts at the tag of a sweep.
fn basis(alloc: Global, requests: &[Bounded<'_>], sweep: &Sweep) -> Result<Basis, Memory>
    requires order { sweep.now.settled ≤ sweep.now.listed }
    requires within { sweep.now.listed ≤ length requests.now }
    requires once { All (λ (g : declared.Group). IfSome g.found (IsDistinct state_eq)) sweep.now.groups.items }
    ensures basis { IfOk result (IsBasisOf (finds sweep.now.groups.items) (named_in requests.now sweep.now)) }
    ensures formed { IfOk result (λ basis. (t : TailoringParts) → HaveFormedFinds t sweep.now.groups.items → IsFormedBasis t basis) }
{
    if sweep.groups.is_empty() {
        return Ok(Basis::NoOpening);
    }
    let number = named_request(requests, sweep.settled, sweep.listed, sweep.first);
    match common_states(alloc, &sweep.groups)? {
        Some(states) => Ok(Basis::Open(states, number)),
        None => Ok(Basis::Crowded(number)),
    }
}
