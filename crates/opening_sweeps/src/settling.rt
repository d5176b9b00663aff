//! Requests are settled: for all further reports they came before them.
ghost use Rattle.std.specs.Prelude.{◌≡◌, ◌≤◌, ◌<◌, ◌+◌, ◌++◌, [], ◌∷◌, ℕ, List, OnOk, IfOk, All, length, map, filter, find, take, drop, option_to_list, Some};
ghost use Rattle.std.specs.Option.{option_copied};
ghost use Rattle.st03_grammar.specs.Instructions.{change_of};
ghost use Rattle.hk_base.specs.TailoringParts.{TailoringParts};
ghost use Rattle.definition_intervals.specs.Findings.{IsFormedCandidate};
ghost use Rattle.definition_intervals.specs.Founds.{IsFormedFound};
ghost use Rattle.opening_sweeps.specs.Requests as requests;
ghost use Rattle.opening_sweeps.specs.Requests.{Bounded, IsFormedRequest, AreRising};
ghost use Rattle.opening_sweeps.specs.Courses.{Course, AreAlike, course_after, course_after_all, found_by_one};
ghost use Rattle.opening_sweeps.specs.Groups.{courses, courses_of, courses_at, is_past, is_sure, is_unsure, AddsCourses, IsReached, StayReached};
ghost use Rattle.opening_sweeps.specs.declared.group.Group as declared;

use crate::bounded::Bounded;
use crate::cursors::is_at_most;
use crate::group::Group;
use crate::opening_groups::add_openings;
use definition_intervals::{Candidate, copied_found, found_after, same_is_found};
use hk_base::{Items, Memory, Structure, Tailoring};
use st03_grammar::Change;
use std::alloc::Global;

/// Settles the requests from one place on to another.
pub(crate) fn settle(
    alloc: Global,
    tailoring: &Tailoring,
    requests: &[Bounded<'_>],
    from: usize,
    to: usize,
    groups: Vec<Group>,
) -> Result<Vec<Group>, Memory>
    requires order { from ≤ to }
    requires within { to ≤ length requests.now }
    requires rising { AreRising requests.now }
    requires formed { All (IsFormedRequest tailoring.now) requests.now }
    requires bases { All (λ (g : declared.Group). IsFormedFound tailoring.now g.base) groups.items }
    ensures alike { IfOk result (λ later. (ks : List Course)
        → AreAlike (drop from requests.now) (map (course_after_all tailoring.now (take from requests.now)) ks) (courses groups.items)
        → AreAlike (drop to requests.now) (map (course_after_all tailoring.now (take to requests.now)) ks) (courses later.items)) }
    ensures reached { IfOk result (λ later. (limit : ℕ) → to ≤ limit → All (IsReached tailoring.now requests.now from limit) groups.items
        → All (IsReached tailoring.now requests.now to limit) later.items) }
{
    same_is_found();
    let mut groups = groups;
    for place in from..to {
        groups = settle_one(alloc, tailoring, &requests[place], place + 1, &groups)?;
    }
    Ok(groups)
}

/// Settles one more request; so many are settled then.
fn settle_one(
    alloc: Global,
    tailoring: &Tailoring,
    request: &Bounded<'_>,
    place: usize,
    groups: &[Group],
) -> Result<Vec<Group>, Memory>
    requires formed { IsFormedRequest tailoring.now request.now }
    requires bases { All (λ (g : declared.Group). IsFormedFound tailoring.now g.base) groups.now }
    ensures alike { IfOk result (λ later. (rest : List Bounded) → AreRising (request.now ∷ rest)
        → AreAlike rest (map (course_after tailoring.now request.now) (courses groups.now)) (courses later.items)) }
    ensures reached { IfOk result (λ later. (rs : List Bounded) → All (IsReached tailoring.now rs place place) later.items) }
{
    let mut later = Vec::new(alloc);
    for group in groups {
        settle_group(alloc, tailoring, request, place, group, &mut later)?;
    }
    Ok(later)
}

/// Settles a request for the openings of a group: those above it, those below it, and those that may be either.
fn settle_group(
    alloc: Global,
    tailoring: &Tailoring,
    request: &Bounded<'_>,
    place: usize,
    group: &Group,
    groups: &mut Vec<Group>,
) -> Result<(), Memory>
    requires request { IsFormedRequest tailoring.now request.now }
    requires base { IsFormedFound tailoring.now group.now.base }
    ensures alike { OnOk result ((rest : List Bounded) → AreRising (request.now ∷ rest)
        → AreAlike rest (courses groups.old.items ++ map (course_after tailoring.now request.now) (courses_of group.now)) (courses groups.new.items)) }
    ensures reached { OnOk result (StayReached tailoring.now place place groups.old.items groups.new.items) }
{
    let tags = group.tags.as_slice();
    let past = past_tags(alloc, request, tags)?;
    add_past(alloc, past, &group.base, place, groups)?;
    let unsure = unsure_tags(alloc, request, tags)?;
    add_settled(
        alloc,
        tailoring,
        &as_request(request, false),
        unsure,
        &group.base,
        place,
        groups,
    )?;
    let sure = sure_tags(alloc, request, tags)?;
    let certain = as_request(request, request.accepted);
    add_settled(alloc, tailoring, &certain, sure, &group.base, place, groups)
}

/// Adds openings to which a request isn't one of theirs.
fn add_past(
    alloc: Global,
    tags: Vec<u64>,
    base: &Option<Items<Option<Structure>>>,
    place: usize,
    groups: &mut Vec<Group>,
) -> Result<(), Memory>
    ensures alike { OnOk result (AddsCourses groups.old.items (courses_at base.now tags.items) groups.new.items) }
    ensures reached { OnOk result ((t : TailoringParts) (rs : List Bounded) → IsFormedFound t base.now
        → All (IsReached t rs place place) groups.old.items → All (IsReached t rs place place) groups.new.items) }
{
    if tags.is_empty() {
        return Ok(());
    }
    add_openings(alloc, tags, copied_found(alloc, base)?, place, groups)
}

/// Adds openings with one more request.
fn add_settled(
    alloc: Global,
    tailoring: &Tailoring,
    request: &Candidate<'_>,
    tags: Vec<u64>,
    base: &Option<Items<Option<Structure>>>,
    place: usize,
    groups: &mut Vec<Group>,
) -> Result<(), Memory>
    requires request { IsFormedCandidate tailoring.now request.now }
    requires base { IsFormedFound tailoring.now base.now }
    ensures alike { OnOk result (AddsCourses groups.old.items (courses_at (found_by_one tailoring.now (Some request.now) base.now) tags.items)
        groups.new.items) }
    ensures reached { OnOk result (StayReached tailoring.now place place groups.old.items groups.new.items) }
{
    if tags.is_empty() {
        return Ok(());
    }
    let after = found_after(alloc, tailoring, request, base)?;
    add_openings(alloc, tags, after, place, groups)
}

/// The tags at or above a request.
fn past_tags(alloc: Global, request: &Bounded<'_>, tags: &[u64]) -> Result<Vec<u64>, Memory>
    ensures { IfOk result (λ past. past.items ≡ filter (is_past request.now) tags.now) }
{
    let mut past = Vec::new(alloc);
    for tag in tags {
        if is_at_most(request.high, *tag) {
            past.push(*tag)?;
        }
    }
    Ok(past)
}

/// The tags that may be above a request, and may be below it.
fn unsure_tags(alloc: Global, request: &Bounded<'_>, tags: &[u64]) -> Result<Vec<u64>, Memory>
    ensures { IfOk result (λ unsure. unsure.items ≡ filter (is_unsure request.now) tags.now) }
{
    let mut unsure = Vec::new(alloc);
    for tag in tags {
        if !is_at_most(request.high, *tag) && *tag > request.low {
            unsure.push(*tag)?;
        }
    }
    Ok(unsure)
}

/// One of the tags that are surely below a request: it stands for all of them.
fn sure_tags(alloc: Global, request: &Bounded<'_>, tags: &[u64]) -> Result<Vec<u64>, Memory>
    ensures { IfOk result (λ sure. sure.items ≡ option_to_list (find (is_sure request.now) tags.now)) }
{
    let mut sure = Vec::new(alloc);
    for tag in tags {
        if !is_at_most(request.high, *tag) && *tag <= request.low {
            sure.push(*tag)?;
            return Ok(sure);
        }
    }
    Ok(sure)
}

/// A request that is taken, or may be left out.
pub(crate) fn as_request<'a>(request: &Bounded<'a>, certain: bool) -> Candidate<'a>
    ensures { result ≡ requests.as_request certain request.now }
{
    Candidate {
        number: request.number,
        change: lent(&request.change),
        certain,
        outcome: request.outcome,
    }
}

/// The same change, lent again.
fn lent<'a>(change: &Change<'a>) -> Change<'a>
    ensures { change_of result ≡ change_of change.now }
{
    match change {
        Change::Create(def) => Change::Create(def),
        Change::Append(added) => Change::Append(added),
        Change::Interval(interval) => Change::Interval(*interval),
        Change::Plain(each) => Change::Plain(*each),
    }
}
