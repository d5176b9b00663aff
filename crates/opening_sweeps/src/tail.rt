//! Requests that a report may come before: each may be left out.
ghost use Rattle.std.specs.Prelude.{◌≡◌, ◌≤◌, ℕ, List, Option, IfOk, All, length, take, drop};
ghost use Rattle.hk_base.specs.declared.types.Structure.{Structure};
ghost use Rattle.definition_intervals.specs.Founds.{IsFormedFound, AreSameFound, found_after, found_after_all};
ghost use Rattle.definition_intervals.specs.Findings.{IsFormedCandidate};
ghost use Rattle.opening_sweeps.specs.Requests.{IsFormedRequest};
ghost use Rattle.opening_sweeps.specs.Groups.{courses, unsure, IsReached};
ghost use Rattle.opening_sweeps.specs.declared.group.Group as declared;

use crate::bounded::Bounded;
use crate::group::Group;
use crate::settling::as_request;
use definition_intervals::{Candidate, found_after, is_same_found, same_is_found};
use hk_base::{Items, Memory, Structure, Tailoring};
use std::alloc::Global;

/// Takes each group on over the requests before a place.
pub(crate) fn reach(
    alloc: Global,
    tailoring: &Tailoring,
    requests: &[Bounded<'_>],
    to: usize,
    groups: Vec<Group>,
) -> Result<Vec<Group>, Memory>
    requires within { to ≤ length requests.now }
    requires formed { All (IsFormedRequest tailoring.now) requests.now }
    requires found { All (λ (g : declared.Group). IsFormedFound tailoring.now g.found) groups.items }
    requires limited { All (λ (g : declared.Group). g.reached ≤ to) groups.items }
    ensures courses { IfOk result (λ later. courses later.items ≡ courses groups.items) }
    ensures reached { IfOk result (λ later. (settled : ℕ) → All (IsReached tailoring.now requests.now settled to) groups.items
        → All (IsReached tailoring.now requests.now settled to) later.items) }
    ensures ends { IfOk result (λ later. All (λ (g : declared.Group). g.reached ≡ to) later.items) }
{
    let mut later = Vec::new(alloc);
    for group in groups {
        later.push(reach_one(alloc, tailoring, requests, to, group)?)?;
    }
    Ok(later)
}

/// Takes a group on over the requests before a place.
fn reach_one(
    alloc: Global,
    tailoring: &Tailoring,
    requests: &[Bounded<'_>],
    to: usize,
    group: Group,
) -> Result<Group, Memory>
    requires within { to ≤ length requests.now }
    requires formed { All (IsFormedRequest tailoring.now) requests.now }
    requires found { IsFormedFound tailoring.now group.found }
    requires limited { group.reached ≤ to }
    ensures tags { IfOk result (λ later. later.tags ≡ group.tags) }
    ensures base { IfOk result (λ later. later.base ≡ group.base) }
    ensures reached { IfOk result (λ later. later.reached ≡ to) }
    ensures found { IfOk result (λ later. (settled : ℕ) → IsReached tailoring.now requests.now settled to group
        → IsReached tailoring.now requests.now settled to later) }
{
    let Group {
        tags,
        base,
        found,
        reached,
    } = group;
    let found = found_over(alloc, tailoring, requests, reached, to, found)?;
    Ok(Group {
        tags,
        base,
        found,
        reached: to,
    })
}

/// What is found after the requests from one place to another, of which each may be left out.
fn found_over(
    alloc: Global,
    tailoring: &Tailoring,
    requests: &[Bounded<'_>],
    from: usize,
    to: usize,
    found: Option<Items<Option<Structure>>>,
) -> Result<Option<Items<Option<Structure>>>, Memory>
    requires order { from ≤ to }
    requires within { to ≤ length requests.now }
    requires formed { All (IsFormedRequest tailoring.now) requests.now }
    requires found { IsFormedFound tailoring.now found }
    ensures formed { IfOk result (IsFormedFound tailoring.now) }
    ensures found { IfOk result (λ later. (settled : ℕ) (base : Option (List (Option Structure))) → settled ≤ from
        → AreSameFound found (found_after_all tailoring.now (unsure (drop settled (take from requests.now))) base)
        → AreSameFound later (found_after_all tailoring.now (unsure (drop settled (take to requests.now))) base)) }
{
    same_is_found();
    let mut found = found;
    for place in from..to {
        let request = as_request(&requests[place], false);
        found = later_found(alloc, tailoring, &request, found)?;
    }
    Ok(found)
}

/// What is found after one more request. Where it is the same as before, it is kept in its order, so that bases by it are equal too.
fn later_found(
    alloc: Global,
    tailoring: &Tailoring,
    request: &Candidate<'_>,
    found: Option<Items<Option<Structure>>>,
) -> Result<Option<Items<Option<Structure>>>, Memory>
    requires request { IsFormedCandidate tailoring.now request.now }
    requires found { IsFormedFound tailoring.now found }
    ensures same { IfOk result (λ later. AreSameFound later (found_after tailoring.now request.now found)) }
    ensures formed { IfOk result (IsFormedFound tailoring.now) }
{
    let later = found_after(alloc, tailoring, request, &found)?;
    if is_same_found(&found, &later) {
        Ok(found)
    } else {
        Ok(later)
    }
}
