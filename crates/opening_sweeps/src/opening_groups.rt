//! Openings are put into groups.
ghost use Rattle.std.specs.Prelude.{◌≡◌, ◌≤◌, ◌<◌, ◌++◌, ◌∷◌, [], ℕ, List, OnOk, IfOk, IfSome, All, length, Some};
ghost use Rattle.std.specs.Option.{option_copied};
ghost use Rattle.std.specs.List.{HoldsAt};
ghost use Rattle.hk_base.specs.TailoringParts.{TailoringParts};
ghost use Rattle.definition_intervals.specs.Founds.{AreSameFound, IsFormedFound};
ghost use Rattle.opening_sweeps.specs.Requests.{Bounded, IsFormedStart};
ghost use Rattle.opening_sweeps.specs.Courses.{course_of};
ghost use Rattle.opening_sweeps.specs.Groups.{courses_at, joined, AddsCourses, IsReached};

use crate::group::Group;
use crate::start::Start;
use definition_intervals::{copied_found, copied_state, is_same_found};
use hk_base::{Items, Memory, Structure};
use std::alloc::Global;

/// Adds an opening before which so many requests are settled.
pub(crate) fn add_start(
    alloc: Global,
    start: &Start<'_>,
    place: usize,
    groups: &mut Vec<Group>,
) -> Result<(), Memory>
    ensures alike { OnOk result (AddsCourses groups.old.items (course_of start.now ∷ []) groups.new.items) }
    ensures reached { OnOk result ((t : TailoringParts) (rs : List Bounded) (limit : ℕ) → place ≤ limit → IsFormedStart t start.now
        → All (IsReached t rs place limit) groups.old.items → All (IsReached t rs place limit) groups.new.items) }
{
    let tags = only_tag(alloc, start.tag)?;
    let states = only_state(alloc, start.state)?;
    add_openings(alloc, tags, Some(states), place, groups)
}

fn only_tag(alloc: Global, tag: u64) -> Result<Vec<u64>, Memory>
    ensures { IfOk result (λ tags. tags.items ≡ tag ∷ []) }
{
    let mut tags = Vec::new(alloc);
    tags.push(tag)?;
    Ok(tags)
}

fn only_state(alloc: Global, state: Option<&Structure>) -> Result<Items<Option<Structure>>, Memory>
    ensures { IfOk result (λ states. states ≡ option_copied state.entry ∷ []) }
{
    let mut states = Vec::new(alloc);
    states.push(copied_state(alloc, state)?)?;
    Ok(Items::from_vec(states))
}

/// Adds openings of which the same was found when so many requests were settled; nothing where there is no opening.
pub(crate) fn add_openings(
    alloc: Global,
    tags: Vec<u64>,
    base: Option<Items<Option<Structure>>>,
    place: usize,
    groups: &mut Vec<Group>,
) -> Result<(), Memory>
    ensures alike { OnOk result (AddsCourses groups.old.items (courses_at base tags.items) groups.new.items) }
    ensures reached { OnOk result ((t : TailoringParts) (rs : List Bounded) (limit : ℕ) → place ≤ limit → IsFormedFound t base
        → All (IsReached t rs place limit) groups.old.items → All (IsReached t rs place limit) groups.new.items) }
{
    if tags.is_empty() {
        return Ok(());
    }
    match place_of(groups, &base) {
        Some(number) => join(groups, number, &tags),
        None => add_group(alloc, tags, base, place, groups),
    }
}

/// The number of the group with this base.
fn place_of(groups: &[Group], base: &Option<Items<Option<Structure>>>) -> Option<usize>
    ensures { IfSome result (λ number. (number < length groups.now) × HoldsAt (λ g. AreSameFound g.base base.now) groups.now number) }
{
    for (number, group) in groups.iter().enumerate() {
        if is_same_found(&group.base, base) {
            return Some(number);
        }
    }
    None
}

/// Adds openings to a group.
fn join(groups: &mut Vec<Group>, number: usize, tags: &[u64]) -> Result<(), Memory>
    requires { number < length groups.old.items }
    ensures { OnOk result (HoldsAt (λ g. groups.new.items ≡ joined groups.old.items number g tags.now) groups.old.items number) }
{
    let Group {
        tags: earlier,
        base,
        found,
        reached,
    } = groups.remove(number);
    let mut all = earlier.into_vec();
    all.extend_from_slice(tags)?;
    groups.push(Group {
        tags: Items::from_vec(all),
        base,
        found,
        reached,
    })?;
    Ok(())
}

/// Adds a group.
fn add_group(
    alloc: Global,
    tags: Vec<u64>,
    base: Option<Items<Option<Structure>>>,
    place: usize,
    groups: &mut Vec<Group>,
) -> Result<(), Memory>
    ensures { OnOk result (groups.new.items ≡ groups.old.items ++ record { tags = tags.items; base = base; found = base; reached = place } ∷ []) }
{
    let found = copied_found(alloc, &base)?;
    groups.push(Group {
        tags: Items::from_vec(tags),
        base,
        found,
        reached: place,
    })?;
    Ok(())
}
