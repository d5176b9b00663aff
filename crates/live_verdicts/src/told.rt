//! Marks with more states that were told, where no more requests have ended.
ghost use Rattle.std.specs.Prelude.{◌≡◌, ◌≢◌, ◌≤◌, ◌<◌, ◌⊎◌, ◌++◌, ◌∷◌, [], IfOk, All, map, length};
ghost use Rattle.ground_history.specs.Ground.{newest_told};
ghost use Rattle.definition_intervals.specs.Founds.{IsFormedFound};
ghost use Rattle.opening_sweeps.specs.Requests.{IsFormedStart};
ghost use Rattle.live_verdicts.specs.Marks.{AreAlike, AreKnownBehind, ComesTo, Finds, IsMark, IsNear, found_behind};

use crate::between::{Numbers, told_between};
use crate::finds::{add_find, basis_of_finds, begun, copied_finds, found_from, has_same};
use crate::held::Asked;
use crate::later::opened_at;
use crate::mark::Mark;
use crate::unsure::unsures;
use definition_intervals::same_is_found;
use ground_history::History;
use hk_base::{Items, Key, Memory, Structure};
use opening_sweeps::{Start, starts_rise};
use std::alloc::Global;

/// What was found of openings, each find once, and finds of which it is known what requests make.
#[derive(Debug, Drop)]
pub(crate) struct Told {
    pub finds: Vec<Option<Items<Option<Structure>>>>,
    pub origins: Vec<Option<Items<Option<Structure>>>>,
}

/// The mark for reports to which another comes, with the states that were told behind it.
pub(crate) fn told_mark(
    alloc: Global,
    history: &History,
    asked: Asked,
    mark: &Mark,
) -> Result<Mark, Memory>
    requires mark { IsMark history.now asked.key mark.now }
    requires coming { ComesTo history.now.history mark.now asked.listed asked.tag }
    requires reaches { asked.listed ≤ mark.now.calm }
    ensures { IfOk result (λ told. IsMark history.now asked.key told × IsNear history.now.history asked.key told asked.listed asked.tag) }
{
    // Laws: they say that the same is found of the same, and do nothing.
    same_is_found();
    starts_rise();
    let _tailoring = history.tailoring();
    let starts = told_between(alloc, history, asked.key, mark.tag, asked.tag)?;
    let numbers = Numbers {
        first: mark.past,
        end: asked.listed,
    };
    let told = Told {
        finds: copied_finds(alloc, &mark.finds)?,
        origins: copied_finds(alloc, &mark.origins)?,
    };
    let Told { finds, origins } = with_told(alloc, history, asked.key, numbers, &starts, told)?;
    let first = first_of(mark, &starts);
    let basis = basis_of_finds(alloc, &finds, first)?;
    let tag = above_told(history, mark.tag, asked.tag);
    Ok(Mark {
        tag,
        opened: opened_at(history, mark.opened, &starts, tag),
        past: mark.past,
        listed: asked.listed,
        calm: asked.listed,
        finds,
        first,
        open_change: mark.open_change,
        origins,
        basis,
    })
}

/// The least tag, from one on and up to another, above the states that were told.
fn above_told(history: &History, from: u64, tag: u64) -> u64
    requires { from ≤ tag }
    ensures from { from ≤ result }
    ensures to { result ≤ tag }
    ensures untold { (newest_told history.now.history.kept < result) ⊎ (result ≡ tag) }
{
    from.max(history.newest_told().saturating_add(1)).min(tag)
}

/// The first open change of the latest opening, with more that open behind those of a mark.
fn first_of(mark: &Mark, starts: &[Start<'_>]) -> Option<u64>
    ensures none { starts.now ≡ [] → result ≡ mark.now.first }
    ensures some { starts.now ≢ [] → result ≡ mark.now.open_change }
{
    if starts.is_empty() {
        mark.first
    } else {
        mark.open_change
    }
}

/// What is found with more states, of which requests with some numbers haven't ended.
fn with_told(
    alloc: Global,
    history: &History,
    key: Key,
    numbers: Numbers,
    starts: &[Start<'_>],
    told: Told,
) -> Result<Told, Memory>
    requires order { numbers.first ≤ numbers.end }
    requires within { numbers.end ≤ length history.now.history.requests }
    requires formed { All (IsFormedStart history.now.tailoring) starts.now }
    requires known { AreKnownBehind history.now key numbers told }
    ensures alike { IfOk result (λ later. (fs : Finds) → AreAlike fs told.finds.items
        → AreAlike (fs ++ map (found_behind history.now key numbers) starts.now) later.finds.items) }
    ensures formed { IfOk result (λ later. All (IsFormedFound history.now.tailoring) told.finds.items
        → All (IsFormedFound history.now.tailoring) later.finds.items) }
    ensures known { IfOk result (AreKnownBehind history.now key numbers) }
{
    let mut told = told;
    for start in starts {
        told = with_state(alloc, history, key, numbers, start, told)?;
    }
    Ok(told)
}

/// The same with one more.
fn with_state(
    alloc: Global,
    history: &History,
    key: Key,
    numbers: Numbers,
    start: &Start<'_>,
    told: Told,
) -> Result<Told, Memory>
    requires order { numbers.first ≤ numbers.end }
    requires within { numbers.end ≤ length history.now.history.requests }
    requires formed { IsFormedStart history.now.tailoring start.now }
    requires known { AreKnownBehind history.now key numbers told }
    ensures alike { IfOk result (λ later. (fs : Finds) → AreAlike fs told.finds.items
        → AreAlike (fs ++ found_behind history.now key numbers start.now ∷ []) later.finds.items) }
    ensures formed { IfOk result (λ later. All (IsFormedFound history.now.tailoring) told.finds.items
        → All (IsFormedFound history.now.tailoring) later.finds.items) }
    ensures known { IfOk result (AreKnownBehind history.now key numbers) }
{
    // A law: it says that the same is found of the same, and does nothing.
    same_is_found();
    let origin = begun(alloc, start.state)?;
    if has_same(&told.origins, &origin) {
        return Ok(told);
    }
    let tailoring = history.tailoring();
    let requests = unsures(alloc, history, key, numbers)?;
    let found = found_from(alloc, tailoring, start.state, &requests)?;
    let Told {
        mut finds,
        mut origins,
    } = told;
    add_find(found, &mut finds)?;
    origins.push(origin)?;
    Ok(Told { finds, origins })
}
