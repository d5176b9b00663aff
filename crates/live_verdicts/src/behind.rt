//! From marks on to reports behind them.
ghost use Rattle.std.specs.Prelude.{◌≡◌, ◌<◌, ◌≤◌, IfOk, IfSome, length};
ghost use Rattle.live_verdicts.specs.Marks.{ComesTo, GoesOn, IsComingAt, IsMark, IsPlaceOf, StandsFor};
ghost use Rattle.live_verdicts.specs.declared.mark.Mark as declared;

use crate::between::Numbers;
use crate::firm::goes_on;
use crate::held::{Asked, hold, is_coming, is_same};
use crate::later::{first_mark, later_mark};
use crate::mark::{Mark, StructureMark};
use ground_history::History;
use hk_base::Memory;
use std::alloc::Global;

/// The index of a mark, and the numbers of the requests by which verdicts go on from it.
#[derive(Clone, Copy, Debug, Drop)]
struct Behind {
    place: usize,
    numbers: Numbers,
}

/// Adds a mark that comes to the reports, and gives its index; None where there is none to start from.
pub(crate) fn approach(
    alloc: Global,
    held: &mut Vec<StructureMark>,
    history: &History,
    asked: Asked,
) -> Result<Option<usize>, Memory>
    requires stands { StandsFor held.old.items history.now }
    requires order { asked.past ≤ asked.listed }
    requires within { asked.listed ≤ length history.now.history.requests }
    ensures stands { StandsFor held.new.items history.now }
    ensures coming { IfOk result (λ found. IfSome found (IsComingAt history.now.history asked held.new.items)) }
{
    let Some(mark) = mark_behind(alloc, held, history, asked)? else {
        return Ok(None);
    };
    if !is_coming(history, &mark, asked) {
        return Ok(None);
    }
    Ok(Some(hold(held, asked.key, mark)?))
}

/// The mark for the reports, from the last one that goes on to them, or from the start.
fn mark_behind(
    alloc: Global,
    held: &[StructureMark],
    history: &History,
    asked: Asked,
) -> Result<Option<Mark>, Memory>
    requires stands { StandsFor held.now history.now }
    requires order { asked.past ≤ asked.listed }
    requires within { asked.listed ≤ length history.now.history.requests }
    ensures { IfOk result (λ found. IfSome found (λ mark. ComesTo history.now.history mark asked.listed asked.tag → IsMark history.now asked.key mark)) }
{
    if let Some(Behind { place, numbers }) = place_behind(held, history, asked) {
        let mark = &held[place].mark;
        let later = later_mark(alloc, history, asked.key, mark, numbers, asked.tag)?;
        return Ok(Some(later));
    }
    mark_from_start(alloc, history, asked)
}

/// The same from the start.
fn mark_from_start(alloc: Global, history: &History, asked: Asked) -> Result<Option<Mark>, Memory>
    requires order { asked.past ≤ asked.listed }
    requires within { asked.listed ≤ length history.now.history.requests }
    ensures { IfOk result (λ found. IfSome found (λ mark. ComesTo history.now.history mark asked.listed asked.tag → IsMark history.now asked.key mark)) }
{
    let first = first_mark(alloc, history, asked.key)?;
    let numbers = numbers_from(&first, asked);
    if !goes_on(history, &first, numbers.first, asked.tag) {
        return Ok(None);
    }
    let later = later_mark(alloc, history, asked.key, &first, numbers, asked.tag)?;
    Ok(Some(later))
}

/// The last mark from which verdicts go on.
fn place_behind(held: &[StructureMark], history: &History, asked: Asked) -> Option<Behind>
    ensures place { IfSome result (λ behind.
        IsPlaceOf (λ (m : declared.Mark). GoesOn history.now.history m behind.numbers.first asked.tag) asked.key held.now behind.place) }
    ensures numbers { IfSome result (λ behind. (behind.numbers.first ≤ behind.numbers.end) × (behind.numbers.end ≡ asked.past)) }
{
    let mut end = held.len();
    while end > 0 {
        end -= 1;
        let last = &held[end];
        let numbers = numbers_from(&last.mark, asked);
        if is_same(last.key, asked.key) && goes_on(history, &last.mark, numbers.first, asked.tag) {
            return Some(Behind {
                place: end,
                numbers,
            });
        }
    }
    None
}

/// The numbers of the requests by which verdicts go on from a mark: to the last that is known to have ended.
fn numbers_from(mark: &Mark, asked: Asked) -> Numbers
    ensures { (result.first ≤ result.end) × (result.end ≡ asked.past) }
{
    Numbers {
        first: mark.calm.min(asked.past),
        end: asked.past,
    }
}
