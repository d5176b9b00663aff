//! Marks that reach the requests that may have been executed below a tag.
ghost use Rattle.std.specs.Prelude.{◌<◌, ◌≤◌, IfOk, length};
ghost use Rattle.live_verdicts.specs.Marks.{IsComingAt, IsReachingAt, StandsFor, calm_at};

use crate::growing::{calm_until, grown};
use crate::held::{Asked, hold};
use crate::mark::StructureMark;
use ground_history::History;
use hk_base::Memory;
use std::alloc::Global;

/// The index of a mark that comes to the reports and reaches the requests that may have been executed, from one that comes to them.
pub(crate) fn reach(
    alloc: Global,
    held: &mut Vec<StructureMark>,
    history: &History,
    asked: Asked,
    place: usize,
) -> Result<usize, Memory>
    requires stands { StandsFor held.old.items history.now }
    requires within { asked.listed ≤ length history.now.history.requests }
    requires coming { IsComingAt history.now.history asked held.old.items place }
    ensures stands { StandsFor held.new.items history.now }
    ensures reaches { IfOk result (IsReachingAt history.now.history asked held.new.items) }
{
    let mut place = place;
    while held[place].mark.calm < asked.listed {
        place = step(alloc, held, history, asked, place)?;
    }
    Ok(place)
}

/// One step: past all requests that leave the mark unchanged, or past one that doesn't.
fn step(
    alloc: Global,
    held: &mut Vec<StructureMark>,
    history: &History,
    asked: Asked,
    place: usize,
) -> Result<usize, Memory>
    requires stands { StandsFor held.old.items history.now }
    requires within { asked.listed ≤ length history.now.history.requests }
    requires coming { IsComingAt history.now.history asked held.old.items place }
    requires short { calm_at held.old.items place < asked.listed }
    ensures stands { StandsFor held.new.items history.now }
    ensures coming { IfOk result (IsComingAt history.now.history asked held.new.items) }
    ensures more { IfOk result (λ next. calm_at held.old.items place < calm_at held.new.items next) }
{
    let mark = &held[place].mark;
    let calm = calm_until(alloc, history, asked.key, mark, asked.listed)?;
    if calm > mark.calm {
        held[place].mark.calm = calm;
        return Ok(place);
    }
    let grown = grown(alloc, history, asked.key, mark)?;
    hold(held, asked.key, grown)
}
