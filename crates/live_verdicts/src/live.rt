//! The verdicts.
ghost use Rattle.std.specs.Prelude.{◌≡◌, ◌≤◌, Bool, List, IfOk, IfSome, length};
ghost use Rattle.hk_base.specs.TailoringParts.{TailoringParts};
ghost use Rattle.ground_history.specs.Histories.{new_history};
ghost use Rattle.ground_history.specs.Ground.{Ground};
ghost use Rattle.definition_intervals.specs.Verdicts as verdicts;
ghost use Rattle.entry_changes.specs.Changes.{AreSameBelow, AreUnsureSame};
ghost use Rattle.live_verdicts.specs.Marks.{AreListedBelow, IsNearAt, IsReachingAt, StandsFor};

use crate::behind::approach;
use crate::counting::{ended_before, listed_below};
use crate::firm::is_untold;
use crate::forgetting::forget;
use crate::held::{Asked, coming_place, hold};
use crate::mark::StructureMark;
use crate::reaching::reach;
use crate::told::told_mark;
use definition_intervals::{
    Verdict, bases_decide, finds_give_bases, openings_are_found, verdict, verdict_on,
};
use ground_history::History;
use hk_base::{Key, Memory};
use std::alloc::Global;
use std::marker::Model;

/// A cache for verdicts while entries come: what was found of structures at some tags.
#[derive(Drop)]
pub struct LiveVerdicts {
    alloc: Global,
    marks: Vec<StructureMark>,
}

impl Model for LiveVerdicts {
    ghost use Rattle.std.specs.Prelude.{List};
    ghost use Rattle.live_verdicts.specs.declared.mark.StructureMark.{StructureMark};

    ghost Value = { List StructureMark };

    ghost view = { λ v. v.marks.items };
}

impl LiveVerdicts {
    /// An empty cache, valid for a session without entries.
    pub fn new(alloc: Global) -> LiveVerdicts
        ensures { (t : TailoringParts) (known long : Bool) → StandsFor result (record { tailoring = t; history = new_history known long }) }
    {
        LiveVerdicts {
            alloc,
            marks: Vec::new(alloc),
        }
    }

    /// Forgets what depends on tags from which on something may have changed, or on requests with new evidence. The rest stays valid.
    pub fn forget_from(&mut self, from: Option<u64>, touched: Option<u64>)
        ensures { (g later : Ground) → StandsFor self.old g → AreSameBelow from g later → AreUnsureSame touched g later → StandsFor self.new later }
    {
        forget(&mut self.marks, from, touched);
    }

    /// The verdict on a report of a structure with this tag and payload. It starts from what was found for other reports.
    pub fn verdict(
        &mut self,
        history: &History,
        key: Key,
        tag: u64,
        payload: &[u8],
    ) -> Result<Verdict, Memory>
        requires limit { length payload.now ≤ 2147483648 }
        requires stands { StandsFor self.old history.now }
        ensures verdict { IfOk result (λ verdict. verdict ≡ verdicts.verdict history.now.tailoring history.now.history key tag payload.now) }
        ensures stands { StandsFor self.new history.now }
    {
        // Laws: they say what is found of openings and what a basis decides, and do nothing.
        openings_are_found();
        finds_give_bases();
        bases_decide();
        let tailoring = history.tailoring();
        let asked = asked_on(history, key, tag);
        let Some(place) = place_for(self.alloc, &mut self.marks, history, asked)? else {
            return verdict(self.alloc, history, key, tag, payload);
        };
        let basis = &self.marks[place].mark.basis;
        verdict_on(self.alloc, tailoring, basis, tag, payload)
    }
}

/// What is asked on reports of a structure with a tag.
fn asked_on(history: &History, key: Key, tag: u64) -> Asked
    ensures same { (result.key ≡ key) × (result.tag ≡ tag) }
    ensures listed { AreListedBelow history.now.history tag result.listed }
    ensures order { result.past ≤ result.listed }
{
    let listed = listed_below(history, tag);
    Asked {
        key,
        tag,
        listed,
        past: ended_before(history, 0, listed, tag),
    }
}

/// The index of a mark whose basis is that of verdicts on the reports; None where there is none to start from.
fn place_for(
    alloc: Global,
    held: &mut Vec<StructureMark>,
    history: &History,
    asked: Asked,
) -> Result<Option<usize>, Memory>
    requires stands { StandsFor held.old.items history.now }
    requires listed { AreListedBelow history.now.history asked.tag asked.listed }
    requires order { asked.past ≤ asked.listed }
    ensures stands { StandsFor held.new.items history.now }
    ensures near { IfOk result (λ found. IfSome found (IsNearAt history.now.history asked held.new.items)) }
{
    let place = match coming_place(held, history, asked) {
        Some(place) => place,
        None => match approach(alloc, held, history, asked)? {
            Some(place) => place,
            None => return Ok(None),
        },
    };
    let place = reach(alloc, held, history, asked, place)?;
    let place = with_told_states(alloc, held, history, asked, place)?;
    Ok(Some(place))
}

/// The index of a mark with all states that were told before the reports, from one that comes to them and reaches the requests.
fn with_told_states(
    alloc: Global,
    held: &mut Vec<StructureMark>,
    history: &History,
    asked: Asked,
    place: usize,
) -> Result<usize, Memory>
    requires stands { StandsFor held.old.items history.now }
    requires reaches { IsReachingAt history.now.history asked held.old.items place }
    ensures stands { StandsFor held.new.items history.now }
    ensures near { IfOk result (IsNearAt history.now.history asked held.new.items) }
{
    let mark = &held[place].mark;
    if is_untold(history, asked.key, mark.tag, asked.tag) {
        return Ok(place);
    }
    let told = told_mark(alloc, history, asked, mark)?;
    hold(held, asked.key, told)
}
