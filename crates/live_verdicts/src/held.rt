//! The marks in the cache.
ghost use Rattle.std.specs.Prelude.{◌≡◌, ◌<◌, true, IfOk, IfSome, length};
ghost use Rattle.hk_base.specs.Parameters.{key_eq};
ghost use Rattle.ground_history.specs.Ground.{Ground};
ghost use Rattle.live_verdicts.specs.Marks.{ComesTo, IsComingAt, IsMark, IsPlaceOf, StandsFor};
ghost use Rattle.live_verdicts.specs.declared.mark.Mark as declared;

use crate::firm::comes_to;
use crate::mark::{Mark, StructureMark};
use ground_history::History;
use hk_base::{Key, Memory};

/// The most marks in the cache.
const MOST_MARKS: usize = 512;

/// The most marks of one structure.
const MOST_OF_ONE: usize = 64;

/// What a verdict is asked on: reports of a structure with a tag.
#[derive(Clone, Copy, Debug, Drop)]
pub(crate) struct Asked {
    pub key: Key,
    pub tag: u64,
    /// So many requests may have been executed below the tag.
    pub listed: u64,
    /// So many of them are known to have ended at the tag.
    pub past: u64,
}

/// The index of the last mark that comes to the reports.
pub(crate) fn coming_place(held: &[StructureMark], history: &History, asked: Asked) -> Option<usize>
    ensures { IfSome result (IsComingAt history.now.history asked held.now) }
{
    let mut end = held.len();
    while end > 0 {
        end -= 1;
        let last = &held[end];
        if is_same(last.key, asked.key) && is_coming(history, &last.mark, asked) {
            return Some(end);
        }
    }
    None
}

/// Whether a mark comes to the reports.
pub(crate) fn is_coming(history: &History, mark: &Mark, asked: Asked) -> bool
    ensures { result ≡ true → ComesTo history.now.history mark.now asked.listed asked.tag }
{
    mark.past == asked.past && comes_to(history, mark, asked.listed, asked.tag)
}

/// Adds a mark, and gives its index. Where there are too many, older ones are dropped.
pub(crate) fn hold(held: &mut Vec<StructureMark>, key: Key, mark: Mark) -> Result<usize, Memory>
    ensures stands { (g : Ground) → StandsFor held.old.items g → IsMark g key mark → StandsFor held.new.items g }
    ensures place { IfOk result (IsPlaceOf (λ (m : declared.Mark). m ≡ mark) key held.new.items) }
{
    give_up_older(held)?;
    give_up_first_of(held, key);
    let place = held.len();
    held.push(StructureMark { key, mark })?;
    Ok(place)
}

/// Drops the older half of the marks, where the cache is full.
fn give_up_older(held: &mut Vec<StructureMark>) -> Result<(), Memory>
    ensures { (g : Ground) → StandsFor held.old.items g → StandsFor held.new.items g }
{
    if held.len() < MOST_MARKS {
        return Ok(());
    }
    let recent = held.split_off(MOST_MARKS / 2)?;
    *held = recent;
    Ok(())
}

/// Drops the first mark of a structure, where it has the most marks.
fn give_up_first_of(held: &mut Vec<StructureMark>, key: Key)
    ensures { (g : Ground) → StandsFor held.old.items g → StandsFor held.new.items g }
{
    if let Some(first) = first_of_many(held, key) {
        held.remove(first);
    }
}

/// The index of the first mark of a structure, where it has the most marks.
fn first_of_many(held: &[StructureMark], key: Key) -> Option<usize>
    ensures { IfSome result (λ place. place < length held.now) }
{
    let mut left = MOST_OF_ONE;
    let mut end = held.len();
    while end > 0 {
        end -= 1;
        if is_same(held[end].key, key) {
            left -= 1;
            if left == 0 {
                return Some(end);
            }
        }
    }
    None
}

pub(crate) fn is_same(a: Key, b: Key) -> bool
    ensures { result ≡ key_eq a b }
{
    a == b
}
