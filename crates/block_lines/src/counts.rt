//! How many received packets were repeats, conflicts, foreign, skipped, unread or stray.
ghost use Rattle.std.specs.Prelude.{◌≡◌, ◌++◌, codes};
ghost use Rattle.body_fields.specs.Outcomes.{Appends};
ghost use Rattle.session_texts.specs.Texts.{count_line};
ghost use Rattle.block_lines.specs.Counts.{lines_of};

use crate::summary::write_number;
use hk_base::Memory;

/// The numbers of received packets that weren't kept, by the reason.
#[derive(Clone, Copy, Debug, PartialEq, Eq, Drop)]
pub struct Counts {
    pub repeats: u32,
    pub conflicts: u32,
    pub foreign: u32,
    pub skipped: u32,
    pub unread: u32,
    pub stray: u32,
}

/// Appends a line for each number that isn't 0.
pub fn write_counts(out: &mut Vec<u8>, counts: &Counts) -> Result<(), Memory>
    ensures { Appends out.old.items result out.new.items (lines_of counts.now) }
{
    write_count(out, "repeats", counts.repeats)?;
    write_count(out, "conflicts", counts.conflicts)?;
    write_count(out, "foreign", counts.foreign)?;
    write_count(out, "skipped", counts.skipped)?;
    write_count(out, "unread", counts.unread)?;
    write_count(out, "stray", counts.stray)?;
    Ok(())
}

/// Appends the line of a number with its word, unless it is 0.
fn write_count(out: &mut Vec<u8>, word: &str, number: u32) -> Result<(), Memory>
    ensures { Appends out.old.items result out.new.items (count_line word.now number) }
{
    if number == 0 {
        return Ok(());
    }
    write_number(out, word, u64::from(number))
}
