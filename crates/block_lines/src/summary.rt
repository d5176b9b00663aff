//! The numbers of a session.
ghost use Rattle.std.specs.Prelude.{◌≡◌, flat_map};
ghost use Rattle.body_fields.specs.Outcomes.{Appends};
ghost use Rattle.session_texts.specs.Tallies.{number_line, summary};
ghost use Rattle.block_lines.specs.Numbers.{numbered_line};

use crate::parts::{Part, put_parts};
use hk_base::Memory;
use session_texts::Tally;

/// A number with its word.
#[derive(Clone, Copy)]
pub(crate) struct Numbered<'a> {
    pub(crate) word: &'a str,
    pub(crate) number: u64,
}

/// Appends the seven lines of the numbers of a session.
pub fn write_summary(out: &mut Vec<u8>, tally: &Tally) -> Result<(), Memory>
    ensures { Appends out.old.items result out.new.items (summary tally.now) }
{
    let sent = u64::from(tally.sent);
    let received = u64::from(tally.received);
    let repeats = u64::from(tally.repeats);
    let decided = u64::from(tally.decided);
    let undecidable = u64::from(tally.undecidable);
    let other = u64::from(tally.other);
    write_lines(
        out,
        &[
            Numbered {
                word: "sent",
                number: sent,
            },
            Numbered {
                word: "received",
                number: received,
            },
            Numbered {
                word: "repeats",
                number: repeats,
            },
            Numbered {
                word: "decided",
                number: decided,
            },
            Numbered {
                word: "undecidable",
                number: undecidable,
            },
            Numbered {
                word: "other",
                number: other,
            },
            Numbered {
                word: "values",
                number: tally.values,
            },
        ],
    )
}

/// Appends a line for each number.
fn write_lines(out: &mut Vec<u8>, lines: &[Numbered<'_>]) -> Result<(), Memory>
    ensures { Appends out.old.items result out.new.items (flat_map numbered_line lines.now) }
{
    for line in lines {
        write_number(out, line.word, line.number)?;
    }
    Ok(())
}

/// Appends the line of a number with its word.
pub(crate) fn write_number(out: &mut Vec<u8>, word: &str, number: u64) -> Result<(), Memory>
    ensures { Appends out.old.items result out.new.items (number_line word.now number) }
{
    put_parts(
        out,
        &[
            Part::Text(word),
            Part::Text(" "),
            Part::Number(number),
            Part::Text("\n"),
        ],
    )
}
