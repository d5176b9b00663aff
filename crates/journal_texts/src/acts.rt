//! Acts, read from their words.
//!
//! Any word stands for some number. A word that isn't the decimal digits of its number is found when the text of the moment
//! that was read is compared with the line.
ghost use Rattle.std.specs.Prelude.{◌≡◌, ◌==◌, map, IfOk};
ghost use Rattle.message_words.specs.Numbers.{number_in};
ghost use Rattle.journal_texts.specs.Outcomes.{Gives};
ghost use Rattle.journal_texts.specs.Reading as texts;

use crate::fault::JournalFault;
use hk_base::Items;
use hk_world::Act;
use message_words::{number_in, value_in, wide_number_in};
use std::alloc::{AllocError, Global};

/// The act that words name.
pub fn act_in(alloc: Global, words: &[&str]) -> Result<Act, JournalFault>
    ensures { Gives result (texts.act_in (map (λ word. word.now) words.now)) }
{
    let [what, rest @ ..] = words else {
        return Err(JournalFault::BadLine);
    };
    match *what {
        "accepted" => Ok(Act::Accepted(request_in(rest)?)),
        "turned-away" => Ok(Act::TurnedAway(request_in(rest)?)),
        "started" => Ok(Act::Started(request_in(rest)?)),
        "not-started" => Ok(Act::NotStarted(request_in(rest)?)),
        "executed" => execution_in(rest),
        "completed" => completion_in(alloc, rest),
        "emitted" => Ok(Act::Emitted),
        "filed" => filing_in(rest),
        _ => Err(JournalFault::BadLine),
    }
}

/// The number of a request.
fn request_in(words: &[&str]) -> Result<u64, JournalFault>
    ensures { Gives result (texts.request_in (map (λ word. word.now) words.now)) }
{
    let [request] = words else {
        return Err(JournalFault::BadLine);
    };
    Ok(wide_number_in(request))
}

/// A request, an instruction of it, and whether it was done.
fn execution_in(words: &[&str]) -> Result<Act, JournalFault>
    ensures { Gives result (texts.execution_in (map (λ word. word.now) words.now)) }
{
    let [request, number, done] = words else {
        return Err(JournalFault::BadLine);
    };
    Ok(Act::Executed(wide_number_in(request), number_in(number), *done == "done"))
}

/// A request, and its instructions that were refused.
fn completion_in(alloc: Global, words: &[&str]) -> Result<Act, JournalFault>
    ensures { Gives result (texts.completion_in (map (λ word. word.now) words.now)) }
{
    let [request, refused @ ..] = words else {
        return Err(JournalFault::BadLine);
    };
    let refused = numbers_in(alloc, refused)?;
    Ok(Act::Completed(wide_number_in(request), Items::from_vec(refused)))
}

/// The numbers that words stand for.
fn numbers_in(alloc: Global, words: &[&str]) -> Result<Vec<u32>, AllocError>
    ensures { IfOk result (λ numbers. numbers.items ≡ map number_in (map (λ word. word.now) words.now)) }
{
    words.iter().map(|word| number_in(word)).collect(alloc)
}

/// A parameter, a slot and the value.
fn filing_in(words: &[&str]) -> Result<Act, JournalFault>
    ensures { Gives result (texts.filing_in (map (λ word. word.now) words.now)) }
{
    let [param, slot, value] = words else {
        return Err(JournalFault::BadLine);
    };
    Ok(Act::Filed(number_in(param), wide_number_in(slot), value_in(value)))
}
