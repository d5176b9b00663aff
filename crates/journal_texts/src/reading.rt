//! Moments, read from their texts.
ghost use Rattle.std.specs.Prelude.{◌≡◌, ◌≢◌, map, Some, Err, IfOk};
ghost use Rattle.std.specs.Result.{result_ok};
ghost use Rattle.hex.specs.Hex.{decode_of};
ghost use Rattle.hk_world.specs.declared.moment.Moment.{Moment};
ghost use Rattle.journal_texts.specs.JournalTexts.{journal_text};
ghost use Rattle.journal_texts.specs.Moments.{IsMoment};
ghost use Rattle.journal_texts.specs.Outcomes.{Gives};
ghost use Rattle.journal_texts.specs.Reading as texts;
ghost use Rattle.journal_texts.specs.declared.fault.JournalFault.TheVariants.{BadLine};

use crate::acts::act_in;
use crate::fault::JournalFault;
use crate::laws::lines_are_read_back;
use crate::writing::journal_text;
use hex::FromHexError;
use hk_base::Octets;
use hk_world::Moment;
use message_words::{ascii_text, sections_in, wide_number_in, words_in};
use std::alloc::Global;

/// The moment whose text this is. The text has no line end. A packet is taken on any act.
pub fn read_journal(alloc: Global, text: &[u8]) -> Result<Moment, JournalFault>
    ensures gives { Gives result (texts.moment_in_text text.now) }
    ensures moment { IfOk result (λ moment. IsMoment moment) }
    ensures text { IfOk result (λ moment. journal_text moment ≡ text.now) }
    ensures bad_line { result ≡ Err BadLine → (m : Moment) → IsMoment m → journal_text m ≢ text.now }
{
    lines_are_read_back();
    moment_in_text(alloc, text)
}

/// The moment that the words of a text name, if its text is this one.
fn moment_in_text(alloc: Global, text: &[u8]) -> Result<Moment, JournalFault>
    ensures { Gives result (texts.moment_in_text text.now) }
{
    let Some(line) = ascii_text(text) else {
        return Err(JournalFault::BadLine);
    };
    let words = words_in(alloc, line)?;
    let moment = moment_in_words(alloc, &words)?;
    if_written(alloc, moment, text)
}

/// The moment, if this is its text.
fn if_written(alloc: Global, moment: Moment, text: &[u8]) -> Result<Moment, JournalFault>
    ensures { Gives result (texts.with_text text.now (Some moment)) }
{
    let written = journal_text(alloc, &moment)?;
    if written.as_slice() == text {
        Ok(moment)
    } else {
        Err(JournalFault::BadLine)
    }
}

/// The moment that words name. Its own words may be others.
fn moment_in_words(alloc: Global, words: &[&str]) -> Result<Moment, JournalFault>
    ensures { Gives result (texts.moment_in_words (map (λ word. word.now) words.now)) }
{
    let [tag, rest @ ..] = words else {
        return Err(JournalFault::BadLine);
    };
    moment_at(alloc, wide_number_in(tag), rest)
}

/// The moment with this tag that the words of its act, and those of its packet behind them, name.
fn moment_at(alloc: Global, tag: u64, words: &[&str]) -> Result<Moment, JournalFault>
    ensures { Gives result (texts.moment_at tag (map (λ word. word.now) words.now)) }
{
    let sections = sections_in(alloc, words, "packet")?;
    moment_in_sections(alloc, tag, &sections)
}

/// The moment with this tag that the words of its act and those of its packet name.
fn moment_in_sections(alloc: Global, tag: u64, sections: &[&[&str]]) -> Result<Moment, JournalFault>
    ensures { Gives result (texts.moment_in_sections tag (map (λ section. map (λ word. word.now) section.now) sections.now)) }
{
    let [act, packets @ ..] = sections else {
        return Err(JournalFault::BadLine);
    };
    let act = act_in(alloc, act)?;
    let packet = packet_in(alloc, packets)?;
    Ok(Moment { tag, act, packet })
}

/// The octets of a packet, none where there is no section.
fn packet_in(alloc: Global, sections: &[&[&str]]) -> Result<Octets, JournalFault>
    ensures { Gives result (texts.packet_in (map (λ section. map (λ word. word.now) section.now) sections.now)) }
{
    match sections {
        [] => Ok(Octets::from_vec(Vec::new(alloc))),
        [words, ..] => packet_in_words(alloc, words),
    }
}

/// The octets of a packet that one word names.
fn packet_in_words(alloc: Global, words: &[&str]) -> Result<Octets, JournalFault>
    ensures { Gives result (texts.packet_in_words (map (λ word. word.now) words.now)) }
{
    let [digits] = words else {
        return Err(JournalFault::BadLine);
    };
    octets_in(alloc, digits)
}

/// The octets that digits to the base 16 stand for.
fn octets_in(alloc: Global, digits: &str) -> Result<Octets, JournalFault>
    ensures { Gives result (result_ok (decode_of digits.now)) }
{
    match hex::decode(alloc, digits) {
        Ok(octets) => Ok(Octets::from_vec(octets)),
        Err(FromHexError::OutOfMemory) => Err(JournalFault::Memory),
        Err(_) => Err(JournalFault::BadLine),
    }
}
