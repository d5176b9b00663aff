//! Moments, written as texts.
ghost use Rattle.std.specs.Prelude.{◌≡◌, ◌++◌, ◌∷◌, [], OnOk, IfOk};
ghost use Rattle.std.specs.String.{string_bytes};
ghost use Rattle.std.specs.Fmt.{decimal};
ghost use Rattle.message_words.specs.Tails.{tail};
ghost use Rattle.journal_texts.specs.JournalTexts as texts;
ghost use Rattle.journal_texts.specs.JournalTexts.{act_words, packet_words};

use hk_base::{Memory, Octets};
use hk_world::{Act, Moment};
use message_words::push_numbers;
use std::alloc::{AllocError, Global};
use std::fmt::Write;

/// The text of a moment: its tag, its act and, where it has one, its packet, in words that one blank divides. The text has no
/// line end.
pub fn journal_text(alloc: Global, moment: &Moment) -> Result<Octets, Memory>
    ensures { IfOk result (λ text. text ≡ texts.journal_text moment.now) }
{
    let mut line = String::new(alloc);
    let tag = moment.tag;
    write!(line, "{tag}")?;
    push_act(&mut line, &moment.act)?;
    push_packet(alloc, &mut line, moment.packet.as_slice())?;
    Ok(Octets::from_vec(line.into_bytes()))
}

/// Appends the words of an act.
fn push_act(line: &mut String, act: &Act) -> Result<(), AllocError>
    ensures { OnOk result (string_bytes line.new ≡ string_bytes line.old ++ tail (act_words act.now)) }
{
    match act {
        Act::Accepted(request) => push_request(line, "accepted", *request),
        Act::TurnedAway(request) => push_request(line, "turned-away", *request),
        Act::Started(request) => push_request(line, "started", *request),
        Act::NotStarted(request) => push_request(line, "not-started", *request),
        Act::Executed(request, number, done) => {
            let word = done_word(*done);
            write!(line, " executed {request} {number} {word}")?;
            Ok(())
        }
        Act::Completed(request, refused) => {
            push_request(line, "completed", *request)?;
            push_numbers(line, refused.as_slice())
        }
        Act::Emitted => {
            write!(line, " emitted")?;
            Ok(())
        }
        Act::Filed(param, slot, value) => {
            write!(line, " filed {param} {slot} {value}")?;
            Ok(())
        }
    }
}

/// Appends a word and the number of a request.
fn push_request(line: &mut String, word: &str, request: u64) -> Result<(), AllocError>
    ensures { OnOk result (string_bytes line.new ≡ string_bytes line.old ++ tail (word.now ∷ decimal request ∷ [])) }
{
    write!(line, " {word} {request}")?;
    Ok(())
}

/// The word for whether an instruction was done.
fn done_word(done: bool) -> &'static str
    ensures { result.now ≡ texts.done_word done }
{
    if done { "done" } else { "refused" }
}

/// Appends the words of a packet, where there is one.
fn push_packet(alloc: Global, line: &mut String, packet: &[u8]) -> Result<(), AllocError>
    ensures { OnOk result (string_bytes line.new ≡ string_bytes line.old ++ tail (packet_words packet.now)) }
{
    if packet.is_empty() {
        return Ok(());
    }
    let digits = hex::encode(alloc, packet)?;
    write!(line, " packet {digits}")?;
    Ok(())
}
