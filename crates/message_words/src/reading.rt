//! Requests, read from their words.
ghost use Rattle.std.specs.Prelude.{◌≡◌, IfOk};
ghost use Rattle.message_words.specs.Lines.{texts};
ghost use Rattle.message_words.specs.Outcomes.{Gives};
ghost use Rattle.message_words.specs.Words.{request_text};
ghost use Rattle.message_words.specs.Grammar.{IsOfGround};
ghost use Rattle.message_words.specs.Reading.{request_named, with_words, request_in_words};

use crate::bodies::body_in;
use crate::fault::WordsFault;
use crate::laws::words_are_read_back;
use crate::lines::{ascii_text, words_in};
use crate::numbers::{hex_value, number_in};
use crate::requests::request_words;
use hk_base::Tailoring;
use pus_messages::Request;
use pus_packet::TcHeader;
use std::alloc::Global;

/// The request of the grammar whose words the line is, with the process and the source of the tailoring. The line has no
/// line end. Numbers are decimal without leading zeros, and words are divided by one blank.
pub fn read_words(alloc: Global, tailoring: &Tailoring, line: &[u8]) -> Result<Request, WordsFault>
    ensures gives { Gives result (request_in_words tailoring.now line.now) }
    ensures grammar { IfOk result (λ request. IsOfGround tailoring.now request) }
    ensures words { IfOk result (λ request. request_text request ≡ line.now) }
{
    words_are_read_back();
    let _fit = tailoring.widths();
    request_in_line(alloc, tailoring, line)
}

/// The request that the words of a line name, if its words are the line.
fn request_in_line(alloc: Global, tailoring: &Tailoring, line: &[u8]) -> Result<Request, WordsFault>
    ensures { Gives result (request_in_words tailoring.now line.now) }
{
    let Some(text) = ascii_text(line) else {
        return Err(WordsFault::Form);
    };
    let words = words_in(alloc, text)?;
    let request = request_named(alloc, tailoring, &words)?;
    if_spelled(alloc, request, line)
}

/// The request that words name. Its own words may be others.
fn request_named(
    alloc: Global,
    tailoring: &Tailoring,
    words: &[&str],
) -> Result<Request, WordsFault>
    ensures { Gives result (request_named tailoring.now (texts words.now)) }
{
    let [count, flags, rest @ ..] = words else {
        return Err(WordsFault::Form);
    };
    let count = number_in(count);
    let flags = hex_value(flags);
    if count >= 16_384 || flags >= 16 {
        return Err(WordsFault::Form);
    }
    let typed = body_in(alloc, tailoring, rest)?;
    let widths = tailoring.widths();
    let header = TcHeader {
        apid: widths.apid,
        count: count as u16,
        flags,
        service: typed.service,
        subtype: typed.subtype,
        source: widths.ground,
    };
    Ok(Request {
        header,
        body: typed.body,
    })
}

/// The request, if its words are the line.
fn if_spelled(alloc: Global, request: Request, line: &[u8]) -> Result<Request, WordsFault>
    ensures { Gives result (with_words line.now (Some request)) }
{
    let words = request_words(alloc, &request)?;
    if words.as_slice() == line {
        Ok(request)
    } else {
        Err(WordsFault::Form)
    }
}
