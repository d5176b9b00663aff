//! The line of an entry of a record.
ghost use Rattle.std.specs.Prelude.{◌≡◌, ◌≤◌, ◌^◌, ◌∷◌, ◌++◌, [], codes, length, map, IfOk};
ghost use Rattle.std.specs.Fmt.{decimal};
ghost use Rattle.session_record.specs.Records.{held_octets};
ghost use Rattle.message_words.specs.Words.{type_word};
ghost use Rattle.pus_messages.specs.Messages.{request_of, reception};
ghost use Rattle.record_commands.specs.Lines as lines;

use hk_base::{Items, Memory, Octets, Tailoring};
use message_words::{report_words, request_words};
use pus_messages::{MessageFault, Reception, read_request, receive};
use session_record::Entry;
use std::alloc::Global;

/// The line of an entry, with its line feed.
#[tactic(auto, unfolding(crate::specs::Lines::entry_line))]
pub fn entry_line(alloc: Global, tailoring: &Tailoring, entry: &Entry) -> Result<Octets, Memory>
    requires { length (held_octets entry.now) ≤ 2 ^ 31 }
    ensures { IfOk result (λ line. line ≡ lines.entry_line tailoring.now entry.now) }
{
    match entry {
        Entry::Sent(packet) => {
            let words = sent_words(alloc, tailoring, packet.as_slice())?;
            line_of(alloc, b"sent ", words.as_slice())
        }
        Entry::Got(packet) => {
            let words = got_words(alloc, tailoring, packet.as_slice())?;
            line_of(alloc, b"got ", words.as_slice())
        }
        Entry::Line(text) => {
            let words = printable_text(alloc, text.as_slice())?;
            line_of(alloc, b"journal ", words.as_slice())
        }
    }
}

/// A line of a first word, a blank and other words.
fn line_of(alloc: Global, first: &[u8], words: &[u8]) -> Result<Octets, Memory>
    ensures { IfOk result (λ line. line ≡ first.now ++ (words.now ++ 10 ∷ [])) }
{
    let mut line = Vec::from_slice(alloc, first)?;
    line.extend_from_slice(words)?;
    line.push(b'\n')?;
    Ok(Items::from_vec(line))
}

/// The words of a packet that was sent.
fn sent_words(alloc: Global, tailoring: &Tailoring, packet: &[u8]) -> Result<Octets, Memory>
    requires { length packet.now ≤ 2 ^ 31 }
    ensures { IfOk result (λ words. words ≡ lines.sent_words (request_of tailoring.now packet.now)) }
{
    match read_request(alloc, tailoring, packet) {
        Ok(request) => request_words(alloc, &request),
        Err(MessageFault::Memory) => Err(Memory),
        Err(_) => Items::from_slice(alloc, b"unread"),
    }
}

/// The words of a packet that was received.
fn got_words(alloc: Global, tailoring: &Tailoring, packet: &[u8]) -> Result<Octets, Memory>
    requires { length packet.now ≤ 2 ^ 31 }
    ensures { IfOk result (λ words. words ≡ lines.got_words (reception tailoring.now packet.now)) }
{
    match receive(alloc, tailoring, packet)? {
        Reception::Foreign(apid) => foreign_words(alloc, apid),
        Reception::Skipped(service, subtype) => skipped_words(alloc, service, subtype),
        Reception::Unread => Items::from_slice(alloc, b"unread"),
        Reception::Readable(report) => report_words(alloc, &report),
    }
}

/// The words of a packet of another process.
fn foreign_words(alloc: Global, apid: u16) -> Result<Octets, Memory>
    ensures { IfOk result (λ words. words ≡ codes "foreign " ++ decimal apid) }
{
    let words = format!(in alloc; "foreign {apid}")?;
    Ok(Items::from_vec(words.into_bytes()))
}

/// The words of a report of a type that isn't known.
fn skipped_words(alloc: Global, service: u8, subtype: u8) -> Result<Octets, Memory>
    ensures { IfOk result (λ words. words ≡ codes "skipped " ++ type_word service subtype) }
{
    let words = format!(in alloc; "skipped {service}.{subtype}")?;
    Ok(Items::from_vec(words.into_bytes()))
}

/// A line of the journal as it is shown.
fn printable_text(alloc: Global, text: &[u8]) -> Result<Octets, Memory>
    ensures { IfOk result (λ words. words ≡ map lines.printable text.now) }
{
    let words = text.iter().map(|octet| printable(*octet)).collect(alloc)?;
    Ok(Items::from_vec(words))
}

/// An octet as it is shown.
fn printable(octet: u8) -> u8
    ensures { result ≡ lines.printable octet }
{
    if b' ' <= octet && octet <= b'~' {
        octet
    } else {
        b'?'
    }
}
