//! The record of requests that are given as lines of words.
ghost use Rattle.std.specs.Prelude.{◌≡◌, ◌≤◌, ◌<◌, ◌+◌, ◌^◌, ◌∷◌, [], ◌++◌, length, IsErrOf, IfSome, IsSome, OnOk};
ghost use Rattle.hk_base.specs.Outside.{HasRisen};
ghost use Rattle.program_edge.specs.Faults.{IsOfLines};
ghost use Rattle.program_edge.specs.Inputs.{IsReadOut, TakesAtMost, piece_octets};
ghost use Rattle.record_commands.specs.Packets as requests;
ghost use Rattle.record_commands.specs.Encoding.{most_lines_octets, lines, line_length, packets, with_packets, record_of_lines, encoded, Encodes, IsPut, IsLinePut};

use crate::packets::line_packet;
use hk_base::{Items, Octets, Shelf, Tailoring};
use program_edge::{Draft, RunFault, input_octets};
use session_record::Entry;
use std::alloc::Global;

/// The most octets of a file of lines.
const MOST_LINES_OCTETS: usize = 16_777_216;

/// The record with known start that has a Sent entry for each line of what the shelf has selected. A line is the words of a
/// request whose count is the number of lines before it, and whose packet has at most 65,542 octets. Each line is ended by a
/// line feed, which the last one may lack. `Line(0)` is a file of more than 16,777,216 octets.
pub fn encode<F: Shelf>(
    alloc: Global,
    tailoring: &Tailoring,
    shelf: &mut F,
) -> Result<Octets, RunFault>
    ensures outcome { IfSome (F.rest shelf.old) (λ octets. Encodes result (encoded tailoring.now octets)) }
    ensures end { OnOk result (IsReadOut (F.rest shelf.old) (F.rest shelf.new)) }
    ensures bounded { TakesAtMost (most_lines_octets + piece_octets) (F.rest shelf.old) (F.rest shelf.new) }
    ensures causes { IsOfLines result }
    ensures failed { IsErrOf result RunFault.ReadFault → HasRisen (F.faults shelf.old) (F.faults shelf.new) }
    ensures sound { F.is_sound shelf.old → IsSome (F.rest shelf.old) → F.faults shelf.new ≡ F.faults shelf.old }
{
    match input_octets(alloc, MOST_LINES_OCTETS, shelf)? {
        Some(text) => encode_text(alloc, tailoring, text.as_slice()),
        None => Err(RunFault::Line(0)),
    }
}

/// The same of a text.
fn encode_text(alloc: Global, tailoring: &Tailoring, text: &[u8]) -> Result<Octets, RunFault>
    requires { length text.now ≤ 2 ^ 24 }
    ensures record { Encodes result (record_of_lines tailoring.now text.now) }
    ensures unread { IsErrOf result RunFault.ReadFault → ⊥ }
{
    let mut draft = Draft::new(alloc);
    draft.begin(true, false)?;
    match put_lines(alloc, tailoring, text, &mut draft) {
        Ok(()) => Ok(Items::from_vec(draft.into_octets())),
        Err(fault) => Err(fault),
    }
}

/// Puts an entry to the draft for each line.
fn put_lines(
    alloc: Global,
    tailoring: &Tailoring,
    text: &[u8],
    draft: &mut Draft,
) -> Result<(), RunFault>
    requires { length text.now ≤ 2 ^ 24 }
    ensures { IsPut result draft.new.octets.items (with_packets draft.old.octets.items (packets tailoring.now 0 (lines text.now))) }
{
    let mut number = 0u32;
    let mut rest = text;
    while !rest.is_empty() {
        let (line, after) = split_line(rest);
        put_line(alloc, tailoring, number, line, draft)?;
        number += 1;
        rest = after;
    }
    Ok(())
}

/// Puts the entry of a line to the draft. The number is that of the lines before it.
fn put_line(
    alloc: Global,
    tailoring: &Tailoring,
    number: u32,
    line: &[u8],
    draft: &mut Draft,
) -> Result<(), RunFault>
    requires { number ≤ 2 ^ 24 }
    ensures { IsLinePut result number (requests.line_packet tailoring.now number line.now) draft.old.octets.items draft.new.octets.items }
{
    let Some(packet) = line_packet(alloc, tailoring, number, line)? else {
        return Err(RunFault::Line(number + 1));
    };
    draft.put(&Entry::Sent(packet))?;
    Ok(())
}

/// The first line of a text, and what stands after its line feed.
fn split_line(text: &[u8]) -> (&[u8], &[u8])
    requires { 0 < length text.now }
    ensures lines { lines text.now ≡ result.0.now ∷ lines result.1.now }
    ensures shorter { length result.1.now < length text.now }
{
    let end = line_length(text);
    let (line, rest) = text.split_at(end);
    if rest.is_empty() {
        return (line, rest);
    }
    let (_, after) = rest.split_at(1);
    (line, after)
}

/// How many octets stand before the first line feed.
fn line_length(text: &[u8]) -> usize
    ensures length { result ≡ line_length text.now }
    ensures within { result ≤ length text.now }
{
    for (index, octet) in text.iter().enumerate() {
        if *octet == b'\n' {
            return index;
        }
    }
    text.len()
}
