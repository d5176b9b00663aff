//! The packet of a line of words.
ghost use Rattle.std.specs.Prelude.{◌≡◌, ◌≤◌, ◌^◌, length, IfOk, IfSome};
ghost use Rattle.pus_messages.specs.Spelling.{IsRequest};
ghost use Rattle.record_commands.specs.Packets as packets;

use hk_base::{Memory, Octets, Tailoring};
use message_words::{WordsFault, read_words};
use pus_messages::{Request, write_request};
use pus_packet::JoinFault;
use std::alloc::Global;

/// The packet of a line that is the words of a request with this count. None where the line isn't, or the packet would be longer
/// than 65,542 octets.
#[tactic(auto, unfolding(crate::specs::Packets::line_packet))]
pub fn line_packet(
    alloc: Global,
    tailoring: &Tailoring,
    number: u32,
    line: &[u8],
) -> Result<Option<Octets>, Memory>
    ensures packet { IfOk result (λ packet. packet ≡ packets.line_packet tailoring.now number line.now) }
    ensures size { IfOk result (λ packet. IfSome packet (λ octets. length octets ≤ 2 ^ 31)) }
{
    let request = match read_words(alloc, tailoring, line) {
        Ok(request) => request,
        Err(WordsFault::Form) => return Ok(None),
        Err(WordsFault::Memory) => return Err(Memory),
    };
    let _widths = tailoring.widths();
    numbered_packet(alloc, tailoring, number, &request)
}

/// The packet of a request with this count.
fn numbered_packet(
    alloc: Global,
    tailoring: &Tailoring,
    number: u32,
    request: &Request,
) -> Result<Option<Octets>, Memory>
    requires { IsRequest tailoring.now request.now }
    ensures packet { IfOk result (λ packet. packet ≡ packets.numbered_packet tailoring.now number request.now) }
    ensures size { IfOk result (λ packet. IfSome packet (λ octets. length octets ≤ 2 ^ 31)) }
{
    if u32::from(request.header.count) != number {
        return Ok(None);
    }
    match write_request(alloc, tailoring, request) {
        Ok(packet) => Ok(Some(packet)),
        Err(JoinFault::TooLong(_)) => Ok(None),
        Err(JoinFault::Memory) => Err(Memory),
    }
}
