ghost use Rattle.std.specs.Prelude.{◌≡◌, ◌<◌, ◌≤◌, ◌^◌, ◌++◌, ◌∷◌, [], OnOk, OnErr, IfOk, IfSome, length, slice_get, bytes_eq};
ghost use Rattle.std.specs.Option.{option_copied};
ghost use Rattle.std.specs.Result.{result_ok};
ghost use Rattle.pus_messages.specs.Messages.{request_of};
ghost use Rattle.pus_messages.specs.Instructions.{instructions};
ghost use Rattle.pus_messages.specs.Spelling.{IsRequest};
ghost use Rattle.ground_history.specs.Histories.{last_number};
ghost use Rattle.ground_history.specs.Ground.{AreCounted, IsCounted, is_verified_by};

use hk_base::{Memory, Octets, RequestId, Tailoring, get_uint};
use pus_messages::{MessageFault, Request, read_request};
use std::alloc::Global;
use std::marker::Model;

/// Counts of requests have 14 bits.
const COUNTS: u64 = 16_384;

/// A request that was sent.
#[derive(Debug, Drop)]
pub(crate) struct SentRequest {
    pub packet: Octets,
    /// What it asks, if its body is in the grammar.
    pub request: Option<Request>,
    /// The greatest tag that was kept before it was first sent.
    pub floor: u64,
}

impl Model for SentRequest {
    ghost use Rattle.std.specs.Prelude.{◌≤◌, length};
    ghost use Rattle.ground_history.specs.Histories.{Sent};

    ghost Value = { Sent };

    ghost view = { λ sent. record { packet = sent.packet; request = sent.request; floor = sent.floor } };

    ghost invariant = { λ sent. 4 ≤ length sent.packet };
}

impl SentRequest {
    pub(crate) fn new(packet: Octets, request: Option<Request>, floor: u64) -> SentRequest
        requires { 4 ≤ length packet }
        ensures { result ≡ record { packet = packet; request = request; floor = floor } }
    {
        SentRequest {
            packet,
            request,
            floor,
        }
    }

    pub(crate) fn has_packet(&self, bytes: &[u8]) -> bool
        ensures { result ≡ bytes_eq self.now.packet bytes.now }
    {
        self.packet.as_slice() == bytes
    }

    pub(crate) fn request(&self) -> Option<&Request>
        ensures { option_copied result ≡ self.now.request }
    {
        self.request.as_ref()
    }

    pub(crate) fn floor(&self) -> u64
        ensures { result ≡ self.now.floor }
    {
        self.floor
    }

    /// Whether a verification report with this request ID and tag can be on it.
    fn is_verified_by(&self, long: bool, id: RequestId, tag: u64) -> bool
        ensures { result ≡ is_verified_by long id tag self.now }
    {
        let Ok(word) = get_uint(self.packet.as_slice(), 4) else {
            unreachable!();
        };
        word == u128::from(id.word) && (!long || self.floor < tag)
    }
}

/// The requests that were sent, by their numbers. The count of each is its number modulo 16,384.
#[derive(Debug, Drop)]
pub(crate) struct Requests {
    requests: Vec<SentRequest>,
}

impl Model for Requests {
    ghost use Rattle.std.specs.Prelude.{List};
    ghost use Rattle.ground_history.specs.Histories.{Sent};
    ghost use Rattle.ground_history.specs.Ground.{AreCounted};

    ghost Value = { List Sent };

    ghost view = { λ sent. sent.requests.items };

    ghost invariant = { λ sent. AreCounted 0 sent.requests.items };
}

impl Requests {
    pub(crate) fn new(alloc: Global) -> Requests
        ensures { result ≡ [] }
    {
        Requests {
            requests: Vec::new(alloc),
        }
    }

    pub(crate) fn len(&self) -> u64
        ensures len { result ≡ length self.now }
        ensures small { result < 2 ^ 63 }
        ensures counted { AreCounted 0 self.now }
    {
        self.requests.len() as u64
    }

    pub(crate) fn get(&self, number: u64) -> Option<&SentRequest>
        ensures { option_copied result ≡ slice_get self.now number }
    {
        self.requests.get(number as usize)
    }

    /// Adds the next request.
    pub(crate) fn push(&mut self, request: SentRequest) -> Result<(), Memory>
        requires { IsCounted (length self.old) request }
        ensures pushed { OnOk result (self.new ≡ self.old ++ request ∷ []) }
        ensures same { OnErr result (self.new ≡ self.old) }
    {
        self.requests.push(request)?;
        Ok(())
    }

    /// The last request that a verification report with this request ID and tag can be on.
    pub(crate) fn verified(&self, long: bool, id: RequestId, tag: u64) -> Option<u64>
        ensures number { result ≡ last_number (is_verified_by long id tag) 0 self.now }
        ensures sent { IfSome result (λ number. number < 2 ^ 63) }
    {
        let count = u64::from(id.word) % COUNTS;
        let mut rounds = (self.len() + COUNTS - 1 - count) / COUNTS;
        while rounds > 0 {
            rounds -= 1;
            let number = count + COUNTS * rounds;
            let Some(request) = self.get(number) else {
                unreachable!();
            };
            if request.is_verified_by(long, id, tag) {
                return Some(number);
            }
        }
        None
    }
}

/// What a request packet asks; None where its body isn't in the grammar.
pub(crate) fn asked(
    alloc: Global,
    tailoring: &Tailoring,
    bytes: &[u8],
) -> Result<Option<Request>, Memory>
    requires { length bytes.now ≤ 2 ^ 31 }
    ensures request { IfOk result (λ request. request ≡ result_ok (request_of tailoring.now bytes.now)) }
    ensures grammar { IfOk result (λ request. IfSome request (λ known. IsRequest tailoring.now known × (length (instructions known) ≤ 255))) }
{
    match read_request(alloc, tailoring, bytes) {
        Ok(request) => Ok(Some(request)),
        Err(MessageFault::Memory) => Err(Memory),
        Err(_) => Ok(None),
    }
}
