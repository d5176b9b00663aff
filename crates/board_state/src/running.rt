//! A request that was accepted and hasn't ended.
ghost use Rattle.std.specs.Prelude.{◌≡◌, ◌≤◌, ◌/◌, ◌%◌, ◌^◌, ◌==◌, nat_lt, false, [], length, Some, None, if◌then◌else◌};
ghost use Rattle.pus_messages.specs.Instructions as specs;
ghost use Rattle.pus_messages.specs.declared.message.ReportBody.TheVariants.{Verify};
ghost use Rattle.hk_world.specs.Honest.{id_of_packet};
ghost use Rattle.board_state.specs.Waiting.{asks, bit_of};

use hk_base::{Items, RequestId, get_uint};
use pus_messages::{ReportBody, Request, instructions};
use st01_reports::Verification;
use std::alloc::Global;

/// An accepted request that hasn't ended.
#[derive(Drop)]
pub struct Running {
    pub number: u64,
    pub id: RequestId,
    pub request: Request,
    pub started: bool,
    /// How many of its instructions were executed.
    pub executed: u32,
    /// The numbers of those that were refused.
    pub refused: Items<u32>,
}

impl Running {
    pub fn new(alloc: Global, number: u64, id: RequestId, request: Request) -> Running
        ensures number { result.number ≡ number }
        ensures id { result.id ≡ id }
        ensures request { result.request ≡ request }
        ensures not_started { result.started ≡ false }
        ensures not_executed { result.executed ≡ 0 }
        ensures none_refused { result.refused ≡ [] }
    {
        Running {
            number,
            id,
            request,
            started: false,
            executed: 0,
            refused: Items::from_vec(Vec::new(alloc)),
        }
    }

    pub fn has_several(&self) -> bool
        requires { length (specs.instructions self.now.request) ≤ 255 }
        ensures { result ≡ nat_lt 1 (length (specs.instructions self.now.request)) }
    {
        instructions(&self.request) > 1
    }

    pub fn is_executed(&self) -> bool
        requires { length (specs.instructions self.now.request) ≤ 255 }
        ensures { result ≡ (self.now.executed == length (specs.instructions self.now.request)) }
    {
        self.executed == instructions(&self.request)
    }

    /// A report, where the request asks for it.
    pub fn report_if(&self, asked: Asked, report: Verification) -> Option<ReportBody>
        ensures { result ≡ (if asks self.now.request asked then Some (Verify report) else None) }
    {
        if asks_for(self.request.header.flags, asked) {
            Some(ReportBody::Verify(report))
        } else {
            None
        }
    }
}

/// The verification reports that a request can ask for, by the bits of its acknowledgement flags.
#[derive(Clone, Copy, Debug, PartialEq, Eq, Drop)]
pub enum Asked {
    Acceptance,
    Start,
    Progress,
    Completion,
}

/// Whether acknowledgement flags ask for a report.
fn asks_for(flags: u8, asked: Asked) -> bool
    ensures { result ≡ (flags / 2 ^ bit_of asked % 2 == 1) }
{
    match asked {
        Asked::Acceptance => flags % 2 == 1,
        Asked::Start => flags / 2 % 2 == 1,
        Asked::Progress => flags / 4 % 2 == 1,
        Asked::Completion => flags / 8 % 2 == 1,
    }
}

/// What names a request in the reports on it: the first four octets of its packet.
pub fn packet_id(octets: &[u8]) -> RequestId
    requires { 4 ≤ length octets.now }
    ensures { result ≡ id_of_packet octets.now }
{
    match get_uint(octets, 4) {
        Ok(word) => RequestId { word: word as u32 },
        Err(_) => unreachable!(),
    }
}
