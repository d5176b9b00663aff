//! Request packets as they come.
ghost use Rattle.std.specs.Prelude.{◌≡◌, ◌≤◌, ◌<◌, ◌^◌, ◌&&◌, ◌==◌, nat_le, length, Some, Ok, Err, IfSome};
ghost use Rattle.body_fields.specs.Spelling.{AreOctets};
ghost use Rattle.st01_reports.specs.Spelling.{IsCause};
ghost use Rattle.pus_messages.specs.Instructions.{instructions};
ghost use Rattle.pus_messages.specs.Messages.{protocol};
ghost use Rattle.board_steps.specs.Plans as plans;
ghost use Rattle.board_steps.specs.Steps.{Answers};
ghost use Rattle.board_steps.specs.declared.event.Event.TheVariants.{Uplink};

use crate::board::BoardCore;
use crate::causes::{body_cause, unknown_type};
use board_state::{Asked, Running, packet_id};
use board_steps::BoardFault;
use hk_base::Octets;
use hk_world::Act;
use pus_messages::{MessageFault, ReportBody, Request, read_request, requests_are_spelled};
use pus_packet::{TcHeader, split_tc};
use st01_reports::{Cause, Verification};

impl BoardCore {
    /// Takes a request packet, or discards it.
    pub(crate) fn uplink(&mut self, octets: Octets) -> Result<u32, BoardFault>
        requires { length octets ≤ 2 ^ 31 }
        ensures { Answers self.old (Uplink octets) self.new result }
    {
        match self.handled_as(octets.as_slice()) {
            Some(number) => self.handle(number, octets),
            None => Ok(0),
        }
    }

    /// The number under which a packet is handled. None, where it is discarded.
    fn handled_as(&self, octets: &[u8]) -> Option<u64>
        requires { length octets.now ≤ 2 ^ 31 }
        ensures number { result ≡ plans.handled_as self.now octets.now }
        ensures within { IfSome result (λ number. number < 16384) }
        ensures long { IfSome result (λ _. 11 ≤ length octets.now) }
        ensures octets { AreOctets octets.now }
        ensures room { length self.now.moments ≤ 1048576 }
    {
        let Ok((header, _)) = split_tc(self.log.tailoring(), octets) else {
            return None;
        };
        if self.is_handled(&header) {
            Some(u64::from(header.count))
        } else {
            None
        }
    }

    /// Whether a request packet is the ground's, and its count is greater than the last one that was handled.
    fn is_handled(&self, header: &TcHeader) -> bool
        ensures { result ≡ plans.is_handled self.now header.now }
    {
        let widths = self.log.tailoring().widths();
        header.apid == widths.apid
            && header.source == widths.ground
            && u64::from(header.count) >= self.requests.next_number()
    }

    /// Accepts a packet that is a request, and turns another one away.
    fn handle(&mut self, number: u64, octets: Octets) -> Result<u32, BoardFault>
        requires size { length octets ≤ 2 ^ 31 }
        requires long { 11 ≤ length octets }
        requires octets { AreOctets octets }
        requires number { plans.handled_as self.old octets ≡ Some number }
        requires within { number < 16384 }
        ensures { Answers self.old (Uplink octets) self.new result }
    {
        let _fit = self.log.tailoring().widths();
        match read_request(self.alloc, self.log.tailoring(), octets.as_slice()) {
            Ok(request) => self.accept(number, octets, request),
            Err(MessageFault::Unknown(service, subtype)) => {
                self.turn_away(number, octets, unknown_type(service, subtype))
            }
            Err(MessageFault::Body(fault)) => self.turn_away(number, octets, body_cause(&fault)),
            Err(MessageFault::Memory) => Err(BoardFault::Memory),
            Err(MessageFault::Packet(_)) => unreachable!(),
        }
    }

    fn accept(&mut self, number: u64, octets: Octets, request: Request) -> Result<u32, BoardFault>
        requires long { 11 ≤ length octets }
        requires octets { AreOctets octets }
        requires number { plans.handled_as self.old octets ≡ Some number }
        requires within { number < 16384 }
        requires request { (protocol self.old.tailoring).request octets ≡ Ok request }
        requires few { length (instructions request) ≤ 255 }
        ensures { Answers self.old (Uplink octets) self.new result }
    {
        // A law, and the fitness of the tailoring: they do nothing.
        requests_are_spelled();
        let _fit = self.log.tailoring().widths();
        let running = Running::new(self.alloc, number, packet_id(octets.as_slice()), request);
        let report = running.report_if(Asked::Acceptance, Verification::Accepted(running.id));
        let next = self.requests.next_number();
        self.requests.accept(octets, running)?;
        match self.log.add_one(self.clock, Act::Accepted(number), report) {
            Ok(count) => Ok(count),
            Err(fault) => {
                self.requests.withdraw_accepted(next);
                Err(fault)
            }
        }
    }

    fn turn_away(&mut self, number: u64, octets: Octets, cause: Cause) -> Result<u32, BoardFault>
        requires long { 11 ≤ length octets }
        requires octets { AreOctets octets }
        requires number { plans.handled_as self.old octets ≡ Some number }
        requires within { number < 16384 }
        requires cause { (protocol self.old.tailoring).request octets ≡ Err cause }
        requires fits { IsCause cause }
        ensures { Answers self.old (Uplink octets) self.new result }
    {
        // A law, and the fitness of the tailoring: they do nothing.
        requests_are_spelled();
        let _fit = self.log.tailoring().widths();
        let report = Verification::Refused(packet_id(octets.as_slice()), cause);
        let next = self.requests.next_number();
        self.requests.keep(number, octets)?;
        let act = Act::TurnedAway(number);
        match self
            .log
            .add_one(self.clock, act, Some(ReportBody::Verify(report)))
        {
            Ok(count) => Ok(count),
            Err(fault) => {
                self.requests.withdraw(next);
                Err(fault)
            }
        }
    }
}
