ghost use Rattle.std.specs.Prelude.{◌≡◌, ◌≤◌, ◌<◌, ◌^◌, ◌+◌, ◌%◌, ℕ, length, nat_lt, nat_le, find, slice_get, true, Some, None, Ok, IfOk, IfSome, MatchResult, OnOk, OnErr, option_map};
ghost use Rattle.std.specs.Option.{option_copied};
ghost use Rattle.pus_messages.specs.Messages.{protocol};
ghost use Rattle.pus_messages.specs.Protocol.{readable};
ghost use Rattle.ground_history.specs.Histories as histories;
ghost use Rattle.ground_history.specs.Histories.{tag_of, new_history, sent_answer, got_kind, history_with_sent};
ghost use Rattle.ground_history.specs.Evidence as evidence;
ghost use Rattle.pus_packet.specs.Packets.{checksum_octets};
ghost use Rattle.pus_messages.specs.Spelling.{IsReportPacket, HasRoom};
ghost use Rattle.ground_history.specs.Ground.{IsGrounded, HasNumber, IsAnswer, IsCountOf, with_history, is_room_for, got_result, report_result, own_count, answer_by_count, newest_told};

use crate::answer::{GotKind, Outcome, SentFault};
use crate::evidence::Evidence;
use crate::kept::{KeptPacket, KeptPackets};
use crate::requests::{Requests, SentRequest, asked};
use hk_base::{Items, Memory, RequestId, Tailoring};
use pus_messages::{Reception, Report, ReportBody, Request, instructions, receive, subject};
use pus_packet::split_tc;
use std::alloc::Global;
use std::collections::btree_map::Values;
use std::marker::Model;

/// The most requests of a short session, and how many counts there are.
const COUNTS: u64 = 16_384;

/// So many requests of a long session can be under way: a request isn't new before one from so many before it on is known to have begun.
const WINDOW: u64 = 8_191;

/// What the ground knows of a session: the requests that it sent, and the packets that it kept.
#[derive(Drop)]
pub struct History {
    alloc: Global,
    tailoring: Tailoring,
    known: bool,
    long: bool,
    requests: Requests,
    kept: KeptPackets,
    evidence: Evidence,
}

impl Model for History {
    ghost use Rattle.ground_history.specs.Indexes.{Says};
    ghost use Rattle.ground_history.specs.Ground.{Ground, IsGrounded, ground_with};

    ghost Value = { Ground };

    ghost view = { λ h. ground_with h.tailoring h.known h.long h.requests h.kept };

    ghost invariant = { λ h. Says h.evidence h.kept × IsGrounded (ground_with h.tailoring h.known h.long h.requests h.kept) };
}

impl History {
    /// What is known before any entry: whether the start is, and whether the session is a long one.
    pub fn new(alloc: Global, tailoring: Tailoring, known: bool, long: bool) -> History
        ensures { result ≡ record { tailoring = tailoring; history = new_history known long } }
    {
        History {
            alloc,
            tailoring,
            known,
            long,
            requests: Requests::new(alloc),
            kept: KeptPackets::new(alloc),
            evidence: Evidence::new(alloc),
        }
    }

    /// A packet that was sent: whether it is a new request, or why it can't be sent.
    pub fn sent(&mut self, bytes: &[u8]) -> Result<bool, SentFault>
        requires { length bytes.now ≤ 2 ^ 31 }
        ensures answer { IsAnswer (sent_answer (protocol self.old.tailoring) self.old.history bytes.now) result }
        ensures state { self.new ≡ with_history self.old (history_with_sent (protocol self.old.tailoring) self.old.history bytes.now result) }
    {
        let answer = self.answer(bytes);
        if let Ok(true) = answer {
            self.append(bytes)?;
        }
        answer
    }

    /// Octets that were received: what became of them.
    pub fn got(&mut self, bytes: &[u8]) -> Result<GotKind, Memory>
        requires { length bytes.now ≤ 2 ^ 31 }
        ensures kind { IfOk result (λ kind. kind ≡ got_kind (protocol self.old.tailoring) self.old.history bytes.now) }
        ensures state { self.new ≡ with_history self.old (got_result (protocol self.old.tailoring) self.old.history bytes.now result) }
    {
        match receive(self.alloc, &self.tailoring, bytes)? {
            Reception::Foreign(apid) => Ok(GotKind::Foreign(apid)),
            Reception::Skipped(service, subtype) => Ok(GotKind::Skipped(service, subtype)),
            Reception::Unread => Ok(GotKind::Unread),
            Reception::Readable(report) => self.got_report(bytes, report),
        }
    }

    /// The tag above which all that is executed of request k lies.
    pub fn low(&self, k: u64) -> u64
        requires { k < length self.now.history.requests }
        ensures { result ≡ evidence.low self.now.history k }
    {
        self.floor(k).max(self.evidence.low(k))
    }

    /// The greatest tag that was kept before request k was first sent, or 0.
    pub fn floor(&self, k: u64) -> u64
        requires { k < length self.now.history.requests }
        ensures { result ≡ evidence.floor self.now.history k }
    {
        let Some(request) = self.requests.get(k) else {
            unreachable!();
        };
        request.floor()
    }

    /// The tag below which all that is executed of request k lies, if one is known.
    pub fn high(&self, k: u64) -> Option<u64>
        requires { k < length self.now.history.requests }
        ensures { result ≡ evidence.high self.now.history k }
    {
        self.evidence.high(k)
    }

    /// Whether a report shows that request k was accepted.
    pub fn accepted(&self, k: u64) -> bool
        requires { k < length self.now.history.requests }
        ensures { result ≡ evidence.is_accepted self.now.history k }
    {
        self.evidence.shown.at(k).accepted
    }

    /// Whether a report shows that nothing of request k is ever executed.
    pub fn barred(&self, k: u64) -> bool
        requires { k < length self.now.history.requests }
        ensures { result ≡ evidence.is_barred self.now.history k }
    {
        self.evidence.shown.at(k).barred
    }

    /// What is known of an instruction of request k, by its number from 1.
    pub fn outcome(&self, k: u64, number: u32) -> Outcome
        requires { k < length self.now.history.requests }
        ensures { result ≡ evidence.outcome self.now.history k number }
    {
        if self.is_refused(k, number) {
            Outcome::Refused
        } else if self.is_executed(k, number) {
            Outcome::Done
        } else {
            Outcome::Unknown
        }
    }

    /// What request k asks; None exactly where its body isn't in the grammar.
    pub fn request(&self, k: u64) -> Option<&Request>
        requires { k < length self.now.history.requests }
        ensures { IfSome (slice_get self.now.history.requests k) (λ sent. option_copied result ≡ sent.request) }
    {
        match self.requests.get(k) {
            Some(sent) => sent.request(),
            None => None,
        }
    }

    /// The number of requests.
    pub fn count(&self) -> u64
        ensures { result ≡ length self.now.history.requests }
    {
        self.requests.len()
    }

    /// The number of kept packets.
    pub fn kept(&self) -> u64
        ensures { result ≡ length self.now.history.kept }
    {
        self.kept.len() as u64
    }

    /// How many new requests `sent` would take one after the other, with no packet received between them, before it
    /// answers `SessionFull` or `WindowFull`.
    pub fn room(&self) -> u64
        ensures { (j : ℕ) → is_room_for self.now.history (length self.now.history.requests + j) ≡ nat_lt j result }
    {
        let sent = self.requests.len();
        if self.long {
            (WINDOW + self.evidence.begun).saturating_sub(sent)
        } else {
            COUNTS.saturating_sub(sent)
        }
    }

    /// Whether the state of the board at the start is known.
    pub fn known(&self) -> bool
        ensures { result ≡ self.now.history.known }
    {
        self.known
    }

    pub fn tailoring(&self) -> &Tailoring
        ensures tailoring { result.now ≡ self.now.tailoring }
        ensures grounded { IsGrounded self.now }
    {
        &self.tailoring
    }

    /// Whether the session is a long one.
    pub fn long(&self) -> bool
        ensures { result ≡ self.now.history.long }
    {
        self.long
    }

    /// The kept packets in the order of their tags, each in time that doesn't depend on how many there are.
    pub fn packets(&self) -> Values<'_, u64, KeptPacket>
        ensures { result ≡ self.now.history.kept }
    {
        self.kept.all()
    }

    /// The greatest tag of a kept report of a structure, or 0.
    pub fn newest_told(&self) -> u64
        ensures { result ≡ newest_told self.now.history.kept }
    {
        self.kept.told()
    }

    /// The kept packet with this number, from 0 in the order of tags. It takes time with the number: see `packets`.
    pub fn report(&self, number: u64) -> Option<&Report>
        ensures { option_copied result ≡ option_map (λ k. k.report) (slice_get self.now.history.kept number) }
    {
        match self.kept.at(number as usize) {
            Some(kept) => Some(kept.report()),
            None => None,
        }
    }

    /// Whether a packet is a new request, or why it can't be sent.
    fn answer(&self, bytes: &[u8]) -> Result<bool, SentFault>
        requires { length bytes.now ≤ 2 ^ 31 }
        ensures answer { result ≡ sent_answer (protocol self.now.tailoring) self.now.history bytes.now }
        ensures next { result ≡ Ok true → IsCountOf (length self.now.history.requests % 16384) bytes.now }
    {
        match self.own_count(bytes) {
            Ok(count) => self.is_new(count, bytes),
            Err(fault) => Err(fault),
        }
    }

    /// The first kept packet whose tag isn't below this one, in logarithmic time.
    pub fn kept_from(&self, tag: u64) -> Option<&KeptPacket>
        ensures { option_copied result ≡ find (λ k. nat_le tag (tag_of k)) self.now.history.kept }
    {
        self.kept.from_tag(tag)
    }

    /// The report of the first kept packet whose tag isn't below this one, in logarithmic time.
    pub fn report_from(&self, tag: u64) -> Option<&Report>
        ensures { option_copied result ≡ option_map (λ k. k.report) (find (λ k. nat_le tag (tag_of k)) self.now.history.kept) }
    {
        match self.kept.from_tag(tag) {
            Some(kept) => Some(kept.report()),
            None => None,
        }
    }

    /// The count of a request packet of this process and this source.
    fn own_count(&self, bytes: &[u8]) -> Result<u16, SentFault>
        requires { length bytes.now ≤ 2 ^ 31 }
        ensures count { result ≡ own_count self.now.tailoring ((protocol self.now.tailoring).command bytes.now) }
        ensures octets { IfOk result (λ count. IsCountOf count bytes.now) }
        ensures small { IfOk result (λ count. count < 2 ^ 14) }
    {
        let Ok((header, _)) = split_tc(&self.tailoring, bytes) else {
            return Err(SentFault::BadRequest);
        };
        let widths = self.tailoring.widths();
        if header.apid != widths.apid || header.source != widths.ground {
            return Err(SentFault::BadRequest);
        }
        Ok(header.count)
    }

    /// Whether a packet with this count is a new request, or why it can't be sent.
    fn is_new(&self, count: u16, bytes: &[u8]) -> Result<bool, SentFault>
        requires { count < 2 ^ 14 }
        ensures answer { result ≡ answer_by_count self.now.history bytes.now (Ok count) }
        ensures next { result ≡ Ok true → count ≡ length self.now.history.requests % 16384 }
    {
        if self.long {
            self.is_new_in_long(count, bytes)
        } else {
            self.is_new_in_short(count, bytes)
        }
    }

    fn is_new_in_short(&self, count: u16, bytes: &[u8]) -> Result<bool, SentFault>
        requires { count < 2 ^ 14 }
        ensures answer { result ≡ histories.sent_short self.now.history count bytes.now }
        ensures next { result ≡ Ok true → count ≡ length self.now.history.requests % 16384 }
    {
        let next = self.requests.len();
        if self.has_sent(u64::from(count), bytes) {
            Ok(false)
        } else if next >= COUNTS {
            Err(SentFault::SessionFull)
        } else if u64::from(count) < next {
            Err(SentFault::Reused(count))
        } else if next < u64::from(count) {
            Err(SentFault::WrongCount(next as u16, count))
        } else {
            Ok(true)
        }
    }

    fn is_new_in_long(&self, count: u16, bytes: &[u8]) -> Result<bool, SentFault>
        requires { count < 2 ^ 14 }
        ensures answer { result ≡ histories.sent_long self.now.history count bytes.now }
        ensures next { result ≡ Ok true → count ≡ length self.now.history.requests % 16384 }
    {
        let next = self.requests.len();
        let behind = (next + COUNTS - u64::from(count)) % COUNTS;
        if behind == 0 {
            if next >= WINDOW && !self.has_begun(next - WINDOW) {
                return Err(SentFault::WindowFull(next - WINDOW));
            }
            return Ok(true);
        }
        if behind > 8_192 || behind > next {
            return Err(SentFault::WrongCount((next % COUNTS) as u16, count));
        }
        if self.has_sent(next - behind, bytes) {
            Ok(false)
        } else {
            Err(SentFault::Reused(count))
        }
    }

    /// Whether request k has this packet.
    fn has_sent(&self, k: u64, bytes: &[u8]) -> bool
        ensures { result ≡ histories.is_packet_of bytes.now (slice_get self.now.history.requests k) }
    {
        match self.requests.get(k) {
            Some(request) => request.has_packet(bytes),
            None => false,
        }
    }

    /// Whether request k or a later one is known to have begun.
    fn has_begun(&self, k: u64) -> bool
        ensures { result ≡ histories.is_known_begun self.now.history k }
    {
        k < self.evidence.begun
    }

    /// Whether a report shows that the instruction was refused.
    fn is_refused(&self, k: u64, number: u32) -> bool
        ensures { result ≡ evidence.has_report (evidence.shows_refused number) self.now.history k }
    {
        self.evidence.shown.at(k).unstarted | self.evidence.refused.is_marked(k, number)
    }

    /// Whether a report shows that the instruction was executed, where none shows that it was refused.
    fn is_executed(&self, k: u64, number: u32) -> bool
        ensures { result ≡ evidence.has_report (evidence.shows_executed (evidence.is_alone self.now.history k) number) self.now.history k }
    {
        let shown = self.evidence.shown.at(k);
        let told = shown.completed | self.evidence.done.is_marked(k, number);
        told | (self.is_alone(k) & shown.started)
    }

    /// Whether request k has one instruction.
    fn is_alone(&self, k: u64) -> bool
        ensures { result ≡ evidence.is_alone self.now.history k }
    {
        match self.requests.get(k) {
            Some(sent) => match sent.request() {
                Some(request) => instructions(request) == 1,
                None => false,
            },
            None => false,
        }
    }

    /// Adds a new request.
    fn append(&mut self, bytes: &[u8]) -> Result<(), Memory>
        requires size { length bytes.now ≤ 2 ^ 31 }
        requires count { IsCountOf (length self.old.history.requests % 16384) bytes.now }
        ensures added { OnOk result (self.new ≡ with_history self.old (histories.with_sent (protocol self.old.tailoring) self.old.history bytes.now)) }
        ensures same { OnErr result (self.new ≡ self.old) }
    {
        let request = asked(self.alloc, &self.tailoring, bytes)?;
        let packet = Items::from_slice(self.alloc, bytes)?;
        let floor = self.kept.newest();
        self.requests
            .push(SentRequest::new(packet, request, floor))?;
        Ok(())
    }

    /// A report that was received: what becomes of it.
    fn got_report(&mut self, bytes: &[u8], report: Report) -> Result<GotKind, Memory>
        requires spelled { IsReportPacket self.old.tailoring report bytes.now }
        requires short { HasRoom report.body }
        ensures kind { IfOk result (λ kind. kind ≡ histories.kind_by_reception self.old.history bytes.now (readable report)) }
        ensures state { self.new ≡ with_history self.old (report_result self.old.history bytes.now report result) }
    {
        let tag = report.header.tag;
        let number = match self.number_of(&report) {
            Ok(number) => number,
            Err(id) => return Ok(GotKind::Stray(id.word)),
        };
        if let Some(kept) = self.kept.with_tag(tag) {
            return Ok(if kept.is_same(bytes) {
                GotKind::Repeat(tag)
            } else {
                GotKind::Conflict(tag)
            });
        }
        self.keep(bytes, report, number)?;
        Ok(GotKind::Kept(tag))
    }

    /// The number of the request that a report verifies, if it is a verification report; the ID of a request that wasn't sent.
    fn number_of(&self, report: &Report) -> Result<Option<u64>, RequestId>
        ensures { MatchResult result (λ number. HasNumber self.now.history report.now number)
            (λ id. histories.stray_id self.now.history report.now.header.tag report.now.body ≡ Some id.word) }
    {
        let ReportBody::Verify(verification) = &report.body else {
            return Ok(None);
        };
        let id = subject(verification);
        match self.requests.verified(self.long, id, report.header.tag) {
            Some(number) => Ok(Some(number)),
            None => Err(id),
        }
    }

    /// The number of octets behind the body of a report: those of its checksum.
    fn behind(&self) -> usize
        ensures { result ≡ checksum_octets self.now.tailoring.widths.tm_checksum }
    {
        if self.tailoring.widths().tm_checksum {
            2
        } else {
            0
        }
    }

    /// Keeps a packet, and what it shows.
    fn keep(&mut self, bytes: &[u8], report: Report, number: Option<u64>) -> Result<(), Memory>
        requires number { number ≡ histories.number_of_body self.old.history report.header.tag report.body }
        requires sent { IfSome number (λ k. k < 2 ^ 63) }
        requires absent { histories.kept_at self.old.history report.header.tag ≡ None }
        requires spelled { IsReportPacket self.old.tailoring report bytes.now }
        requires short { HasRoom report.body }
        ensures kept { OnOk result (self.new ≡ with_history self.old (histories.with_kept self.old.history bytes.now report)) }
        ensures same { OnErr result (self.new ≡ self.old) }
    {
        let tag = report.header.tag;
        let behind = self.behind();
        self.evidence.make_room_for(number, &report.body)?;
        let packet = KeptPacket::new(self.alloc, bytes, behind, report, number)?;
        self.kept.keep(packet)?;
        let Some(kept) = self.kept.with_tag(tag) else {
            unreachable!();
        };
        self.evidence.note_kept(kept);
        Ok(())
    }
}
