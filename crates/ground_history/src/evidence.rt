ghost use Rattle.std.specs.Prelude.{◌≡◌, ◌<◌, ◌-◌, ◌^◌, ℕ, List, [], IfSome, OnOk, nat_lt};
ghost use Rattle.ground_history.specs.Histories.{Kept, insert_kept, is_begun_report};
ghost use Rattle.pus_messages.specs.declared.message.ReportBody.TheVariants.{Verify};
ghost use Rattle.ground_history.specs.Stairs.{height_at};
ghost use Rattle.ground_history.specs.Indexes as indexes;
ghost use Rattle.ground_history.specs.Indexes.{HasRoom, HasRoomFor, SaysSame, SaysMore, Says, tag_at_height};

use crate::kept::KeptPacket;
use crate::marks::Marks;
use crate::shown::{Shown, ShownRequests};
use crate::staircase::Staircase;
use hk_base::Memory;
use pus_messages::ReportBody;
use st01_reports::Verification;
use std::alloc::Global;

/// One more than the greatest tag that 64 bits hold.
const PAST_TAGS: u128 = 1 << 64;

/// What the kept reports show of the requests, kept up to date with each.
#[derive(Debug, Drop)]
pub(crate) struct Evidence {
    /// The tags above which requests are executed.
    pub low: Staircase,
    /// The tags below which requests are executed. Places and heights are counted down: what holds of a request holds of
    /// those before it, and the least tag is the greatest height.
    pub high: Staircase,
    /// So many first requests are known to have begun, or to stand before one that has.
    pub begun: u64,
    pub shown: ShownRequests,
    /// The instructions that a [1,5] tells.
    pub done: Marks,
    /// The instructions that a [1,6] or a [1,8] tells.
    pub refused: Marks,
}

impl Evidence {
    pub(crate) fn new(alloc: Global) -> Evidence
        ensures { Says result [] }
    {
        Evidence {
            low: Staircase::new(alloc),
            high: Staircase::new(alloc),
            begun: 0,
            shown: ShownRequests::new(alloc),
            done: Marks::new(alloc),
            refused: Marks::new(alloc),
        }
    }

    /// The greatest tag of a report that stands before all that is executed of a request; 0 where there is none.
    pub(crate) fn low(&self, request: u64) -> u64
        requires { height_at self.now.low request < 2 ^ 64 }
        ensures { result ≡ height_at self.now.low request }
    {
        self.low.height(request) as u64
    }

    /// The tag below which all of a request is executed, if one is known.
    pub(crate) fn high(&self, request: u64) -> Option<u64>
        ensures { result ≡ tag_at_height (height_at self.now.high (indexes.mirrored request)) }
    {
        let height = self.high.height(mirrored(request));
        u64::try_from(PAST_TAGS.saturating_sub(height)).ok()
    }

    /// Makes room for what a packet shows that is to be kept, so that `note_kept` takes no memory.
    pub(crate) fn make_room_for(
        &mut self,
        number: Option<u64>,
        body: &ReportBody,
    ) -> Result<(), Memory>
        requires { IfSome number (λ k. k < 2 ^ 63) }
        ensures same { (kept : List Kept) → Says self.old kept → Says self.new kept }
        ensures room { OnOk result (HasRoomFor self.new number body.now) }
    {
        if let Some(request) = number {
            if let ReportBody::Verify(report) = body {
                self.make_room(request, report)?;
            }
        }
        Ok(())
    }

    /// Notes what a kept packet shows.
    pub(crate) fn note_kept(&mut self, packet: &KeptPacket)
        requires room { HasRoomFor self.old packet.now.number packet.now.report.body }
        requires number { IfSome packet.now.number (λ k. k < 2 ^ 63) }
        ensures { (kept : List Kept) → Says self.old kept → Says self.new (insert_kept packet.now kept) }
    {
        if let Some(request) = packet.number() {
            if let ReportBody::Verify(report) = &packet.report().body {
                self.note(packet.tag(), request, report);
            }
        }
    }

    /// Makes room for what a report on a request shows, so that `note` takes no memory.
    fn make_room(&mut self, request: u64, report: &Verification) -> Result<(), Memory>
        requires { request < 2 ^ 63 }
        ensures same { SaysSame self.old self.new }
        ensures room { OnOk result (HasRoom self.new request report.now) }
    {
        if let Some(place) = place_before(request, report) {
            self.low.make_room(place)?;
        }
        if let Some(place) = place_after(request, report) {
            self.high.make_room(mirrored(place))?;
        }
        self.shown.make_room(request)?;
        self.done.make_room(request, done_steps(report))?;
        self.refused.make_room(request, refused_steps(report))
    }

    /// Notes what a report with this tag on a request shows.
    fn note(&mut self, tag: u64, request: u64, report: &Verification)
        requires room { HasRoom self.old request report.now }
        requires request { request < 2 ^ 63 }
        ensures { SaysMore self.old self.new tag request report.now }
    {
        if let Some(place) = place_before(request, report) {
            self.low.raise(place, u128::from(tag));
        }
        if let Some(place) = place_after(request, report) {
            self.high
                .raise(mirrored(place), PAST_TAGS - u128::from(tag));
        }
        if shows_begun(report) {
            self.begun = self.begun.max(request + 1);
        }
        self.shown.add(request, Shown::of(report));
        self.done.mark(request, done_steps(report));
        self.refused.mark(request, refused_steps(report));
    }
}

/// A place counted down from the last one.
fn mirrored(place: u64) -> u64
    ensures { result ≡ indexes.mirrored place }
{
    u64::MAX - place
}

/// The first request whose lower bound a report on a request raises to its tag.
fn place_before(request: u64, report: &Verification) -> Option<u64>
    requires { request < 2 ^ 63 }
    ensures { result ≡ indexes.place_before request report.now }
{
    match report {
        Verification::Accepted(_) | Verification::Refused(_, _) => Some(request),
        Verification::Started(_) | Verification::NotStarted(_, _) => Some(request),
        Verification::Completed(_) | Verification::Incomplete(_, _, _) => Some(request + 1),
        _ => None,
    }
}

/// The last request whose upper bound a report on a request lowers to its tag.
fn place_after(request: u64, report: &Verification) -> Option<u64>
    ensures { result ≡ indexes.place_after request report.now }
{
    match report {
        Verification::Completed(_) | Verification::Incomplete(_, _, _) => Some(request),
        Verification::Started(_) | Verification::NotStarted(_, _) => request.checked_sub(1),
        _ => None,
    }
}

/// Whether a report shows that its request was begun.
fn shows_begun(report: &Verification) -> bool
    ensures { result ≡ is_begun_report (Verify report.now) }
{
    match report {
        Verification::Accepted(_) | Verification::Refused(_, _) | Verification::NotRouted(_, _) =>
            false,
        _ => true,
    }
}

/// The instructions that a report tells to be executed.
fn done_steps(report: &Verification) -> &[u32]
    ensures { result.now ≡ indexes.done_steps report.now }
{
    match report {
        Verification::Step(_, step) => std::slice::from_ref(step),
        _ => &[],
    }
}

/// The instructions that a report tells to be refused.
fn refused_steps(report: &Verification) -> &[u32]
    ensures { result.now ≡ indexes.refused_steps report.now }
{
    match report {
        Verification::StepFailed(_, step, _) => std::slice::from_ref(step),
        Verification::Incomplete(_, _, steps) => steps.as_slice(),
        _ => &[],
    }
}
