//! The journal as it is written. Moments are drafted with their packets, and then added together.
ghost use Rattle.std.specs.Prelude.{◌≡◌, ◌∷◌, Some, None, ◌+◌, ◌≤◌, ◌<◌, ◌^◌, max, [], ◌++◌, List, length, reverse, IfOk, IfSome, OnOk, OnErr};
ghost use Rattle.hk_base.specs.Fit.{IsFit};
ghost use Rattle.hk_base.specs.Fit as fit;
ghost use Rattle.board_steps.specs.Cores.{last_tag};
ghost use Rattle.board_core.specs.Logs as logs;
ghost use Rattle.board_core.specs.Logs.{LogParts, IsDraft, IsDrafted, IsWritable, AnswersDraft, AnswersOne, drafted, with_moments};

use crate::counters::Counters;
use crate::packets::packet_of;
use board_steps::BoardFault;
use hk_base::{Items, Memory, Octets, Tailoring, greatest_tag};
use hk_world::{Act, Journal, MOST_MOMENTS, Moment};
use pus_messages::{Report, ReportBody};
use std::alloc::Global;
use std::marker::Model;

/// Moments that are to be added to the journal, and what is known after them.
#[derive(Drop)]
pub(crate) struct Draft {
    pub(crate) clock: u64,
    pub(crate) last_tag: u64,
    pub(crate) counters: Counters,
    pub(crate) moments: Vec<Moment>,
}

impl Draft {
    /// The tag of the next moment.
    pub(crate) fn next_tag(&self) -> u64
        requires { self.now.last_tag < 2 ^ 60 }
        ensures { result ≡ max self.now.clock (self.now.last_tag + 1) }
    {
        self.clock.max(self.last_tag + 1)
    }

    /// A moment with its report, if it has one.
    pub(crate) fn add(
        &mut self,
        alloc: Global,
        tailoring: &Tailoring,
        act: Act,
        body: Option<ReportBody>,
    ) -> Result<(), Memory>
        requires writable { IfSome body (λ body. IsWritable tailoring.now body) }
        requires known { (l : LogParts) × (l.tailoring ≡ tailoring.now) × IsDraft l self.old }
        requires early { max self.old.clock (self.old.last_tag + 1) ≤ fit.greatest_tag tailoring.now }
        ensures { (l : LogParts) → l.tailoring ≡ tailoring.now → IsDraft l self.old → OnOk result (IsDrafted l self.old.clock act body self.old self.new) }
    {
        match body {
            Some(body) => self.add_report(alloc, tailoring, act, body),
            None => self.add_silent(alloc, tailoring, act),
        }
    }

    /// A moment with a report.
    fn add_report(
        &mut self,
        alloc: Global,
        tailoring: &Tailoring,
        act: Act,
        body: ReportBody,
    ) -> Result<(), Memory>
        requires writable { IsWritable tailoring.now body }
        requires known { (l : LogParts) × (l.tailoring ≡ tailoring.now) × IsDraft l self.old }
        requires early { max self.old.clock (self.old.last_tag + 1) ≤ fit.greatest_tag tailoring.now }
        ensures { (l : LogParts) → l.tailoring ≡ tailoring.now → IsDraft l self.old → OnOk result (IsDrafted l self.old.clock act (Some body) self.old self.new) }
    {
        let _fit = tailoring.widths();
        let tag = self.next_tag();
        let header = self.counters.header(tailoring, tag, &body);
        let report = Report { header, body };
        let packet = packet_of(alloc, tailoring, &report)?;
        self.push(tag, act, packet)?;
        self.counters.count(&report.body);
        Ok(())
    }

    /// A moment with no packet.
    fn add_silent(&mut self, alloc: Global, tailoring: &Tailoring, act: Act) -> Result<(), Memory>
        requires known { (l : LogParts) × (l.tailoring ≡ tailoring.now) × IsDraft l self.old }
        requires early { max self.old.clock (self.old.last_tag + 1) ≤ fit.greatest_tag tailoring.now }
        ensures { (l : LogParts) → l.tailoring ≡ tailoring.now → IsDraft l self.old → OnOk result (IsDrafted l self.old.clock act None self.old self.new) }
    {
        let _fit = tailoring.widths();
        let tag = self.next_tag();
        self.push(tag, act, Items::from_vec(Vec::new(alloc)))
    }

    fn push(&mut self, tag: u64, act: Act, packet: Octets) -> Result<(), Memory>
        ensures clock { self.new.clock ≡ self.old.clock }
        ensures counters { self.new.counters ≡ self.old.counters }
        ensures ok { OnOk result ((self.new.last_tag ≡ tag) × (self.new.moments.items ≡ self.old.moments.items ++ record { tag = tag; act = act; packet = packet } ∷ [])) }
    {
        self.moments.push(Moment { tag, act, packet })?;
        self.last_tag = tag;
        Ok(())
    }
}

/// The journal of a board, with what its next moments go on from.
#[derive(Drop)]
pub(crate) struct Log {
    alloc: Global,
    tailoring: Tailoring,
    counters: Counters,
    last_tag: u64,
    journal: Journal,
}

impl Model for Log {
    ghost use Rattle.std.specs.Prelude.{reverse};
    ghost use Rattle.board_core.specs.Logs.{LogParts, IsKept};

    ghost Value = { LogParts };

    ghost view = { λ l. record { tailoring = l.tailoring; moments = reverse l.journal } };

    ghost invariant = { λ l. IsKept l.tailoring (reverse l.journal) l.last_tag l.counters };
}

impl Log {
    /// No moments.
    pub(crate) fn new(alloc: Global, tailoring: Tailoring) -> Log
        ensures { result ≡ record { tailoring = tailoring; moments = [] } }
    {
        Log {
            alloc,
            tailoring,
            counters: Counters::START,
            last_tag: 0,
            journal: Journal::new(alloc),
        }
    }

    pub(crate) fn tailoring(&self) -> &Tailoring
        ensures { result.now ≡ self.now.tailoring }
    {
        &self.tailoring
    }

    /// The moments, the oldest first.
    pub(crate) fn journal(&self) -> &Journal
        ensures { reverse result.now ≡ self.now.moments }
    {
        &self.journal
    }

    /// The tag of the last moment, or 0.
    pub(crate) fn last_tag(&self) -> u64
        ensures last { result ≡ last_tag self.now.moments }
        ensures fit { result ≤ fit.greatest_tag self.now.tailoring }
        ensures small { result < 2 ^ 60 }
    {
        let _fit = self.tailoring.widths();
        self.last_tag
    }

    /// A draft for so many moments, for which there is room and time.
    pub(crate) fn draft(&self, clock: u64, count: u64) -> Result<Draft, BoardFault>
        requires { count < 2 ^ 60 }
        ensures { AnswersDraft self.now clock count result }
    {
        if u64::from(self.journal.len()) + count > u64::from(MOST_MOMENTS) {
            return Err(BoardFault::JournalFull);
        }
        if self.is_late(clock, count) {
            return Err(BoardFault::TimeExhausted);
        }
        Ok(Draft {
            clock,
            last_tag: self.last_tag,
            counters: self.counters,
            moments: Vec::new(self.alloc),
        })
    }

    /// Whether the last of so many moments would have a tag above the greatest.
    fn is_late(&self, clock: u64, count: u64) -> bool
        requires { count < 2 ^ 60 }
        ensures { result ≡ logs.is_late self.now clock count }
    {
        let greatest = greatest_tag(&self.tailoring);
        let first = clock.max(self.last_tag + 1);
        count > 0 && (first > greatest || greatest - first < count - 1)
    }

    /// Adds the moments of a draft.
    pub(crate) fn commit(&mut self, draft: Draft) -> Result<u32, Memory>
        requires draft { IsDraft self.old draft }
        requires room { length self.old.moments + length draft.moments.items ≤ 1048576 }
        ensures count { IfOk result (λ count. count ≡ length draft.moments.items) }
        ensures ok { OnOk result (self.new ≡ with_moments self.old (drafted self.old draft.moments.items)) }
        ensures err { OnErr result (self.new ≡ self.old) }
    {
        let Draft {
            clock: _,
            last_tag,
            counters,
            moments,
        } = draft;
        let count = moments.len() as u32;
        self.journal.add(Items::from_vec(moments))?;
        self.counters = counters;
        self.last_tag = last_tag;
        Ok(count)
    }

    /// Adds one moment, with its report if it has one.
    pub(crate) fn add_one(
        &mut self,
        clock: u64,
        act: Act,
        body: Option<ReportBody>,
    ) -> Result<u32, BoardFault>
        requires writable { IfSome body (λ body. IsWritable self.old.tailoring body) }
        ensures { AnswersOne self.old clock act body self.new result }
    {
        let mut draft = self.draft(clock, 1)?;
        draft.add(self.alloc, &self.tailoring, act, body)?;
        let count = self.commit(draft)?;
        Ok(count)
    }
}
