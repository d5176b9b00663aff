//! The end of a slot: the values of settable parameters are filed, and what is due is reported.
ghost use Rattle.std.specs.Prelude.{◌≡◌, ◌≤◌, ◌<◌, ◌^◌, ◌+◌, ◌∷◌, ◌++◌, [], List, length, take, filter, map, true, Some, IfOk, IfSome, OnOk, if◌then◌else◌};
ghost use Rattle.std.specs.List.{All, AllByRecursion};
ghost use Rattle.board_steps.specs.Cores.{state_of};
ghost use Rattle.board_steps.specs.Plans as plans;
ghost use Rattle.board_steps.specs.Plans.{Topic, samples_of, due_topics, every_key, is_reported, prepared, planned, settables};
ghost use Rattle.board_steps.specs.Steps.{Answers};
ghost use Rattle.board_steps.specs.declared.event.Event.TheVariants.{CloseSlot};
ghost use Rattle.board_core.specs.Closing.{end_clock, end_settings, is_whole, with_filings, AreToFile, due_told, IsEndPayload, AreEndStatistics, IsDraftedTo, IsTelling, IsToTell, HasTime, AnswersOpening};
ghost use Rattle.board_core.specs.Planned.{AnswersPlan};

use crate::board::BoardCore;
use crate::log::Draft;
use crate::samples::{has_samples, payload_of};
use crate::statistics_work::{closed_members, statistics_report};
use board_state::{Channels, Members};
use board_steps::BoardFault;
use hk_base::{Key, Memory, Octets, greatest_tag};
use hk_world::Act;
use pus_messages::{ReportBody, requests_are_spelled};
use st03_grammar::Report03;
use st20_grammar::Setting;

/// What is reported at the end of a slot: structures by their keys, and the statistics.
#[derive(Drop)]
pub(crate) struct Due {
    keys: Vec<Key>,
    has_statistics: bool,
}

impl BoardCore {
    /// Ends the slot that runs.
    pub(crate) fn close_slot(&mut self) -> Result<u32, BoardFault>
        ensures { Answers self.old CloseSlot self.new result }
    {
        // A law, and the fitness of the tailoring: they do nothing.
        requests_are_spelled();
        let _fit = self.log.tailoring().widths();
        let slot = self.slot_now;
        let clock = self.end_clock();
        let settings = self.channels.settings(self.alloc)?;
        let members = closed_members(self.alloc, &self.members, slot, settings.as_slice())?;
        let draft = match self.closing_draft(settings.as_slice(), &members) {
            Ok(draft) => draft,
            Err(fault) => return Err(fault),
        };
        let count = self.log.commit(draft)?;
        self.clock = clock;
        self.members = members;
        file_settings(&mut self.channels, slot, settings.as_slice());
        self.structures.end_one_shots(slot);
        self.slot_now = slot + 1;
        Ok(count)
    }

    /// The moments of the end of the slot: the filings, and then the reports that are due.
    fn closing_draft(&self, settings: &[Setting], members: &Members) -> Result<Draft, BoardFault>
        requires settings { settings.now ≡ end_settings self.now }
        requires members { AreEndStatistics self.now members.now }
        ensures { AnswersPlan self.now CloseSlot result }
    {
        // A law, and the fitness of the tailoring: they do nothing.
        requests_are_spelled();
        let _fit = self.log.tailoring().widths();
        let filings = settings.len() as u64;
        let due = self.due(filings)?;
        let mut draft = match self.opening(filings + due.count()) {
            Ok(draft) => draft,
            Err(fault) => return Err(fault),
        };
        self.add_filings(settings, &mut draft)?;
        self.add_values(due.keys.as_slice(), &mut draft)?;
        self.add_due_statistics(due.has_statistics, members, &mut draft)?;
        Ok(draft)
    }

    /// The clock once the slot that runs has ended.
    fn end_clock(&self) -> u64
        ensures { result ≡ end_clock self.now }
    {
        let slot = self.log.tailoring().widths().slot;
        self.clock.max((self.slot_now + 1) * slot)
    }

    /// How many tags are left for reports behind so many filings: those before the end of the slot after the one that runs.
    fn tags_left(&self, filings: u64) -> u64
        requires { filings ≡ length (settables self.now.tailoring) }
        ensures left { result ≡ plans.tags_left (prepared self.now CloseSlot) }
        ensures small { result < 2 ^ 58 }
    {
        let slot = self.log.tailoring().widths().slot;
        let first = self.end_clock().max(self.log.last_tag() + 1);
        ((self.slot_now + 2) * slot)
            .saturating_sub(first)
            .saturating_sub(filings)
    }

    /// The reports that are due behind so many filings, no more than there are tags for.
    fn due(&self, filings: u64) -> Result<Due, Memory>
        requires { filings ≡ length (settables self.now.tailoring) }
        ensures told { IfOk result (λ due. due_told due ≡ take (plans.tags_left (prepared self.now CloseSlot)) (due_topics self.now)) }
        ensures reported { IfOk result (λ due. AllByRecursion (λ key. is_reported self.now key ≡ true) due.keys.items) }
        ensures few { IfOk result (λ due. length (due_told due) < 2 ^ 58) }
    {
        let _fit = self.log.tailoring().widths();
        let room = self.tags_left(filings);
        let mut keys = self.reported_keys()?;
        let has_statistics = (keys.len() as u64) < room && self.members.is_due(self.slot_now);
        keys.truncate(room as usize);
        Ok(Due {
            keys,
            has_statistics,
        })
    }

    /// The keys of the structures that are reported, in order.
    fn reported_keys(&self) -> Result<Vec<Key>, Memory>
        ensures { IfOk result (λ keys. keys.items ≡ filter (is_reported self.now) (every_key self.now.tailoring)) }
    {
        let _fit = self.log.tailoring().widths();
        let due = self.structures.due(self.alloc, self.slot_now)?;
        self.whole_keys(due.as_slice())
    }

    /// The keys of these structures that have a sample for each place.
    fn whole_keys(&self, due: &[Key]) -> Result<Vec<Key>, Memory>
        requires { All (λ key. IfSome ((state_of self.now).structure key) (λ x. x.def.interval ≤ self.now.slot_now + 1)) due.now }
        ensures { IfOk result (λ keys. keys.items ≡ filter (is_whole self.now) due.now) }
    {
        let mut keys = Vec::new(self.alloc);
        for key in due {
            if self.is_whole(*key) {
                keys.push(*key)?;
            }
        }
        Ok(keys)
    }

    /// Whether each place of a structure has a sample at the end of the slot.
    fn is_whole(&self, key: Key) -> bool
        requires { IfSome ((state_of self.now).structure key) (λ x. x.def.interval ≤ self.now.slot_now + 1) }
        ensures { result ≡ is_whole self.now key }
    {
        // A law, and the fitness of the tailoring: they do nothing.
        requests_are_spelled();
        let _fit = self.log.tailoring().widths();
        match self.structures.structure(key) {
            Some(structure) => has_samples(&self.channels, &structure.def, self.slot_now),
            None => false,
        }
    }

    /// A draft for so many moments, for which there is room and time, as the clock is at the end of the slot.
    fn opening(&self, count: u64) -> Result<Draft, BoardFault>
        requires count { count ≡ length (planned self.now CloseSlot) }
        requires few { count < 2 ^ 60 }
        ensures { AnswersOpening self.now result }
    {
        let clock = self.end_clock();
        let draft = match self.log.draft(clock, count) {
            Ok(draft) => draft,
            Err(fault) => return Err(fault),
        };
        if clock > greatest_tag(self.log.tailoring()) {
            return Err(BoardFault::TimeExhausted);
        }
        Ok(draft)
    }

    /// The values of settable parameters as samples of the slot.
    fn add_filings(&self, settings: &[Setting], draft: &mut Draft) -> Result<(), Memory>
        requires settings { settings.now ≡ end_settings self.now }
        requires draft { IsDraftedTo self.now [] draft.old }
        requires left { HasTime self.now (length settings.now) }
        ensures { OnOk result (IsTelling self.now [] draft.new) }
    {
        // A law, and the fitness of the tailoring: they do nothing.
        requests_are_spelled();
        let _fit = self.log.tailoring().widths();
        for setting in settings {
            let act = Act::Filed(setting.param, self.slot_now, setting.value);
            draft.add(self.alloc, self.log.tailoring(), act, None)?;
        }
        Ok(())
    }

    /// The reports of structures, one after the other.
    fn add_values(&self, keys: &[Key], draft: &mut Draft) -> Result<(), Memory>
        requires reported { AllByRecursion (λ key. is_reported self.now key ≡ true) keys.now }
        requires draft { IsTelling self.now [] draft.old }
        requires left { HasTime self.now (length (settables self.now.tailoring) + length keys.now) }
        ensures { OnOk result (IsTelling self.now (map samples_of keys.now) draft.new) }
    {
        for key in keys {
            self.add_value(*key, draft)?;
        }
        Ok(())
    }

    /// The report of a structure.
    fn add_value(&self, key: Key, draft: &mut Draft) -> Result<(), Memory>
        requires reported { is_reported self.now key ≡ true }
        requires draft { IsToTell self.now 1 draft.old }
        ensures { (topics : List Topic) → IsTelling self.now topics draft.old → OnOk result (IsTelling self.now (topics ++ samples_of key ∷ []) draft.new) }
    {
        // A law, and the fitness of the tailoring: they do nothing.
        requests_are_spelled();
        let _fit = self.log.tailoring().widths();
        let payload = self.payload(key)?;
        let body = ReportBody::Hk(Report03::Values(key, payload));
        draft.add(self.alloc, self.log.tailoring(), Act::Emitted, Some(body))
    }

    /// The payload of a structure whose samples are there.
    fn payload(&self, key: Key) -> Result<Octets, Memory>
        requires { is_reported self.now key ≡ true }
        ensures { IfOk result (IsEndPayload self.now key) }
    {
        // A law, and the fitness of the tailoring: they do nothing.
        requests_are_spelled();
        let tailoring = self.log.tailoring();
        let _fit = tailoring.widths();
        let Some(structure) = self.structures.structure(key) else {
            unreachable!();
        };
        payload_of(
            self.alloc,
            tailoring,
            &self.channels,
            &structure.def,
            self.slot_now,
        )
    }

    /// The report of the statistics, if it is due.
    fn add_due_statistics(
        &self,
        is_due: bool,
        members: &Members,
        draft: &mut Draft,
    ) -> Result<(), Memory>
        requires members { AreEndStatistics self.now members.now }
        requires draft { is_due ≡ true → IsToTell self.now 1 draft.old }
        ensures { (topics : List Topic) → IsTelling self.now topics draft.old → OnOk result (IsTelling self.now (topics ++ (if is_due then plans.statistics ∷ [] else [])) draft.new) }
    {
        if is_due {
            self.add_statistics(members, draft)
        } else {
            Ok(())
        }
    }

    /// The report of the statistics.
    fn add_statistics(&self, members: &Members, draft: &mut Draft) -> Result<(), Memory>
        requires members { AreEndStatistics self.now members.now }
        requires draft { IsToTell self.now 1 draft.old }
        ensures { (topics : List Topic) → IsTelling self.now topics draft.old → OnOk result (IsTelling self.now (topics ++ plans.statistics ∷ []) draft.new) }
    {
        // A law, and the fitness of the tailoring: they do nothing.
        requests_are_spelled();
        let tailoring = self.log.tailoring();
        let _fit = tailoring.widths();
        let tag = draft.next_tag();
        let body = statistics_report(self.alloc, tailoring, members, tag)?;
        draft.add(self.alloc, tailoring, Act::Emitted, Some(body))
    }
}

impl Due {
    /// How many reports are due.
    fn count(&self) -> u64
        ensures { result ≡ length (due_told self.now) }
    {
        let keys = self.keys.len() as u64;
        if self.has_statistics { keys + 1 } else { keys }
    }
}

/// Keeps the values of settable parameters as samples of a slot.
fn file_settings(channels: &mut Channels, slot: u64, settings: &[Setting])
    requires { AreToFile slot channels.old settings.now }
    ensures { channels.new ≡ with_filings slot settings.now channels.old }
{
    for setting in settings {
        channels.file(setting.param, slot, setting.value);
    }
}
