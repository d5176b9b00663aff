//! The core: what is kept of all that was done, and its accessors.
ghost use Rattle.std.specs.Prelude.{◌≡◌, ◌≤◌, ◌^◌, length, reverse, Ok, IfOk};
ghost use Rattle.std.specs.Option.{option_copied};
ghost use Rattle.hk_world.specs.Legal.{IsLegal};
ghost use Rattle.hk_world.specs.Honest.{IsHonest};
ghost use Rattle.board_steps.specs.Cores.{session, state_of, new_core};
ghost use Rattle.board_steps.specs.SlotRuns as slot_runs;
ghost use Rattle.board_steps.specs.Slots.{is_filed};
ghost use Rattle.board_steps.specs.Steps.{Answers, IsEvent, MayFile};
ghost use Rattle.board_steps.specs.declared.event.Event.TheVariants.{Clock, Filing};
ghost use Rattle.board_steps.specs.Added.{IsJournal};
ghost use Rattle.board_steps.specs.Timeline.{Stands};
ghost use Rattle.board_core.specs.Boards.{IsSmall};

use crate::log::Log;
use board_state::{Channels, Members, Requests, Structures};
use board_steps::{BoardFault, Event, Sample, journals};
use hk_base::{Key, Memory, Structure, Tailoring, Value};
use hk_world::{Act, Journal};
use pus_messages::requests_are_spelled;
use std::alloc::Global;
use std::marker::Model;

/// A board's application process.
#[derive(Drop)]
pub struct BoardCore {
    pub(crate) alloc: Global,
    pub(crate) clock: u64,
    pub(crate) slot_now: u64,
    pub(crate) requests: Requests,
    pub(crate) structures: Structures,
    pub(crate) channels: Channels,
    pub(crate) members: Members,
    pub(crate) log: Log,
}

impl Model for BoardCore {
    ghost use Rattle.board_steps.specs.Cores.{Core};
    ghost use Rattle.board_core.specs.Boards.{core_of, IsWhole};

    ghost Value = { Core };

    ghost view = { λ b. core_of b.clock b.slot_now b.requests b.structures b.log };

    ghost invariant = { λ b. IsWhole (core_of b.clock b.slot_now b.requests b.structures b.log) b.requests.waiting b.structures b.channels b.members };
}

impl BoardCore {
    /// A board at boot: the structures that its tailoring has from the start, the settable parameters with their initial
    /// values, and no moments. The windows of the latest samples take their memory here.
    pub fn new(alloc: Global, tailoring: Tailoring) -> Result<BoardCore, Memory>
        ensures { IfOk result (λ core. core ≡ new_core tailoring) }
    {
        // The fitness of the tailoring: it does nothing.
        let _fit = tailoring.widths();
        let structures = Structures::new(alloc, &tailoring)?;
        let channels = Channels::new(alloc, &tailoring)?;
        let requests = Requests::new(alloc);
        let members = Members::new(alloc);
        let log = Log::new(alloc, tailoring);
        Ok(BoardCore {
            alloc,
            clock: 0,
            slot_now: 0,
            requests,
            structures,
            channels,
            members,
            log,
        })
    }

    /// Does what an event asks, and gives the number of new moments. The journal is full where it would have more than
    /// 1,048,576 moments, and time is exhausted, after that, where a moment or the clock at the end of a slot would have a tag
    /// above the greatest one that a packet can carry; both come exactly so. After a fault all is as it was, also where
    /// there was no memory. A packet has at most 2^31 octets, and a sample is one that may be filed.
    pub fn step(&mut self, event: Event) -> Result<u32, BoardFault>
        requires comes { IsEvent self.old event }
        requires small { IsSmall event }
        ensures { Answers self.old event self.new result }
    {
        match event {
            Event::Uplink(octets) => self.uplink(octets),
            Event::Clock(tag) => Ok(self.set_clock(tag)),
            Event::Work => self.work(),
            Event::Filing(sample) => self.file(sample),
            Event::CloseSlot => self.close_slot(),
        }
    }

    /// The structure with this key.
    pub fn structure(&self, key: Key) -> Option<&Structure>
        ensures { option_copied result ≡ (state_of self.now).structure key }
    {
        self.structures.structure(key)
    }

    /// The value of the parameter with this ID.
    pub fn value(&self, param: u32) -> Option<Value>
        ensures { result ≡ (state_of self.now).value param }
    {
        self.channels.value(param)
    }

    /// Whether the parameter has a sample in the slot that runs.
    pub fn filed(&self, param: u32) -> bool
        ensures { result ≡ is_filed self.now param }
    {
        let _fit = self.log.tailoring().widths();
        self.channels.is_filed(param, self.slot_now)
    }

    /// The slot that runs.
    pub fn slot_now(&self) -> u64
        ensures { result ≡ self.now.slot_now }
    {
        self.slot_now
    }

    /// The number of accepted requests that haven't ended.
    pub fn waiting(&self) -> u32
        ensures { result ≡ slot_runs.waiting self.now }
    {
        self.requests.waiting()
    }

    /// What was done, the oldest moment first. It can be written and carried, and it is a legal and honest timeline that
    /// begins with the state at boot.
    pub fn journal(&self) -> &Journal
        ensures moments { reverse result.now ≡ self.now.moments }
        ensures bounds { IsJournal self.now }
        ensures stands { Stands self.now }
        ensures legal { IsLegal (session self.now) self.now.moments }
        ensures honest { IsHonest (session self.now) self.now.moments }
    {
        // A law, and the fitness of the tailoring: they do nothing.
        journals();
        let _fit = self.log.tailoring().widths();
        self.log.journal()
    }

    /// What the board is built for.
    pub fn tailoring(&self) -> &Tailoring
        ensures { result.now ≡ self.now.tailoring }
    {
        self.log.tailoring()
    }

    /// Sets the clock to a tag, unless it is later. There are no new moments.
    fn set_clock(&mut self, tag: u64) -> u32
        ensures { Answers self.old (Clock tag) self.new (Ok result) }
    {
        self.clock = self.clock.max(tag);
        0
    }

    /// Files a sample of a sensed parameter.
    fn file(&mut self, sample: Sample) -> Result<u32, BoardFault>
        requires { MayFile self.old sample }
        ensures { Answers self.old (Filing sample) self.new result }
    {
        // A law, and the fitness of the tailoring: they do nothing.
        requests_are_spelled();
        let _fit = self.log.tailoring().widths();
        let Sample { param, slot, value } = sample;
        let act = Act::Filed(param, slot, value);
        let count = self.log.add_one(self.clock, act, None)?;
        self.channels.file(param, slot, value);
        self.members.file(param, slot, value);
        Ok(count)
    }
}
