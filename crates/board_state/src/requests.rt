//! The requests that were handled, and those that wait.
ghost use Rattle.std.specs.Prelude.{◌≡◌, ◌≤◌, ◌<◌, ◌+◌, ◌-◌, ◌++◌, ◌∷◌, [], length, take, drop, replicate, slice_get, IfOk, IfSome, OnOk, OnErr};
ghost use Rattle.std.specs.Option.{option_copied};
ghost use Rattle.pus_messages.specs.Instructions.{instructions};
ghost use Rattle.board_steps.specs.Plans.{with_request};
ghost use Rattle.board_state.specs.Waiting.{RequestsHeld, Stays, first_started, first_done, first_refused, next_refused};

use crate::running::Running;
use hk_base::{Items, Memory, Octets};
use std::alloc::Global;
use std::collections::VecDeque;
use std::marker::Model;

/// The packets of the requests that were handled, by number, and the accepted requests that haven't ended.
#[derive(Drop)]
pub struct Requests {
    alloc: Global,
    /// No octets where a number was passed over.
    packets: Vec<Octets>,
    waiting: VecDeque<Running>,
}

impl Model for Requests {
    ghost use Rattle.board_state.specs.Waiting.{RequestsHeld, AreHeld};

    ghost Value = { RequestsHeld };

    ghost view = { λ r. record { packets = r.packets.items; waiting = r.waiting.items } };

    ghost invariant = { λ r. AreHeld r.packets.items r.waiting.items };
}

impl Requests {
    pub fn new(alloc: Global) -> Requests
        ensures { result ≡ record { packets = []; waiting = [] } }
    {
        Requests {
            alloc,
            packets: Vec::new(alloc),
            waiting: VecDeque::new(alloc),
        }
    }

    /// The least number that a request can have now.
    pub fn next_number(&self) -> u64
        ensures next { result ≡ length self.now.packets }
        ensures most { result ≤ 16384 }
        ensures fewer { length self.now.waiting ≤ result }
    {
        self.packets.len() as u64
    }

    pub fn waiting(&self) -> u32
        ensures { result ≡ length self.now.waiting }
    {
        self.waiting.len() as u32
    }

    /// The request that is worked on.
    pub fn first(&self) -> Option<&Running>
        ensures first { option_copied result ≡ slice_get self.now.waiting 0 }
        ensures few { IfSome result (λ w. length (instructions w.now.request) ≤ 255) }
    {
        self.waiting.get(0)
    }

    /// Keeps the packet of a request.
    pub fn keep(&mut self, number: u64, packet: Octets) -> Result<(), Memory>
        requires next { length self.old.packets ≤ number }
        requires most { number < 16384 }
        ensures ok { OnOk result (self.new ≡ record self.old { packets = with_request self.old.packets number packet }) }
        ensures err { OnErr result (self.new ≡ self.old) }
    {
        let kept = self.packets.len();
        if let Err(memory) = append_packet(self.alloc, &mut self.packets, number, packet) {
            self.packets.truncate(kept);
            return Err(memory);
        }
        Ok(())
    }

    /// Keeps the packet of a request that was accepted, which waits from then on.
    pub fn accept(&mut self, packet: Octets, running: Running) -> Result<(), Memory>
        requires next { length self.old.packets ≤ running.number }
        requires most { running.number < 16384 }
        requires few { length (instructions running.request) ≤ 255 }
        ensures ok { OnOk result (self.new ≡ record { packets = with_request self.old.packets running.number packet; waiting = self.old.waiting ++ running ∷ [] }) }
        ensures err { OnErr result (self.new ≡ self.old) }
    {
        let kept = self.packets.len();
        if let Err(memory) = append_packet(self.alloc, &mut self.packets, running.number, packet) {
            self.packets.truncate(kept);
            return Err(memory);
        }
        if self.waiting.push_back(running).is_err() {
            self.packets.truncate(kept);
            return Err(Memory);
        }
        Ok(())
    }

    /// Forgets the last request, and the packets from this number on.
    pub fn withdraw_accepted(&mut self, number: u64)
        requires fewer { length self.old.waiting ≤ number + 1 }
        requires most { number ≤ 16384 }
        ensures { self.new ≡ record { packets = take number self.old.packets; waiting = take (length self.old.waiting - 1) self.old.waiting } }
    {
        self.waiting.pop_back();
        self.withdraw(number);
    }

    /// The request that is worked on has started.
    pub fn start_first(&mut self)
        ensures { self.new ≡ record self.old { waiting = first_started self.old.waiting } }
    {
        if let Some(running) = self.waiting.get_mut(0) {
            running.started = true;
        }
    }

    /// Ends the request that is worked on.
    pub fn end_first(&mut self)
        ensures { self.new ≡ record self.old { waiting = drop 1 self.old.waiting } }
    {
        self.waiting.pop_front();
    }

    /// An instruction of the request that is worked on was done.
    pub fn count_done(&mut self)
        requires { IfSome (slice_get self.old.waiting 0) (λ w. w.executed < length (instructions w.request)) }
        ensures { self.new ≡ record self.old { waiting = first_done self.old.waiting } }
    {
        if let Some(running) = self.waiting.get_mut(0) {
            running.executed += 1;
        }
    }

    /// The numbers of the refused instructions of the request that is worked on, with the next one.
    pub fn refused_next(&self) -> Result<Items<u32>, Memory>
        requires { IfSome (slice_get self.now.waiting 0) (λ w. w.executed < length (instructions w.request)) }
        ensures { IfOk result (λ numbers. numbers ≡ next_refused self.now.waiting) }
    {
        match self.first() {
            Some(running) => {
                let number = running.executed + 1;
                let mut numbers = Vec::from_slice(self.alloc, running.refused.as_slice())?;
                numbers.push(number)?;
                Ok(Items::from_vec(numbers))
            }
            None => Ok(Items::from_vec(Vec::new(self.alloc))),
        }
    }

    /// An instruction of the request that is worked on was refused: with it these are.
    pub fn count_refused(&mut self, refused: Items<u32>)
        requires { IfSome (slice_get self.old.waiting 0) (λ w. w.executed < length (instructions w.request)) }
        ensures { self.new ≡ record self.old { waiting = first_refused refused self.old.waiting } }
    {
        if let Some(running) = self.waiting.get_mut(0) {
            running.refused = refused;
            running.executed += 1;
        }
    }

    /// Forgets the packets from this number on.
    pub fn withdraw(&mut self, number: u64)
        requires { length self.old.waiting ≤ number }
        ensures { self.new ≡ record self.old { packets = take number self.old.packets } }
    {
        self.packets.truncate(number as usize);
    }
}

/// Puts a packet under a number that is the next or a later one.
fn append_packet(
    alloc: Global,
    packets: &mut Vec<Octets>,
    number: u64,
    packet: Octets,
) -> Result<(), Memory>
    requires { length packets.old.items ≤ number }
    ensures ok { OnOk result (packets.new.items ≡ with_request packets.old.items number packet) }
    ensures kept { Stays packets.old.items packets.new.items }
{
    let missing = number - packets.len() as u64;
    for _passed in 0..missing {
        packets.push(Octets::from_vec(Vec::new(alloc)))?;
    }
    packets.push(packet)?;
    Ok(())
}
