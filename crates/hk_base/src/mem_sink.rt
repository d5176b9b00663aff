//! A sink in memory, which fails at calls that are listed.
ghost use Rattle.std.specs.Prelude.{◌≡◌, ◌≤◌, ◌<◌, Some, [], length, IfOk, OnErr, IfSome};
ghost use Rattle.std.specs.Result.{result_ok};
ghost use Rattle.hk_base.specs.Memory.{sink_room, sink_after, write_count};
ghost use Rattle.hk_base.specs.Outside.{Counts, IsCount, Takes, UsesRoom};

use crate::list::Items;
use crate::listed::{is_next_listed, raise};
use crate::outside::{Failed, Sink};
use crate::types::Memory;
use std::alloc::Global;
use std::marker::Model;

/// Output in memory. Its calls are numbered from 1, and those whose numbers are listed fail.
#[derive(Drop)]
pub struct MemSink {
    taken: Vec<u8>,
    failing: Items<u32>,
    most: u32,
    room: u32,
    calls: u64,
    faults: u64,
}

impl Model for MemSink {
    ghost use Rattle.std.specs.Prelude.{◌≤◌, ◌+◌, vec_len, vec_capacity};
    ghost use Rattle.hk_base.specs.Memory.{SinkState};

    ghost Value = { SinkState };

    ghost view = { λ s. record { taken = s.taken.items; failing = s.failing; most = s.most; room = s.room; calls = s.calls; faults = s.faults } };

    ghost invariant = { λ s. (1 ≤ s.most) × (vec_len s.taken + s.room ≤ vec_capacity s.taken) };
}

impl MemSink {
    /// A sink with room for so many octets, whose writes take at most `most` of them. It takes its memory here.
    pub fn new(alloc: Global, failing: Items<u32>, most: u32, room: u32) -> Result<MemSink, Memory>
        requires { 1 ≤ most }
        ensures { IfOk result (λ sink. sink ≡ record { taken = []; failing = failing; most = most; room = room; calls = 0; faults = 0 }) }
    {
        Ok(MemSink {
            taken: Vec::with_capacity(alloc, room as usize)?,
            failing,
            most,
            room,
            calls: 0,
            faults: 0,
        })
    }

    /// The octets that it took.
    pub fn taken(&self) -> &[u8]
        ensures { result.now ≡ self.now.taken }
    {
        self.taken.as_slice()
    }
}

impl Sink for MemSink {
    ghost faults = { λ s. s.faults };

    ghost taken = { λ s. Some s.taken };

    ghost room = { sink_room };

    fn write(&mut self, piece: &[u8]) -> Result<usize, Failed>
        requires { 0 < length piece.now }
        ensures count { Counts self.old.faults self.new.faults result }
        ensures bound { IsCount self.new.faults }
        ensures within { IfOk result (λ n. (0 < n) × (n ≤ length piece.now)) }
        ensures took { IfOk result (λ n. Takes (Some self.old.taken) n piece.now (Some self.new.taken)) }
        ensures kept { OnErr result (Some self.new.taken ≡ Some self.old.taken) }
        ensures room { IfSome (sink_room self.old) (λ left. UsesRoom left result (sink_room self.new)) }
        ensures answer { result_ok result ≡ write_count self.old piece.now }
        ensures state { self.new ≡ sink_after self.old piece.now (write_count self.old piece.now) }
    {
        if is_next_listed(&mut self.calls, self.failing.as_slice()) || self.room == 0 {
            return Err(raise(&mut self.faults));
        }
        let count = (self.most as usize).min((self.room as usize).min(piece.len()));
        match self.taken.extend_from_slice(&piece[..count]) {
            Ok(()) => {
                self.room -= count as u32;
                Ok(count)
            }
            Err(_) => Err(raise(&mut self.faults)),
        }
    }
}
