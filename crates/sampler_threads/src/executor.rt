//! What owns the core, and takes samples out of the rings.
ghost use Rattle.std.specs.Prelude.{◌≡◌, ◌≤◌, vec_len};

use crate::end::SamplerEnd;
use crate::item::{Item, Order};
use crate::orders::orders_of;
use crate::rings::{drain_rings, meet_one};
use crate::steps::count_moments;
use board_core::{BoardCore, BoardFault, Event};
use hk_base::{Items, Memory, Tailoring};
use rtrb::{Consumer, RingBuffer};
use std::alloc::Global;

/// A core with its ends of the rings, one for each sampler. The tailoring is a copy of the core's: samplers read it while
/// the core is at work.
#[derive(Drop)]
pub struct Executor {
    alloc: Global,
    pub(crate) core: BoardCore,
    pub(crate) tailoring: Tailoring,
    pub(crate) rings: Vec<Consumer<Item>>,
    ghost same: { tailoring ≡ core.tailoring },
    ghost some: { 1 ≤ vec_len rings },
    ghost few: { vec_len rings ≤ 16 },
}

impl Executor {
    ghost use Rattle.std.specs.Prelude.{◌≤◌, ◌+◌, ℕ, List, length, IfOk, OnOk, IfErr};
    ghost use Rattle.board_steps.specs.Steps.{Answers};
    ghost use Rattle.board_steps.specs.declared.event.Event.TheVariants.{CloseSlot};
    ghost use Rattle.sampler_threads.specs.declared.item.Item.{Item};
    ghost use Rattle.sampler_threads.specs.Executors.{core_of, rings_of, count_of};
    ghost use Rattle.sampler_threads.specs.Orders.{orders_for};
    ghost use Rattle.sampler_threads.specs.Deeds.{Took};
    ghost use Rattle.sampler_threads.specs.Rings.{Received, TookKnown, TookInTurn, Stops};
    ghost use Rattle.sampler_threads.specs.Samplings.{HavePlaces};
    ghost use Rattle.sampler_threads.specs.Slots.{WithEach, AtEach, IsEndOf, FreshEnd, MetEnd, KeptEnd, Settled};

    /// An executor for 1 to 16 samplers, with the ends for them. The rings take their memory here.
    pub fn new(
        alloc: Global,
        core: BoardCore,
        samplers: u32,
    ) -> Result<(Executor, Items<SamplerEnd>), Memory>
        requires { (1 ≤ samplers) × (samplers ≤ 16) }
        ensures core { IfOk result (λ r. core_of r.0 ≡ core) }
        ensures count { IfOk result (λ r. count_of r.0 ≡ samplers) }
        ensures ends { IfOk result (λ r. WithEach FreshEnd (rings_of r.0) r.1) }
        ensures places { IfOk result (λ r. HavePlaces core.tailoring samplers r.1) }
    {
        let tailoring = core.tailoring().copy(alloc)?;
        let mut rings = Vec::new(alloc);
        let mut ends = Vec::new(alloc);
        make_rings(alloc, &tailoring, samplers, &mut rings, &mut ends)?;
        let executor = Executor {
            alloc,
            core,
            tailoring,
            rings,
        };
        Ok((executor, Items::from_vec(ends)))
    }

    /// The orders of a sampler for the slot that runs: one for each of its parameters, in the order of the tailoring.
    pub fn orders(&self, sampler: u32) -> Result<Items<Order>, Memory>
        ensures { IfOk result (λ orders. orders ≡ orders_for (core_of self.now).tailoring (count_of self.now) sampler (core_of self.now).slot_now) }
    {
        orders_of(
            self.alloc,
            &self.tailoring,
            self.rings.len() as u32,
            sampler,
            self.core.slot_now(),
        )
    }

    /// Learns of every item that the ends have sent. It takes none.
    pub fn meet(&mut self, ends: &mut [SamplerEnd])
        requires { WithEach IsEndOf (rings_of self.old) ends.old }
        ensures core { core_of self.new ≡ core_of self.old }
        ensures met { AtEach MetEnd (rings_of self.old) (rings_of self.new) ends.old ends.new }
    {
        meet_ends(self.rings.as_mut_slice(), ends);
    }

    /// Takes items out of the rings and files them, and answers the number of new moments. An item with no value is dropped,
    /// and so is one that may not be filed.
    pub fn drain(&mut self) -> Result<u32, BoardFault>
        ensures taken { (takings : List (ℕ × Item)) × Took (core_of self.old) takings (core_of self.new) × Received (rings_of self.old) takings (rings_of self.new) × TookInTurn (rings_of self.old) takings × OnOk result (TookKnown (rings_of self.old) takings) }
        ensures count { IfOk result (λ count. length (core_of self.new).moments ≡ length (core_of self.old).moments + count) }
        ensures err { IfErr result (Stops (core_of self.new)) }
    {
        let Executor {
            core,
            tailoring,
            rings,
            ..
        } = self;
        let before = count_moments(core);
        let rings = rings.as_mut_slice();
        match drain_rings(core, tailoring, rings) {
            Ok(()) => Ok(count_moments(core) - before),
            Err(fault) => Err(fault),
        }
    }

    /// Takes all that the ends have sent, as `meet` and then `drain` do, and answers the number of new moments.
    pub fn settle(&mut self, ends: &mut [SamplerEnd]) -> Result<u32, BoardFault>
        requires { WithEach IsEndOf (rings_of self.old) ends.old }
        ensures taken { (takings : List (ℕ × Item)) × Took (core_of self.old) takings (core_of self.new) × Received (rings_of self.old) takings (rings_of self.new) }
        ensures ends { WithEach IsEndOf (rings_of self.new) ends.new }
        ensures kept { AtEach KeptEnd (rings_of self.old) (rings_of self.new) ends.old ends.new }
        ensures settled { OnOk result (WithEach Settled (rings_of self.new) ends.new) }
        ensures count { IfOk result (λ count. length (core_of self.new).moments ≡ length (core_of self.old).moments + count) }
        ensures err { IfErr result (Stops (core_of self.new)) }
    {
        self.meet(ends);
        let drained = self.drain();
        self.meet(ends);
        drained
    }

    /// Ends the slot, and answers the number of new moments.
    pub fn close_slot(&mut self) -> Result<u32, BoardFault>
        ensures step { Answers (core_of self.old) CloseSlot (core_of self.new) result }
        ensures rings { rings_of self.new ≡ rings_of self.old }
    {
        self.core.step(Event::CloseSlot)
    }

    /// The core.
    pub fn core(&self) -> &BoardCore
        ensures { result.now ≡ core_of self.now }
    {
        &self.core
    }

    /// Gives the core back.
    pub fn finish(self) -> BoardCore
        ensures { result ≡ core_of self }
    {
        let Executor {
            alloc: _,
            core,
            tailoring: _,
            rings: _,
        } = self;
        core
    }
}

ghost use Rattle.std.specs.Prelude.{◌+◌, [], IfOk, OnOk};
ghost use Rattle.sampler_threads.specs.Samples.{places_of};
ghost use Rattle.sampler_threads.specs.Samplings.{HavePlaces};
ghost use Rattle.sampler_threads.specs.Slots.{WithEach, AtEach, IsEndOf, FreshEnd, MetEnd};

/// The two ends of each ring look at each other.
fn meet_ends(rings: &mut [Consumer<Item>], ends: &mut [SamplerEnd])
    requires { WithEach IsEndOf rings.old ends.old }
    ensures { AtEach MetEnd rings.old rings.new ends.old ends.new }
{
    for k in 0..rings.len() {
        meet_one(&mut rings[k], &mut ends[k]);
    }
}

/// Makes a ring for each sampler, with one place more than it has parameters.
fn make_rings(
    alloc: Global,
    tailoring: &Tailoring,
    samplers: u32,
    rings: &mut Vec<Consumer<Item>>,
    ends: &mut Vec<SamplerEnd>,
) -> Result<(), Memory>
    requires samplers { (1 ≤ samplers) × (samplers ≤ 16) }
    requires empty { (rings.old.items ≡ []) × (ends.old.items ≡ []) }
    ensures count { OnOk result (vec_len rings.new ≡ samplers) }
    ensures ends { OnOk result (WithEach FreshEnd rings.new.items ends.new.items) }
    ensures places { OnOk result (HavePlaces tailoring.now samplers ends.new.items) }
{
    for sampler in 0..samplers {
        let orders = orders_of(alloc, tailoring, samplers, sampler, 0)?;
        let (ring, end) = make_ring(alloc, orders.as_slice().len())?;
        rings.push(ring)?;
        ends.push(end)?;
    }
    Ok(())
}

/// A ring with one place more than so many.
fn make_ring(alloc: Global, orders: usize) -> Result<(Consumer<Item>, SamplerEnd), Memory>
    requires { orders ≤ 512 }
    ensures fresh { IfOk result (λ r. FreshEnd r.0 r.1) }
    ensures places { IfOk result (λ r. places_of r.1 ≡ orders + 1) }
{
    let (producer, consumer) = RingBuffer::new(alloc, orders + 1)?;
    Ok((consumer, SamplerEnd { producer }))
}
