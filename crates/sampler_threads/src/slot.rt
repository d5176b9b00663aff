//! One slot, with an arm for each sampler and one for the executor.
ghost use Rattle.std.specs.Prelude.{◌≡◌, ◌+◌, ◌<◌, ◌≤◌, ◌++◌, ℕ, List, length, reverse, IfOk, OnOk, IfErr, slice_index_or};
ghost use Rattle.std.specs.Thread.{IsSync, IsSend};
ghost use Rattle.hk_world.specs.declared.moment.Moment.{Moment};
ghost use Rattle.board_steps.specs.SlotRuns.{Ahead, IsPart, IsSlot, IsStopped};
ghost use Rattle.sampler_threads.specs.declared.item.Item.{Item};
ghost use Rattle.sampler_threads.specs.declared.slot.Sampler as spec_slot;
ghost use Rattle.sampler_threads.specs.Deeds.{Took, Deed};
ghost use Rattle.sampler_threads.specs.Executors.{core_of, rings_of};
ghost use Rattle.sampler_threads.specs.Rings.{Received, Stops};
ghost use Rattle.sampler_threads.specs.Samplings.{AreFresh, Filed, FiledPart};
ghost use Rattle.sampler_threads.specs.Slots.{AtEach, WithEach, MetSampler, KeptSampler, SettledSampler, IsSamplerOf, IsWhole, AreSampled, AreSmall, MaySampleAll, CanSampleAll, CanOrderAll, Served, IsReadyToClose, Ran, RanPart};

use crate::arms::{sample_each, serve};
use crate::end::SamplerEnd;
use crate::executor::Executor;
use crate::gate::Gate;
use crate::item::{Item, Order};
use crate::rings::{drain_all, meet_one};
use crate::steps::{count_moments, give};
use board_core::{BoardCore, BoardFault, Event};
use hk_base::{Items, Octets, Sensor, Tailoring};
use rtrb::Consumer;
use std::alloc::Global;
use std::sync::Wait;
use std::thread::{Threads, join_mut};

/// A sampler: its end of a ring, its sensor, and what it is to sample.
#[derive(Drop)]
pub struct Sampler<N> {
    pub end: SamplerEnd,
    pub sensor: N,
    pub orders: Items<Order>,
}

/// Runs a slot, and answers the number of new moments: an arm for each sampler and one for the executor run at once, then
/// all that was sent is taken, and the slot ends. The samplers hold the ends of this executor, in their order. Where no
/// thread can be made the arms run one after the other.
pub fn run_slot<R: Threads + Wait + Sync, N: Sensor + Send, G: Gate + Sync>(
    rt: &R,
    alloc: Global,
    executor: &mut Executor,
    samplers: &mut [Sampler<N>],
    uplinks: &[Octets],
    gate: &G,
) -> Result<u32, BoardFault>
    requires ends { WithEach IsSamplerOf (rings_of executor.old) samplers.old }
    requires orders { CanOrderAll (core_of executor.old).tailoring samplers.old }
    requires size { AreSmall uplinks.now }
    ensures ends { WithEach IsSamplerOf (rings_of executor.new) samplers.new }
    ensures slot { IfOk result (λ count. IsSlot uplinks.now (core_of executor.old) (core_of executor.new)) }
    ensures part { IfErr result (λ fault. (ahead : Ahead) × IsPart uplinks.now (core_of executor.old) ahead (core_of executor.new) × IsStopped ahead (core_of executor.new) fault) }
    ensures count { IfOk result (λ count. length (core_of executor.new).moments ≡ length (core_of executor.old).moments + count) }
    ensures ran { IfOk result (λ count. (deeds : List Deed) × Ran N.Sensor (core_of executor.old).tailoring uplinks.now (core_of executor.old) (rings_of executor.old) samplers.old deeds (core_of executor.new) (rings_of executor.new) samplers.new) }
    ensures ran_part { IfErr result (λ fault. (deeds : List Deed) × (ahead : Ahead) × RanPart N.Sensor (core_of executor.old).tailoring uplinks.now (core_of executor.old) (rings_of executor.old) samplers.old fault deeds ahead (core_of executor.new) (rings_of executor.new) samplers.new) }
    ensures filed { IfOk result (λ count. AreFresh (core_of executor.old) (rings_of executor.old) samplers.old → (k : ℕ) (s : spec_slot.Sampler N) → k < length samplers.old → (moments : List Moment) × ((core_of executor.new).moments ≡ reverse moments ++ (core_of executor.old).moments) × Filed N.Sensor (core_of executor.old).tailoring moments (slice_index_or samplers.old k s) (slice_index_or samplers.new k s)) }
    ensures filed_part { IfErr result (λ fault. AreFresh (core_of executor.old) (rings_of executor.old) samplers.old → (k : ℕ) (s : spec_slot.Sampler N) → k < length samplers.old → (moments : List Moment) × ((core_of executor.new).moments ≡ reverse moments ++ (core_of executor.old).moments) × FiledPart N.Sensor (core_of executor.old).tailoring moments (slice_index_or samplers.old k s)) }
{
    let Executor {
        core,
        tailoring,
        rings,
        ..
    } = executor;
    let _widths = tailoring.widths();
    let before = count_moments(core);
    let rings = rings.as_mut_slice();
    match run_and_close(rt, alloc, gate, tailoring, uplinks, core, rings, samplers) {
        Ok(()) => Ok(count_moments(core) - before),
        Err(fault) => Err(fault),
    }
}

/// Runs a slot to its end.
fn run_and_close<R: Threads + Wait + Sync, N: Sensor + Send, G: Gate + Sync>(
    rt: &R,
    alloc: Global,
    gate: &G,
    tailoring: &Tailoring,
    uplinks: &[Octets],
    core: &mut BoardCore,
    rings: &mut [Consumer<Item>],
    samplers: &mut [Sampler<N>],
) -> Result<(), BoardFault>
    requires tailoring { tailoring.now ≡ core.old.tailoring }
    requires ends { WithEach IsSamplerOf rings.old samplers.old }
    requires orders { CanOrderAll tailoring.now samplers.old }
    requires size { AreSmall uplinks.now }
    ensures tailoring { core.new.tailoring ≡ core.old.tailoring }
    ensures ends { WithEach IsSamplerOf rings.new samplers.new }
    ensures grown { length core.old.moments ≤ length core.new.moments }
    ensures ok { OnOk result ((deeds : List Deed) × Ran N.Sensor tailoring.now uplinks.now core.old rings.old samplers.old deeds core.new rings.new samplers.new) }
    ensures err { IfErr result (λ fault. (deeds : List Deed) × (ahead : Ahead) × RanPart N.Sensor tailoring.now uplinks.now core.old rings.old samplers.old fault deeds ahead core.new rings.new samplers.new) }
{
    if let Err(fault) = run_open(rt, alloc, gate, tailoring, uplinks, core, rings, samplers) {
        return Err(fault);
    }
    give(core, Event::CloseSlot)
}

/// Runs a slot, but for its end.
fn run_open<R: Threads + Wait + Sync, N: Sensor + Send, G: Gate + Sync>(
    rt: &R,
    alloc: Global,
    gate: &G,
    tailoring: &Tailoring,
    uplinks: &[Octets],
    core: &mut BoardCore,
    rings: &mut [Consumer<Item>],
    samplers: &mut [Sampler<N>],
) -> Result<(), BoardFault>
    requires tailoring { tailoring.now ≡ core.old.tailoring }
    requires ends { WithEach IsSamplerOf rings.old samplers.old }
    requires orders { CanOrderAll tailoring.now samplers.old }
    requires size { AreSmall uplinks.now }
    ensures ends { WithEach IsSamplerOf rings.new samplers.new }
    ensures whole { WithEach IsWhole rings.new samplers.new }
    ensures served { (deeds : List Deed) × (ahead : Ahead) × Served uplinks.now core.old rings.old deeds ahead core.new rings.new × OnOk result (IsReadyToClose ahead core.new) × IfErr result (IsStopped ahead core.new) }
    ensures ok { OnOk result (WithEach SettledSampler rings.new samplers.new × AreSampled N.Sensor tailoring.now samplers.old samplers.new) }
    ensures may { MaySampleAll N.Sensor tailoring.now samplers.old samplers.new }
{
    if let Err(fault) = settle_samplers(core, tailoring, rings, samplers) {
        return Err(fault);
    }
    let served = run_arms(rt, alloc, gate, tailoring, uplinks, core, rings, samplers);
    if let Err(fault) = served {
        meet_samplers(rings, samplers);
        return Err(fault);
    }
    settle_samplers(core, tailoring, rings, samplers)
}

/// Takes all that the samplers have sent.
fn settle_samplers<N>(
    core: &mut BoardCore,
    tailoring: &Tailoring,
    rings: &mut [Consumer<Item>],
    samplers: &mut [Sampler<N>],
) -> Result<(), BoardFault>
    requires tailoring { tailoring.now ≡ core.old.tailoring }
    requires ends { WithEach IsSamplerOf rings.old samplers.old }
    ensures taken { (takings : List (ℕ × Item)) × Took core.old takings core.new × Received rings.old takings rings.new }
    ensures ends { WithEach IsSamplerOf rings.new samplers.new }
    ensures whole { WithEach IsWhole rings.new samplers.new }
    ensures kept { AtEach KeptSampler rings.old rings.new samplers.old samplers.new }
    ensures settled { OnOk result (WithEach SettledSampler rings.new samplers.new) }
    ensures err { IfErr result (Stops core.new) }
{
    meet_samplers(rings, samplers);
    let drained = drain_all(core, tailoring, rings);
    meet_samplers(rings, samplers);
    drained
}

fn meet_samplers<N>(rings: &mut [Consumer<Item>], samplers: &mut [Sampler<N>])
    requires { WithEach IsSamplerOf rings.old samplers.old }
    ensures { AtEach MetSampler rings.old rings.new samplers.old samplers.new }
{
    for k in 0..rings.len() {
        meet_sampler(&mut rings[k], &mut samplers[k]);
    }
}

fn meet_sampler<N>(ring: &mut Consumer<Item>, sampler: &mut Sampler<N>)
    requires { IsSamplerOf ring.old sampler.old }
    ensures { MetSampler ring.old ring.new sampler.old sampler.new }
{
    meet_one(ring, &mut sampler.end);
}

/// All arms at once: those of the samplers, and that of the executor.
fn run_arms<R: Threads + Wait + Sync, N: Sensor + Send, G: Gate + Sync>(
    rt: &R,
    alloc: Global,
    gate: &G,
    tailoring: &Tailoring,
    uplinks: &[Octets],
    core: &mut BoardCore,
    rings: &mut [Consumer<Item>],
    samplers: &mut [Sampler<N>],
) -> Result<(), BoardFault>
    requires tailoring { tailoring.now ≡ core.old.tailoring }
    requires samplers { CanSampleAll tailoring.now samplers.old }
    requires size { AreSmall uplinks.now }
    ensures sampled { AreSampled N.Sensor tailoring.now samplers.old samplers.new }
    ensures served { (deeds : List Deed) × (ahead : Ahead) × Served uplinks.now core.old rings.old deeds ahead core.new rings.new × OnOk result (IsReadyToClose ahead core.new) × IfErr result (IsStopped ahead core.new) }
{
    let (_, served) = join_mut(
        rt,
        &mut ||
            requires { IsSync R.row × IsSync G.row × IsSend N.row × CanSampleAll tailoring.now samplers.now }
            ensures { AreSampled N.Sensor tailoring.entry.now samplers.entry.now samplers.exit.now }
        { sample_each(rt, gate, tailoring, samplers) },
        &mut || -> Result<(), BoardFault>
            requires { (tailoring.now ≡ core.now.tailoring) × AreSmall uplinks.now }
            ensures { (deeds : List Deed) × (ahead : Ahead) × Served uplinks.entry.now core.entry.now rings.entry.now deeds ahead core.exit.now rings.exit.now × OnOk result (IsReadyToClose ahead core.exit.now) × IfErr result (IsStopped ahead core.exit.now) }
        { serve(rt, alloc, gate, tailoring, uplinks, core, rings) },
    );
    served
}
