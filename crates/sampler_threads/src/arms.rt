//! The arms of a slot.
ghost use Rattle.std.specs.Prelude.{◌≡◌, ◌+◌, ◌<◌, ◌≤◌, ◌^◌, ℕ, List, ◌++◌, length, OnOk, IfErr, min};
ghost use Rattle.body_fields.specs.Spelling.{AreOctets};
ghost use Rattle.hk_base.specs.Outside.{GivesAlike, StaysSure, most_faults};
ghost use Rattle.board_steps.specs.declared.event.Event.TheVariants.{Uplink};
ghost use Rattle.board_steps.specs.Runs.{IsMade};
ghost use Rattle.board_steps.specs.SlotRuns.{Ahead, IsIdle, IsStopped, Refuses, at_work, waiting};
ghost use Rattle.sampler_threads.specs.declared.item.Item.{Item};
ghost use Rattle.sampler_threads.specs.Samples.{SameEnd, sent_by, free_of};
ghost use Rattle.sampler_threads.specs.Deeds.{Deed, takings, Went};
ghost use Rattle.sampler_threads.specs.Rings.{Received};
ghost use Rattle.sampler_threads.specs.Slots.{AreKnown, AreReadings, AreSmall, failures, Sampled, AreSampled, CanSample, CanSampleAll, Served, ServedFrom, IsUplinkNext, IsReadyToClose};

use crate::end::SamplerEnd;
use crate::gate::{At, Gate};
use crate::item::{Item, Order, Taken};
use crate::rings::drain_all;
use crate::slot::Sampler;
use crate::steps::{count_moments, give};
use board_core::{BoardCore, BoardFault, Event};
use hk_base::{Items, Octets, Sensor, Tailoring};
use rtrb::Consumer;
use std::alloc::Global;
use std::sync::Wait;
use std::thread::{Threads, for_each_mut};

/// The samplers' arms: each takes its orders in a thread of its own.
pub(crate) fn sample_each<R: Threads + Wait + Sync, N: Sensor + Send, G: Gate + Sync>(
    rt: &R,
    gate: &G,
    tailoring: &Tailoring,
    samplers: &mut [Sampler<N>],
)
    requires { CanSampleAll tailoring.now samplers.old }
    ensures { AreSampled N.Sensor tailoring.now samplers.old samplers.new }
{
    if samplers.is_empty() {
        return;
    }
    let threads = samplers.len();
    for_each_mut(
        rt,
        samplers,
        threads,
        &|number, sampler| { sample(rt, gate, tailoring, number, sampler) },
    );
}

/// A sampler's arm.
fn sample<R: Wait, N: Sensor, G: Gate>(
    rt: &R,
    gate: &G,
    tailoring: &Tailoring,
    number: usize,
    sampler: &mut Sampler<N>,
)
    requires { CanSample tailoring.now sampler.old }
    ensures { Sampled N.Sensor tailoring.now sampler.old sampler.new }
{
    let Sampler {
        end,
        sensor,
        orders,
    } = sampler;
    take_orders(rt, gate, tailoring, number, orders.as_slice(), end, sensor);
}

fn take_orders<R: Wait, N: Sensor, G: Gate>(
    rt: &R,
    gate: &G,
    tailoring: &Tailoring,
    number: usize,
    orders: &[Order],
    end: &mut SamplerEnd,
    sensor: &mut N,
)
    requires known { AreKnown tailoring.now orders.now }
    requires room { length orders.now ≤ free_of end.old }
    ensures same { SameEnd end.old end.new }
    ensures items { (items : List Item) × (sent_by end.new ≡ sent_by end.old ++ items) × AreReadings N.Sensor tailoring.now sensor.old orders.now items × (min (N.faults sensor.old + failures items) most_faults ≤ N.faults sensor.new) }
    ensures gives { GivesAlike (N.gives sensor.old) (N.gives sensor.new) }
    ensures stays_sure { StaysSure (N.is_sure sensor.old) (N.is_sure sensor.new) }
{
    let number = u32::try_from(number).unwrap_or(u32::MAX);
    for order in orders {
        gate.pass(rt, At::Sampler(number));
        let Taken::Sent(_) = end.take(tailoring, *order, sensor) else {
            unreachable!();
        };
    }
}

/// The executor's arm.
pub(crate) fn serve<R: Wait, G: Gate>(
    rt: &R,
    alloc: Global,
    gate: &G,
    tailoring: &Tailoring,
    uplinks: &[Octets],
    core: &mut BoardCore,
    rings: &mut [Consumer<Item>],
) -> Result<(), BoardFault>
    requires tailoring { tailoring.now ≡ core.old.tailoring }
    requires size { AreSmall uplinks.now }
    ensures { (deeds : List Deed) × (ahead : Ahead) × Served uplinks.now core.old rings.old deeds ahead core.new rings.new × OnOk result (IsReadyToClose ahead core.new) × IfErr result (IsStopped ahead core.new) }
{
    gate.pass(rt, At::Executor);
    for packet in uplinks {
        if let Err(fault) = serve_one(alloc, tailoring, packet, core, rings) {
            return Err(fault);
        }
    }
    Ok(())
}

/// One uplink, and the work on it.
fn serve_one(
    alloc: Global,
    tailoring: &Tailoring,
    packet: &Octets,
    core: &mut BoardCore,
    rings: &mut [Consumer<Item>],
) -> Result<(), BoardFault>
    requires tailoring { tailoring.now ≡ core.old.tailoring }
    requires size { length packet.now ≤ 2 ^ 31 }
    ensures tailoring { core.new.tailoring ≡ core.old.tailoring }
    ensures went { (before : Ahead) (later : List (List ℕ)) → IsUplinkNext before core.old packet.now later → (deeds : List Deed) × (ahead : Ahead) × ServedFrom before core.old rings.old deeds ahead core.new rings.new × OnOk result (IsIdle ahead core.new × (ahead.packets ≡ later)) × IfErr result (IsStopped ahead core.new) }
{
    if let Err(fault) = drain_all(core, tailoring, rings) {
        return Err(fault);
    }
    if let Err(fault) = uplink(alloc, core, packet) {
        return Err(fault);
    }
    work(tailoring, core, rings)
}

/// Gives the core an uplink.
fn uplink(alloc: Global, core: &mut BoardCore, packet: &Octets) -> Result<(), BoardFault>
    requires { length packet.now ≤ 2 ^ 31 }
    ensures octets { AreOctets packet.now }
    ensures ok { OnOk result (IsMade core.old (Uplink packet.now) core.new) }
    ensures err { IfErr result (λ fault. (core.new ≡ core.old) × Refuses core.old (Uplink packet.now) fault) }
{
    let octets = packet.as_slice();
    are_octets(octets);
    let copy = Items::from_slice(alloc, octets)?;
    give(core, Event::Uplink(copy))
}

/// A law, which does nothing.
fn are_octets(octets: &[u8])
    ensures { AreOctets octets.now }
{}

/// Works until nothing waits.
fn work(
    tailoring: &Tailoring,
    core: &mut BoardCore,
    rings: &mut [Consumer<Item>],
) -> Result<(), BoardFault>
    requires { tailoring.now ≡ core.old.tailoring }
    ensures tailoring { core.new.tailoring ≡ core.old.tailoring }
    ensures went { (deeds : List Deed) × ((later : List (List ℕ)) → Went (at_work later) core.old deeds (at_work later) core.new) × Received rings.old (takings deeds) rings.new }
    ensures ok { OnOk result (waiting core.new ≡ 0) }
    ensures err { IfErr result (λ fault. (later : List (List ℕ)) → IsStopped (at_work later) core.new fault) }
{
    while core.waiting() > 0 {
        if let Err(fault) = work_once(tailoring, core, rings) {
            return Err(fault);
        }
    }
    Ok(())
}

/// Takes what was sent, and goes one step on with the first request that waits.
fn work_once(
    tailoring: &Tailoring,
    core: &mut BoardCore,
    rings: &mut [Consumer<Item>],
) -> Result<(), BoardFault>
    requires tailoring { tailoring.now ≡ core.old.tailoring }
    requires waiting { 0 < waiting core.old }
    ensures tailoring { core.new.tailoring ≡ core.old.tailoring }
    ensures went { (deeds : List Deed) × ((later : List (List ℕ)) → Went (at_work later) core.old deeds (at_work later) core.new) × Received rings.old (takings deeds) rings.new }
    ensures more { OnOk result ((length core.old.moments < length core.new.moments) × (length core.new.moments ≤ 1048576)) }
    ensures err { IfErr result (λ fault. (later : List (List ℕ)) → IsStopped (at_work later) core.new fault) }
{
    if let Err(fault) = drain_all(core, tailoring, rings) {
        return Err(fault);
    }
    if let Err(fault) = give(core, Event::Work) {
        return Err(fault);
    }
    let _count = count_moments(core);
    Ok(())
}
