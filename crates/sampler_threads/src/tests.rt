ghost use Rattle.std.specs.Prelude.{◌≡◌, ◌<◌, ◌≤◌, length, IfOk, OnOk};
ghost use Rattle.sampler_threads.specs.Executors.{core_of, count_of, rings_of};
ghost use Rattle.sampler_threads.specs.Samples.{places_of};
ghost use Rattle.sampler_threads.specs.Samplings.{HavePlaces};
ghost use Rattle.sampler_threads.specs.Slots.{AreKnown, AreSmall, CanOrderAll, FreshEnd, IsEndOf, IsSamplerOf, WithEach};

use crate::{
    At, Executor, Freeway, Gate, Item, Order, Sampler, SamplerEnd, Taken, run_slot, samplers_of,
};
use board_core::{BoardCore, BoardFault};
use hk_base::{Items, Memory, Octets, TableSensor, Value, builtin};
use hk_world::{Act, Journal};
use std::alloc::Global;
use std::sync::Wait;
use std::sync::atomic::{AtomicU64, Ordering};
use std::test::Fail;
use std::thread;
use std::thread::Threads;

const MOST_TURNS: u32 = 100_000_000;

/// A gate that holds each arm at its first passage until all have come, for so many turns.
#[derive(Drop)]
struct Meeting {
    arms: u64,
    come: AtomicU64,
    all: AtomicU64,
    missed: AtomicU64,
}

fn meeting_of(arms: u64) -> Meeting {
    Meeting {
        arms,
        come: AtomicU64::new(0),
        all: AtomicU64::new(0),
        missed: AtomicU64::new(0),
    }
}

fn bit_of(at: At) -> u64 {
    match at {
        At::Executor => 1,
        At::Sampler(number) => 2 << (number % 32),
    }
}

impl Gate for Meeting {
    fn pass<R: Wait>(&self, _rt: &R, at: At) {
        let bit = bit_of(at);
        if self.come.fetch_or(bit, Ordering::SeqCst) & bit != 0 {
            return;
        }
        self.all.fetch_add(1, Ordering::SeqCst);
        for turn in 0..MOST_TURNS {
            if self.all.load(Ordering::SeqCst) >= self.arms
                || self.missed.load(Ordering::SeqCst) > 0
            {
                return;
            }
            if turn % 65_536 == 65_535 {
                thread::yield_now();
            }
        }
        self.missed.fetch_add(1, Ordering::SeqCst);
    }
}

/// A gate at which an arm lets others go first, at random.
#[derive(Drop)]
struct Turnstile {
    state: AtomicU64,
}

impl Gate for Turnstile {
    fn pass<R: Wait>(&self, _rt: &R, _at: At) {
        let state = self
            .state
            .fetch_add(0x9e37_79b9_7f4a_7c15, Ordering::SeqCst);
        let mixed = (state ^ (state >> 30)).wrapping_mul(0xbf58_476d_1ce4_e5b9);
        if mixed >> 62 == 0 {
            thread::yield_now();
        }
    }
}

fn value_of(order: Order) -> Value {
    if order.param == 4 { 1 } else { 7 }
}

/// A sensor with a fitting row for each order, that fails at this call, if it is one.
fn table(alloc: Global, orders: &[Order], failing: u32) -> Result<TableSensor, Memory> {
    let mut rows = Vec::new(alloc);
    for order in orders {
        rows.push((order.param, order.slot, value_of(*order)))?;
    }
    let failing = Items::from_slice(alloc, &[failing])?;
    Ok(TableSensor::new(Items::from_vec(rows), failing))
}

/// A sensor for each sampler of an executor. That of one of them fails at a call.
fn sensors(
    alloc: Global,
    executor: &Executor,
    count: u32,
    failing: (u32, u32),
) -> Result<Vec<TableSensor>, Memory> {
    let mut sensors = Vec::new(alloc);
    for number in 0..count {
        let orders = executor.orders(number)?;
        let call = if number == failing.0 { failing.1 } else { 0 };
        sensors.push(table(alloc, orders.as_slice(), call)?)?;
    }
    Ok(sensors)
}

const ENABLE_3: [u8; 13] = [0x18, 0x64, 0xc0, 0, 0, 6, 0x20, 3, 5, 0, 1, 1, 3];

const REPORT_7: [u8; 14] = [0x18, 0x64, 0xc0, 1, 0, 7, 0x20, 20, 1, 0, 1, 1, 0, 7];

/// The requests to enable housekeeping structure 3 and to report parameter 7.
fn uplinks(alloc: Global) -> Result<Vec<Octets>, Memory>
    ensures { IfOk result (λ v. AreSmall v.items) }
{
    let mut uplinks = Vec::new(alloc);
    uplinks.push(Items::from_slice(alloc, &ENABLE_3)?)?;
    uplinks.push(Items::from_slice(alloc, &REPORT_7)?)?;
    Ok(uplinks)
}

/// The parameters that were filed from this moment on, in order.
fn filed(alloc: Global, journal: &Journal, first: u32) -> Result<Vec<u32>, Memory> {
    let mut params = Vec::new(alloc);
    for number in first..journal.len() {
        if let Some(moment) = journal.at(number) {
            if let Act::Filed(param, _, _) = moment.act {
                params.push(param)?;
            }
        }
    }
    Ok(params)
}

/// Whether each order's parameter was filed once, in the order of the orders.
fn is_in_order(params: &[u32], orders: &[Order]) -> bool {
    let mut next = 0;
    for param in params {
        if orders.iter().any(|order| order.param == *param) {
            if next >= orders.len() || orders[next].param != *param {
                return false;
            }
            next += 1;
        }
    }
    next == orders.len()
}

/// Whether a packet is a report of housekeeping structure 3.
fn is_report(packet: &[u8]) -> bool {
    packet.len() > 19 && packet[7] == 3 && packet[8] == 25 && packet[19] == 3
}

/// How many such reports were sent from this moment on.
fn count_reports(journal: &Journal, first: u32) -> u32 {
    let mut count = 0u32;
    for number in first..journal.len() {
        if let Some(moment) = journal.at(number) {
            if is_report(moment.packet.as_slice()) {
                count = count.saturating_add(1);
            }
        }
    }
    count
}

/// What a slot filed and sent.
#[derive(Clone, Copy, Debug, PartialEq, Eq, Drop)]
struct Seen {
    /// How many values were filed.
    filed: usize,
    /// The parameter that was filed last.
    last: Option<u32>,
    /// Whether the parameters of each sampler were filed once, in the order of its orders.
    in_order: bool,
    /// How many reports of housekeeping structure 3 were sent.
    reports: u32,
}

/// A slot with 13 samples, and with the value of the parameter that is settable, which comes last.
const WHOLE: Seen = Seen {
    filed: 14,
    last: Some(7),
    in_order: true,
    reports: 0,
};

/// A board's executor with so many samplers' ends.
fn executor_of(alloc: Global, count: u32) -> Result<(Executor, Items<SamplerEnd>), Memory>
    requires { (1 ≤ count) × (count ≤ 16) }
    ensures fresh { IfOk result (λ r. WithEach FreshEnd (rings_of r.0) r.1) }
    ensures places { IfOk result (λ r. HavePlaces (core_of r.0).tailoring (count_of r.0) r.1) }
{
    let core = BoardCore::new(alloc, builtin(alloc)?)?;
    Executor::new(alloc, core, count)
}

/// Samplers with these ends of an executor, the sensor of one of which fails at a call.
fn samplers_with(
    alloc: Global,
    executor: &Executor,
    ends: Items<SamplerEnd>,
    count: u32,
    failing: (u32, u32),
) -> Result<Vec<Sampler<TableSensor>>, Memory>
    requires fresh { WithEach FreshEnd (rings_of executor.now) ends }
    requires places { HavePlaces (core_of executor.now).tailoring (count_of executor.now) ends }
    ensures ends { IfOk result (λ v. WithEach IsSamplerOf (rings_of executor.now) v.items) }
    ensures orders { IfOk result (λ v. CanOrderAll (core_of executor.now).tailoring v.items) }
{
    let sensors = sensors(alloc, executor, count, failing)?;
    if sensors.len() != ends.as_slice().len() {
        return Err(Memory);
    }
    samplers_of(alloc, executor, ends, sensors)
}

/// Gives a sampler its orders for the slot that runs, and a sensor that doesn't fail.
fn renew_one(
    alloc: Global,
    executor: &Executor,
    number: usize,
    sampler: &mut Sampler<TableSensor>,
) -> Result<(), Memory>
    ensures end { sampler.new.end ≡ sampler.old.end }
    ensures known { OnOk result (AreKnown (core_of executor.now).tailoring sampler.new.orders) }
    ensures room { OnOk result (length sampler.new.orders < places_of sampler.new.end) }
{
    let _fit = executor.core().tailoring().widths();
    let orders = executor.orders(u32::try_from(number).unwrap_or(u32::MAX))?;
    if orders.as_slice().len() >= sampler.end.producer.capacity() {
        return Err(Memory);
    }
    sampler.sensor = table(alloc, orders.as_slice(), 0)?;
    sampler.orders = orders;
    Ok(())
}

/// Gives all samplers their orders for the slot that runs.
fn renew(
    alloc: Global,
    executor: &Executor,
    samplers: &mut [Sampler<TableSensor>],
) -> Result<(), Memory>
    requires { WithEach IsSamplerOf (rings_of executor.now) samplers.old }
    ensures ends { OnOk result (WithEach IsSamplerOf (rings_of executor.now) samplers.new) }
    ensures orders { OnOk result (CanOrderAll (core_of executor.now).tailoring samplers.new) }
{
    for k in 0..samplers.len() {
        renew_one(alloc, executor, k, &mut samplers[k])?;
    }
    Ok(())
}

/// What was filed and sent from this moment on.
fn seen_from(
    alloc: Global,
    journal: &Journal,
    samplers: &[Sampler<TableSensor>],
    first: u32,
) -> Result<Seen, Memory> {
    let params = filed(alloc, journal, first)?;
    let mut in_order = true;
    for sampler in samplers {
        in_order &= is_in_order(params.as_slice(), sampler.orders.as_slice());
    }
    Ok(Seen {
        filed: params.len(),
        last: params.last().copied(),
        in_order,
        reports: count_reports(journal, first),
    })
}

/// Runs a slot.
fn see_slot<R: Threads + Wait + Sync, G: Gate + Sync>(
    rt: &R,
    alloc: Global,
    executor: &mut Executor,
    samplers: &mut [Sampler<TableSensor>],
    uplinks: &[Octets],
    gate: &G,
) -> Result<Seen, BoardFault>
    requires ends { WithEach IsSamplerOf (rings_of executor.old) samplers.old }
    requires orders { CanOrderAll (core_of executor.old).tailoring samplers.old }
    requires size { AreSmall uplinks.now }
    ensures { WithEach IsSamplerOf (rings_of executor.new) samplers.new }
{
    let first = executor.core().journal().len();
    run_slot(rt, alloc, executor, samplers, uplinks, gate)?;
    Ok(seen_from(alloc, executor.core().journal(), samplers, first)?)
}

/// Runs the next slot, without uplinks.
fn see_next<R: Threads + Wait + Sync, G: Gate + Sync>(
    rt: &R,
    alloc: Global,
    executor: &mut Executor,
    samplers: &mut [Sampler<TableSensor>],
    gate: &G,
) -> Result<Seen, BoardFault>
    requires { WithEach IsSamplerOf (rings_of executor.old) samplers.old }
    ensures { IfOk result (λ seen. WithEach IsSamplerOf (rings_of executor.new) samplers.new) }
{
    renew(alloc, executor, samplers)?;
    see_slot(rt, alloc, executor, samplers, &[], gate)
}

/// Runs so many slots, the first of them with the uplinks.
fn see_slots<R: Threads + Wait + Sync, G: Gate + Sync>(
    rt: &R,
    alloc: Global,
    executor: &mut Executor,
    samplers: &mut [Sampler<TableSensor>],
    slots: u32,
    gate: &G,
) -> Result<Vec<Seen>, BoardFault>
    requires ends { WithEach IsSamplerOf (rings_of executor.old) samplers.old }
    requires orders { CanOrderAll (core_of executor.old).tailoring samplers.old }
{
    let uplinks = uplinks(alloc)?;
    let mut seen = Vec::new(alloc);
    let first = see_slot(rt, alloc, executor, samplers, uplinks.as_slice(), gate)?;
    put(&mut seen, first)?;
    for _slot in 1..slots {
        let next = see_next(rt, alloc, executor, samplers, gate)?;
        put(&mut seen, next)?;
    }
    Ok(seen)
}

fn put(seen: &mut Vec<Seen>, slot: Seen) -> Result<(), Memory> {
    seen.push(slot)?;
    Ok(())
}

/// Runs the first slots of a board with so many samplers, the sensor of one of which fails at a call in the first slot.
fn see_board<R: Threads + Wait + Sync, G: Gate + Sync>(
    rt: &R,
    alloc: Global,
    count: u32,
    failing: (u32, u32),
    slots: u32,
    gate: &G,
) -> Result<Vec<Seen>, BoardFault> {
    if count == 0 || count > 16 {
        return Err(BoardFault::Memory);
    }
    let (mut executor, ends) = executor_of(alloc, count)?;
    let mut samplers = samplers_with(alloc, &executor, ends, count, failing)?;
    see_slots(
        rt,
        alloc,
        &mut executor,
        samplers.as_mut_slice(),
        slots,
        gate,
    )
}

const NONE: (u32, u32) = (0, 0);

#[test]
fn both_arms_meet(rt: HostRuntime) -> Result<(), Fail> {
    let gate = meeting_of(2);
    let Ok(seen) = see_board(&rt, rt.alloc(), 1, NONE, 1, &gate) else {
        return Err("no slot".into());
    };
    assert_eq!(rt; seen.as_slice(), [WHOLE].as_slice());
    assert_eq!(rt; gate.missed.load(Ordering::SeqCst), 0);
    assert_eq!(rt; gate.all.load(Ordering::SeqCst), 2);
    Ok(())
}

#[test]
fn all_arms_meet(rt: HostRuntime) -> Result<(), Fail> {
    let gate = meeting_of(5);
    let Ok(seen) = see_board(&rt, rt.alloc(), 4, NONE, 1, &gate) else {
        return Err("no slot".into());
    };
    assert_eq!(rt; seen.as_slice(), [WHOLE].as_slice());
    assert_eq!(rt; gate.missed.load(Ordering::SeqCst), 0);
    assert_eq!(rt; gate.all.load(Ordering::SeqCst), 5);
    Ok(())
}

#[test]
fn a_structure_is_reported(rt: HostRuntime) -> Result<(), Fail> {
    let Ok(seen) = see_board(&rt, rt.alloc(), 4, NONE, 3, &Freeway) else {
        return Err("no slot".into());
    };
    let reported = Seen {
        reports: 1,
        ..WHOLE
    };
    assert_eq!(rt; seen.as_slice(), [WHOLE, WHOLE, reported].as_slice());
    Ok(())
}

#[test]
fn all_is_filed_once_and_in_order(rt: HostRuntime) -> Result<(), Fail> {
    let gate = Turnstile {
        state: AtomicU64::new(1),
    };
    let Ok(seen) = see_board(&rt, rt.alloc(), 8, NONE, 1000, &gate) else {
        return Err("no slot".into());
    };
    assert_eq!(rt; seen.len(), 1000);
    for slot in seen.as_slice() {
        assert_eq!(rt;
            Seen {
                reports: 0,
                ..*slot
            },
            WHOLE
        );
    }
    Ok(())
}

#[test]
fn sensors_fail(rt: HostRuntime) -> Result<(), Fail> {
    let missed = Seen {
        filed: 13,
        in_order: false,
        ..WHOLE
    };
    // 13 parameters among four samplers: the first has four
    for number in 0..4u32 {
        let calls = if number == 0 { 4u32 } else { 3 };
        for call in 1..=calls {
            let Ok(seen) = see_board(&rt, rt.alloc(), 4, (number, call), 1, &Freeway) else {
                return Err("no slot".into());
            };
            assert_eq!(rt; seen.as_slice(), [missed].as_slice());
        }
    }
    Ok(())
}

/// A board's executor with one sampler's end.
fn one_end(alloc: Global) -> Result<(Executor, Vec<SamplerEnd>), Memory>
    ensures { IfOk result (λ r. WithEach IsEndOf (rings_of r.0) r.1.items) }
{
    let (executor, ends) = executor_of(alloc, 1)?;
    Ok((executor, ends.into_vec()))
}

/// The first order of the sampler.
const FIRST: Order = Order { param: 1, slot: 0 };

/// What comes of the first order.
fn with_value(value: Option<Value>) -> Item {
    Item {
        param: 1,
        slot: 0,
        value,
    }
}

/// What comes of an order at the first end, where there is one and the tailoring has the parameter.
fn takes(
    executor: &Executor,
    order: Order,
    ends: &mut [SamplerEnd],
    sensor: &mut TableSensor,
) -> Option<Taken>
    requires { WithEach IsEndOf (rings_of executor.now) ends.old }
    ensures { WithEach IsEndOf (rings_of executor.now) ends.new }
{
    let tailoring = executor.core().tailoring();
    if ends.is_empty() || tailoring.param(order.param).is_none() {
        return None;
    }
    Some(ends[0].take(tailoring, order, sensor))
}

/// How often the first order was sent before the item came back.
fn fill(
    executor: &Executor,
    ends: &mut [SamplerEnd],
    sensor: &mut TableSensor,
) -> (u32, Option<Item>)
    requires { WithEach IsEndOf (rings_of executor.now) ends.old }
    ensures { WithEach IsEndOf (rings_of executor.now) ends.new }
{
    for sent in 0..100 {
        if let Some(Taken::Overrun(item)) = takes(executor, FIRST, ends, sensor) {
            return (sent, Some(item));
        }
    }
    (100, None)
}

/// A ring that was full: how many items it took, the one that came back, how many moments it made to take what was sent, whether
/// the item went in then, and whether the sample was filed.
fn full_ring(alloc: Global) -> Result<(u32, Option<Item>, Option<u32>, bool, bool), Memory> {
    let (mut executor, mut ends) = one_end(alloc)?;
    let ends = ends.as_mut_slice();
    let mut sensor = table(alloc, &[FIRST], 0)?;
    let (sent, back) = fill(&executor, ends, &mut sensor);
    let count = executor.settle(ends).ok();
    let mut goes_in = false;
    if let Some(item) = back {
        if let Some(end) = ends.first_mut() {
            goes_in = end.again(item) == Taken::Sent(item);
        }
    }
    Ok((sent, back, count, goes_in, executor.core().filed(1)))
}

#[test]
fn a_full_ring_hands_back(rt: HostRuntime) -> Result<(), Fail> {
    let (sent, back, count, goes_in, is_filed) = full_ring(rt.alloc())?;
    assert_eq!(rt; sent, 14);
    assert_eq!(rt; back, Some(with_value(Some(7))));
    assert_eq!(rt; count, Some(1));
    assert!(rt; goes_in && is_filed);
    Ok(())
}

/// A reading of the sampler's first order that failed: what was sent, how many moments it made to take it, and how many there are.
fn failed_reading(alloc: Global) -> Result<(Option<Taken>, Option<u32>, u32), Memory> {
    let (mut executor, mut ends) = one_end(alloc)?;
    let ends = ends.as_mut_slice();
    let orders = executor.orders(0)?;
    let mut sensor = table(alloc, orders.as_slice(), 1)?;
    let Some(first) = orders.as_slice().first() else {
        return Err(Memory);
    };
    let taken = takes(&executor, *first, ends, &mut sensor);
    let count = executor.settle(ends).ok();
    Ok((taken, count, executor.core().journal().len()))
}

#[test]
fn a_failed_reading_files_nothing(rt: HostRuntime) -> Result<(), Fail> {
    let (taken, count, moments) = failed_reading(rt.alloc())?;
    assert_eq!(rt; taken, Some(Taken::Sent(with_value(None))));
    assert_eq!(rt; count, Some(0));
    assert_eq!(rt; moments, 0);
    Ok(())
}

/// Three parameters are sampled, and then taken, with a look before it or not: whether all were sent, and how many moments it made.
fn three_taken(alloc: Global, is_met: bool) -> Result<(bool, Option<u32>), Memory> {
    let (mut executor, mut ends) = one_end(alloc)?;
    let ends = ends.as_mut_slice();
    let orders = executor.orders(0)?;
    let mut sensor = table(alloc, orders.as_slice(), 0)?;
    let is_sent = take_three(&executor, ends, &mut sensor);
    if is_met {
        executor.meet(ends);
    }
    Ok((is_sent, executor.drain().ok()))
}

/// Samples parameters 1, 2 and 3: whether all were sent, with values.
fn take_three(executor: &Executor, ends: &mut [SamplerEnd], sensor: &mut TableSensor) -> bool
    requires { WithEach IsEndOf (rings_of executor.now) ends.old }
    ensures { WithEach IsEndOf (rings_of executor.now) ends.new }
{
    let mut is_sent = true;
    for param in 1..4u32 {
        let taken = takes(executor, Order { param, slot: 0 }, ends, sensor);
        is_sent &= matches!(taken, Some(Taken::Sent(item)) if item.value.is_some());
    }
    is_sent
}

#[test]
fn a_drain_takes_what_was_sent(rt: HostRuntime) -> Result<(), Fail> {
    assert_eq!(rt; three_taken(rt.alloc(), false)?, (true, Some(3)));
    assert_eq!(rt; three_taken(rt.alloc(), true)?, (true, Some(3)));
    Ok(())
}
