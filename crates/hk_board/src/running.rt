//! The slots of a run.
ghost use Rattle.std.specs.Prelude.{◌≡◌, ◌<◌, ◌≤◌, ◌^◌, ◌∷◌, [], ℕ, List, length, IfErr, OnOk};
ghost use Rattle.hk_base.specs.Fit.{IsFit};
ghost use Rattle.hk_base.specs.TailoringParts.{TailoringParts};
ghost use Rattle.hk_world.specs.declared.moment.Moment.{Moment};
ghost use Rattle.board_scripts.specs.Spelling.{IsScript};
ghost use Rattle.board_scripts.specs.declared.script.Script as spec_script;
ghost use Rattle.board_steps.specs.Cores.{new_core};
ghost use Rattle.run_records.specs.Putting.{HasPut, Seen, as_seen};
ghost use Rattle.board_runs.specs.Runs.{HasDone, record_of};
ghost use Rattle.sampler_threads.specs.Executors.{core_of, count_of, rings_of};
ghost use Rattle.sampler_threads.specs.Orders.{orders_for};
ghost use Rattle.sampler_threads.specs.Samplings.{AreFresh, HavePlaces};
ghost use Rattle.sampler_threads.specs.Slots.{AreSampled, AreSmall, CanOrderAll, IsSamplerOf, SettledSampler, WithEach, ends_of};
ghost use Rattle.sampled_slots.specs.Seats.{AreBetween, AreFiled, AreFiledInPart, HaveOrders, sensors_of};
ghost use Rattle.hk_board.specs.Seats.{AreReady, HaveSameSeats};
ghost use Rattle.hk_board.specs.Progress.{EndsAs, EndsEarly, Ends, HasRunSlot, IsAt, IsOpened, RunsTo};

use crate::status::BoardStatus;
use board_core::BoardFault;
use board_scripts::Script;
use hk_base::{Memory, Octets, Sensor, Sink};
use run_records::{put_header, put_moments};
use run_slots::{give_reports, link_of, open_slot, slots_make_the_record};
use sampled_slots::{
    samplers_can_be_ordered, samplers_go_on, samplers_hold_ends, slots_are_sampled,
    slots_begin_unfiled,
};
use sampler_threads::{Executor, Gate, Sampler, run_slot};
use simulated_link::Link;
use std::alloc::Global;
use std::sync::Wait;
use std::thread::Threads;

/// How far a run is: what is under way, the number of the first line that wasn't sent, and how many moments were written.
#[derive(Drop)]
pub(crate) struct Progress {
    pub(crate) link: Link,
    pub(crate) next: usize,
    pub(crate) shown: u32,
}

/// Runs all slots of a script, and writes the record of it, slot by slot.
pub(crate) fn run_slots<R: Threads + Wait + Sync, K: Sink, N: Sensor + Send, G: Gate + Sync>(
    rt: &R,
    alloc: Global,
    script: &Script,
    executor: &mut Executor,
    samplers: &mut [Sampler<N>],
    sink: &mut K,
    gate: &G,
) -> Result<(), BoardStatus>
    requires script { IsScript (core_of executor.old).tailoring script.now }
    requires few { length script.now.sendings < 2 ^ 32 }
    requires fresh { core_of executor.old ≡ new_core (core_of executor.old).tailoring }
    requires some { 0 < length samplers.old }
    requires count { length samplers.old ≡ count_of executor.old }
    requires ends { WithEach IsSamplerOf (rings_of executor.old) samplers.old }
    requires settled { WithEach SettledSampler (rings_of executor.old) samplers.old }
    requires places { HavePlaces (core_of executor.old).tailoring (count_of executor.old) (ends_of samplers.old) }
    ensures { Ends N.Sensor (core_of executor.old).tailoring script.now (sensors_of samplers.old) (sensors_of samplers.new) result (as_seen K.Sink sink.old) (as_seen K.Sink sink.new) }
{
    // Laws: they do nothing.
    slots_make_the_record();
    samplers_hold_ends::<N>();
    samplers_go_on::<N>();
    put_header(sink, script.known)?;
    let mut progress = Progress {
        link: link_of(alloc, script),
        next: 0,
        shown: 0,
    };
    for slot in 0..script.slots {
        is_count(executor);
        match one_slot(
            rt,
            alloc,
            script,
            slot,
            executor,
            samplers,
            &mut progress,
            sink,
            gate,
        ) {
            Ok(()) => {}
            Err(status) => return Err(status),
        }
    }
    Ok(())
}

/// Runs one slot, and writes its entries.
fn one_slot<R: Threads + Wait + Sync, K: Sink, N: Sensor + Send, G: Gate + Sync>(
    rt: &R,
    alloc: Global,
    script: &Script,
    slot: u32,
    executor: &mut Executor,
    samplers: &mut [Sampler<N>],
    progress: &mut Progress,
    sink: &mut K,
    gate: &G,
) -> Result<(), BoardStatus>
    requires script { IsScript (core_of executor.old).tailoring script.now }
    requires few { length script.now.sendings < 2 ^ 32 }
    requires within { progress.old.next ≤ length script.now.sendings }
    requires some { 0 < length samplers.old }
    requires count { length samplers.old ≡ count_of executor.old }
    requires ends { WithEach IsSamplerOf (rings_of executor.old) samplers.old }
    requires places { HavePlaces (core_of executor.old).tailoring (count_of executor.old) (ends_of samplers.old) }
    ensures within { OnOk result (progress.new.next ≤ length script.now.sendings) }
    ensures tailoring { OnOk result ((core_of executor.new).tailoring ≡ (core_of executor.old).tailoring) }
    ensures ok { (start : Seen) (was : List N) (slots : List (List Moment)) → slot ≡ length slots
        → IsAt (core_of executor.old).tailoring script.now start slots (core_of executor.old) progress.old.next progress.old.shown progress.old.link (as_seen K.Sink sink.old)
        → AreBetween N.Sensor (core_of executor.old).tailoring was slots (rings_of executor.old) samplers.old
        → OnOk result ((moments : List Moment) × IsAt (core_of executor.old).tailoring script.now start (moments ∷ slots) (core_of executor.new) progress.new.next progress.new.shown progress.new.link (as_seen K.Sink sink.new)
        × AreBetween N.Sensor (core_of executor.old).tailoring was (moments ∷ slots) (rings_of executor.new) samplers.new) }
    ensures err { (start : Seen) (was : List N) (slots : List (List Moment)) → slot ≡ length slots → slot < script.now.slots
        → IsAt (core_of executor.old).tailoring script.now start slots (core_of executor.old) progress.old.next progress.old.shown progress.old.link (as_seen K.Sink sink.old)
        → AreBetween N.Sensor (core_of executor.old).tailoring was slots (rings_of executor.old) samplers.old
        → IfErr result (λ status. EndsEarly N.Sensor (core_of executor.old).tailoring script.now was status start (as_seen K.Sink sink.new)) }
{
    // Laws: they do nothing.
    slots_make_the_record();
    samplers_hold_ends::<N>();
    samplers_can_be_ordered::<N>();
    samplers_go_on::<N>();
    slots_begin_unfiled();
    is_fit(executor);
    match order_all(executor, samplers) {
        Ok(()) => ordered_slot(
            rt, alloc, script, slot, executor, samplers, progress, sink, gate,
        ),
        Err(_) => Err(BoardStatus::NoMemory),
    }
}

/// Runs a slot whose samplers have their orders.
fn ordered_slot<R: Threads + Wait + Sync, K: Sink, N: Sensor + Send, G: Gate + Sync>(
    rt: &R,
    alloc: Global,
    script: &Script,
    slot: u32,
    executor: &mut Executor,
    samplers: &mut [Sampler<N>],
    progress: &mut Progress,
    sink: &mut K,
    gate: &G,
) -> Result<(), BoardStatus>
    requires script { IsScript (core_of executor.old).tailoring script.now }
    requires few { length script.now.sendings < 2 ^ 32 }
    requires within { progress.old.next ≤ length script.now.sendings }
    requires ends { WithEach IsSamplerOf (rings_of executor.old) samplers.old }
    requires orders { CanOrderAll (core_of executor.old).tailoring samplers.old }
    ensures within { OnOk result (progress.new.next ≤ length script.now.sendings) }
    ensures tailoring { OnOk result ((core_of executor.new).tailoring ≡ (core_of executor.old).tailoring) }
    ensures ok { (start : Seen) (was : List N) (slots : List (List Moment)) → slot ≡ length slots
        → IsAt (core_of executor.old).tailoring script.now start slots (core_of executor.old) progress.old.next progress.old.shown progress.old.link (as_seen K.Sink sink.old)
        → AreReady N.Sensor (core_of executor.old).tailoring was slots (core_of executor.old) (rings_of executor.old) samplers.old
        → OnOk result ((moments : List Moment) × IsAt (core_of executor.old).tailoring script.now start (moments ∷ slots) (core_of executor.new) progress.new.next progress.new.shown progress.new.link (as_seen K.Sink sink.new)
        × AreBetween N.Sensor (core_of executor.old).tailoring was (moments ∷ slots) (rings_of executor.new) samplers.new) }
    ensures err { (start : Seen) (was : List N) (slots : List (List Moment)) → slot ≡ length slots → slot < script.now.slots
        → IsAt (core_of executor.old).tailoring script.now start slots (core_of executor.old) progress.old.next progress.old.shown progress.old.link (as_seen K.Sink sink.old)
        → AreReady N.Sensor (core_of executor.old).tailoring was slots (core_of executor.old) (rings_of executor.old) samplers.old
        → IfErr result (λ status. EndsEarly N.Sensor (core_of executor.old).tailoring script.now was status start (as_seen K.Sink sink.new)) }
{
    // Laws: they do nothing.
    slots_make_the_record();
    samplers_go_on::<N>();
    is_fit(executor);
    let journal = executor.core().journal();
    match open_slot(
        alloc,
        script,
        journal,
        slot,
        progress.next,
        &mut progress.link,
        sink,
    ) {
        Ok(opened) => {
            progress.next = opened.next;
            opened_slot(
                rt,
                alloc,
                script,
                slot,
                executor,
                samplers,
                &opened.uplinks,
                progress,
                sink,
                gate,
            )
        }
        Err(fault) => Err(fault.into()),
    }
}

/// Runs a slot that was opened, with what the board gets in it.
fn opened_slot<R: Threads + Wait + Sync, K: Sink, N: Sensor + Send, G: Gate + Sync>(
    rt: &R,
    alloc: Global,
    script: &Script,
    slot: u32,
    executor: &mut Executor,
    samplers: &mut [Sampler<N>],
    uplinks: &[Octets],
    progress: &mut Progress,
    sink: &mut K,
    gate: &G,
) -> Result<(), BoardStatus>
    requires ends { WithEach IsSamplerOf (rings_of executor.old) samplers.old }
    requires orders { CanOrderAll (core_of executor.old).tailoring samplers.old }
    requires size { AreSmall uplinks.now }
    ensures next { progress.new.next ≡ progress.old.next }
    ensures tailoring { OnOk result ((core_of executor.new).tailoring ≡ (core_of executor.old).tailoring) }
    ensures ok { (start : Seen) (was : List N) (slots : List (List Moment)) → slot ≡ length slots
        → IsOpened (core_of executor.old).tailoring script.now start slots (core_of executor.old) uplinks.now progress.old.next progress.old.shown progress.old.link (as_seen K.Sink sink.old)
        → AreReady N.Sensor (core_of executor.old).tailoring was slots (core_of executor.old) (rings_of executor.old) samplers.old
        → OnOk result ((moments : List Moment) × IsAt (core_of executor.old).tailoring script.now start (moments ∷ slots) (core_of executor.new) progress.new.next progress.new.shown progress.new.link (as_seen K.Sink sink.new)
        × AreBetween N.Sensor (core_of executor.old).tailoring was (moments ∷ slots) (rings_of executor.new) samplers.new) }
    ensures err { (start : Seen) (was : List N) (slots : List (List Moment)) → slot ≡ length slots → slot < script.now.slots
        → IsOpened (core_of executor.old).tailoring script.now start slots (core_of executor.old) uplinks.now progress.old.next progress.old.shown progress.old.link (as_seen K.Sink sink.old)
        → AreReady N.Sensor (core_of executor.old).tailoring was slots (core_of executor.old) (rings_of executor.old) samplers.old
        → IfErr result (λ status. EndsEarly N.Sensor (core_of executor.old).tailoring script.now was status start (as_seen K.Sink sink.new)) }
{
    // Laws: they do nothing.
    slots_make_the_record();
    samplers_go_on::<N>();
    slots_are_sampled::<N>();
    slots_begin_unfiled();
    is_fit(executor);
    match run_written(
        rt,
        alloc,
        executor,
        samplers,
        uplinks,
        progress.shown,
        sink,
        gate,
    ) {
        Ok(()) => report_slot(executor, slot, progress),
        Err(status) => Err(status),
    }
}

/// Gives the link the reports of the slot that ended.
fn report_slot(executor: &Executor, slot: u32, progress: &mut Progress) -> Result<(), BoardStatus>
    ensures next { progress.new.next ≡ progress.old.next }
    ensures ok { (t : TailoringParts) (s : spec_script.Script) (start : Seen) (slots : List (List Moment)) (moments : List Moment) (now : Seen) → (core_of executor.now).tailoring ≡ t → slot ≡ length slots
        → HasRunSlot t s start slots moments (core_of executor.now) progress.old.next progress.old.shown progress.old.link now
        → OnOk result (IsAt t s start (moments ∷ slots) (core_of executor.now) progress.new.next progress.new.shown progress.new.link now) }
    ensures err { IfErr result (λ status. status ≡ BoardStatus.NoMemory) }
{
    let core = executor.core();
    let journal = core.journal();
    match give_reports(
        core.tailoring(),
        journal,
        slot,
        progress.shown,
        &mut progress.link,
    ) {
        Ok(()) => {
            progress.shown = journal.len();
            Ok(())
        }
        Err(_) => Err(BoardStatus::NoMemory),
    }
}

/// Runs a slot with these uplinks, and writes its moments, also where it couldn't be run to its end.
fn run_written<R: Threads + Wait + Sync, K: Sink, N: Sensor + Send, G: Gate + Sync>(
    rt: &R,
    alloc: Global,
    executor: &mut Executor,
    samplers: &mut [Sampler<N>],
    uplinks: &[Octets],
    shown: u32,
    sink: &mut K,
    gate: &G,
) -> Result<(), BoardStatus>
    requires ends { WithEach IsSamplerOf (rings_of executor.old) samplers.old }
    requires orders { CanOrderAll (core_of executor.old).tailoring samplers.old }
    requires size { AreSmall uplinks.now }
    ensures tailoring { OnOk result ((core_of executor.new).tailoring ≡ (core_of executor.old).tailoring) }
    ensures sampled { OnOk result (AreSampled N.Sensor (core_of executor.old).tailoring samplers.old samplers.new × WithEach IsSamplerOf (rings_of executor.new) samplers.new × WithEach SettledSampler (rings_of executor.new) samplers.new) }
    ensures filed { AreFresh (core_of executor.old) (rings_of executor.old) samplers.old → (moments : List Moment) → HasDone (core_of executor.old) moments (core_of executor.new) → OnOk result (AreFiled N.Sensor (core_of executor.old).tailoring moments samplers.old samplers.new) }
    ensures filed_part { AreFresh (core_of executor.old) (rings_of executor.old) samplers.old → (moments : List Moment) → HasDone (core_of executor.old) moments (core_of executor.new) → AreFiledInPart N.Sensor (core_of executor.old).tailoring moments samplers.old }
    ensures runs { shown ≡ length (core_of executor.old).moments → RunsTo uplinks.now (core_of executor.old) (core_of executor.new) result (as_seen K.Sink sink.old) (as_seen K.Sink sink.new) }
{
    // A law: it does nothing.
    slots_are_sampled::<N>();
    let ran = run_slot(rt, alloc, executor, samplers, uplinks, gate);
    match put_moments(alloc, executor.core().journal(), shown, sink) {
        Ok(()) => ended(ran),
        Err(fault) => Err(fault.into()),
    }
}

/// How a slot was run, as a status.
fn ended(ran: Result<u32, BoardFault>) -> Result<(), BoardStatus>
    ensures { EndsAs ran result }
{
    match ran {
        Ok(_) => Ok(()),
        Err(fault) => Err(fault.into()),
    }
}

/// The tailoring is fit: a law, which does nothing.
fn is_fit(executor: &Executor)
    ensures { IsFit (core_of executor.now).tailoring }
{
    let _fit = executor.core().tailoring().widths();
}

/// There is a ring for each sampler: a law, which does nothing.
fn is_count(_executor: &Executor)
    ensures { count_of _executor.now ≡ length (rings_of _executor.now) }
{}

/// Gives each sampler its orders for the slot that runs.
fn order_all<N>(executor: &Executor, samplers: &mut [Sampler<N>]) -> Result<(), Memory>
    requires { length samplers.old ≡ count_of executor.now }
    ensures seats { HaveSameSeats samplers.old samplers.new }
    ensures orders { OnOk result (HaveOrders (core_of executor.now).tailoring (count_of executor.now) (core_of executor.now).slot_now samplers.new) }
{
    for k in 0..samplers.len() {
        order_one(executor, k as u32, &mut samplers[k])?;
    }
    Ok(())
}

/// Gives the sampler with this number its orders.
fn order_one<N>(executor: &Executor, number: u32, sampler: &mut Sampler<N>) -> Result<(), Memory>
    ensures end { sampler.new.end ≡ sampler.old.end }
    ensures sensor { sampler.new.sensor ≡ sampler.old.sensor }
    ensures orders { OnOk result (sampler.new.orders ≡ orders_for (core_of executor.now).tailoring (count_of executor.now) number (core_of executor.now).slot_now) }
{
    sampler.orders = executor.orders(number)?;
    Ok(())
}
