//! One run of the program.
ghost use Rattle.std.specs.Prelude.{◌≡◌, ◌≤◌, ◌↔◌, ◌^◌, [], None, Some, length, map, vec_capacity, IfErr, OnOk};
ghost use Rattle.std.specs.String.{string_bytes};
ghost use Rattle.hk_base.specs.Fit.{IsFit};
ghost use Rattle.hk_base.specs.Outside.{HasRisen};
ghost use Rattle.hk_base.specs.TailoringParts.{TailoringParts};
ghost use Rattle.hk_tailoring.specs.declared.fault.TailoringFault.{TailoringFault};
ghost use Rattle.program_edge.specs.Inputs.{IsReadOut};
ghost use Rattle.program_edge.specs.Names.{named};
ghost use Rattle.program_edge.specs.Tailorings.{octets_of, HasReadFile, IsAbsent, IsAbsentFile, StandsFor};
ghost use Rattle.board_steps.specs.declared.event.BoardFault.{BoardFault};
ghost use Rattle.board_scripts.specs.Outcomes as scripts;
ghost use Rattle.board_scripts.specs.Scripts.{script_in};
ghost use Rattle.board_scripts.specs.Spelling.{IsScript};
ghost use Rattle.board_scripts.specs.declared.script.Script as spec_script;
ghost use Rattle.run_records.specs.Putting.{as_seen};
ghost use Rattle.board_steps.specs.Cores.{new_core};
ghost use Rattle.board_runs.specs.Bounds.{HasRoom};
ghost use Rattle.sampler_threads.specs.Executors.{core_of, count_of, rings_of};
ghost use Rattle.sampler_threads.specs.Samplings.{HavePlaces};
ghost use Rattle.sampler_threads.specs.Slots.{FreshEnd, IsSamplerOf, SettledSampler, WithEach, ends_of};
ghost use Rattle.sampled_slots.specs.Seats.{sensors_of};
ghost use Rattle.hk_board.specs.Words.{asked, command_of};
ghost use Rattle.hk_board.specs.Faults.{IsPlain};
ghost use Rattle.hk_board.specs.Inputs.{Outcome, runs, Tells, TellsOf, TellsUnder, HasReadAllOf, LacksInputOf, EndsWithoutInputOf};
ghost use Rattle.hk_board.specs.Progress.{Ends};
ghost use Rattle.hk_board.specs.Outputs.{HasOutput, HasRoomFor, WritesNothing};
ghost use Rattle.hk_board.specs.Runs.{IsBoardRun, status_of};

use crate::running::run_slots;
use crate::status::BoardStatus;
use crate::words::{Command, command_in};
use board_core::BoardCore;
use board_runs::runs_are_bounded;
use board_scripts::{Script, read_script};
use hk_base::{Items, Sensor, Shelf, Sink, Tailoring};
use program_edge::tailoring_of;
use run_slots::slots_make_the_record;
use sampler_threads::{Executor, Gate, Sampler, SamplerEnd};
use sensor_seats::{seat_sensors, sensors_back};
use std::alloc::Global;
use std::sync::Wait;
use std::thread::Threads;

/// Does what the words say. They are those after the program's name. There are 1 to 16 sensors, one for each sampler.
pub fn board_main<R: Threads + Wait + Sync, F: Shelf, K: Sink, N: Sensor + Send, G: Gate + Sync>(
    rt: &R,
    alloc: Global,
    words: &[String],
    shelf: &mut F,
    sink: &mut K,
    sensors: &mut Vec<N>,
    gate: &G,
) -> BoardStatus
    requires { (1 ≤ length sensors.old.items) × (length sensors.old.items ≤ 16) }
    // When each answer comes. Want of memory alone is free.
    ensures usage { (result ≡ BoardStatus.Usage) ↔ (command_of (map string_bytes words.now) ≡ None) }
    ensures read_fault { result ≡ BoardStatus.ReadFault → HasRisen (F.faults shelf.old) (F.faults shelf.new) }
    ensures write_fault { result ≡ BoardStatus.WriteFault → HasRisen (K.faults sink.old) (K.faults sink.new) }
    // A failing shelf and want of memory never stand within another status.
    ensures plain { IsPlain result }
    // Done says that the script was read to its end.
    ensures end { result ≡ BoardStatus.Done → HasReadAllOf (F.files shelf.old) (command_of (map string_bytes words.now)) (F.rest shelf.new) }
    // Where a named input isn't there, that is told, or an earlier fault, and nothing was written.
    ensures absent { LacksInputOf (F.files shelf.old) (command_of (map string_bytes words.now)) → EndsWithoutInputOf (F.files shelf.old) (command_of (map string_bytes words.now)) result × (K.taken sink.new ≡ K.taken sink.old) }
    // A script that the journal and the tags have room for is run to its end. Failing sensors never end a run.
    ensures bounded { (t : TailoringParts) (s : spec_script.Script) → TellsOf (F.files shelf.old) (command_of (map string_bytes words.now)) (runs t s) → HasRoom t s → (fault : BoardFault) → result ≡ BoardStatus.Board fault → ⊥ }

    // What was written. With most statuses it is nothing, whatever the shelf tells.
    ensures nothing { WritesNothing result (K.taken sink.old) (K.taken sink.new) }
    ensures output { (outcome : Outcome) → TellsOf (F.files shelf.old) (command_of (map string_bytes words.now)) outcome → HasOutput N.Sensor sensors.old.items sensors.new.items result outcome (K.taken sink.old) (K.taken sink.new) }

    // A sound shelf that has the inputs isn't made to fail, nor is a sink with room for each run of the script.
    ensures sound { F.is_sound shelf.old → (outcome : Outcome) → TellsOf (F.files shelf.old) (command_of (map string_bytes words.now)) outcome → F.faults shelf.new ≡ F.faults shelf.old }
    ensures room { (outcome : Outcome) → TellsOf (F.files shelf.old) (command_of (map string_bytes words.now)) outcome → HasRoomFor (K.room sink.old) outcome → K.faults sink.new ≡ K.faults sink.old }
{
    match command_in(words) {
        Some(command) => done(run(rt, alloc, command, shelf, sink, sensors, gate)),
        None => BoardStatus::Usage,
    }
}

/// How a run ended, as a status.
fn done(ended: Result<(), BoardStatus>) -> BoardStatus
    ensures { result ≡ status_of ended }
{
    match ended {
        Ok(()) => BoardStatus::Done,
        Err(status) => status,
    }
}

/// Reads the tailoring and the script, and runs it.
fn run<R: Threads + Wait + Sync, F: Shelf, K: Sink, N: Sensor + Send, G: Gate + Sync>(
    rt: &R,
    alloc: Global,
    command: Command<'_>,
    shelf: &mut F,
    sink: &mut K,
    sensors: &mut Vec<N>,
    gate: &G,
) -> Result<(), BoardStatus>
    requires { (1 ≤ length sensors.old.items) × (length sensors.old.items ≤ 16) }
    ensures run { IsBoardRun N.Sensor sensors.old.items sensors.new.items (Tells (F.files shelf.old) (asked command.entry)) (status_of result) (F.is_sound shelf.old) (F.faults shelf.old) (F.faults shelf.new) (K.taken sink.old) (K.taken sink.new) (K.room sink.old) (K.faults sink.old) (K.faults sink.new) }
    ensures done { IfErr result (λ status. status ≡ BoardStatus.Done → ⊥) }
    ensures end { OnOk result (HasReadFile (F.files shelf.old) (F.rest shelf.new)) }
    ensures absent { LacksInputOf (F.files shelf.old) (Some (asked command.entry)) → EndsWithoutInputOf (F.files shelf.old) (Some (asked command.entry)) (status_of result) × (K.taken sink.new ≡ K.taken sink.old) }
{
    match tailoring_of(alloc, command.tailoring, shelf) {
        Ok(tailoring) => run_named(
            rt,
            alloc,
            tailoring,
            command.script,
            shelf,
            sink,
            sensors,
            gate,
        ),
        Err(fault) => Err(fault.into()),
    }
}

/// Runs the script of this name.
fn run_named<R: Threads + Wait + Sync, F: Shelf, K: Sink, N: Sensor + Send, G: Gate + Sync>(
    rt: &R,
    alloc: Global,
    tailoring: Tailoring,
    name: &str,
    shelf: &mut F,
    sink: &mut K,
    sensors: &mut Vec<N>,
    gate: &G,
) -> Result<(), BoardStatus>
    requires { (1 ≤ length sensors.old.items) × (length sensors.old.items ≤ 16) }
    ensures run { IsBoardRun N.Sensor sensors.old.items sensors.new.items (TellsUnder tailoring (octets_of (F.files shelf.old) name.now)) (status_of result) (F.is_sound shelf.old) (F.faults shelf.old) (F.faults shelf.new) (K.taken sink.old) (K.taken sink.new) (K.room sink.old) (K.faults sink.old) (K.faults sink.new) }
    ensures done { IfErr result (λ status. status ≡ BoardStatus.Done → ⊥) }
    ensures end { OnOk result (HasReadFile (F.files shelf.old) (F.rest shelf.new)) }
    ensures absent { IsAbsentFile (F.files shelf.old) name.now → (status_of result ≡ BoardStatus.ReadFault) × (K.taken sink.new ≡ K.taken sink.old) }
{
    match shelf.select(name) {
        Ok(()) => run_selected(rt, alloc, tailoring, shelf, sink, sensors, gate),
        Err(_) => Err(BoardStatus::ReadFault),
    }
}

/// Runs the script that the shelf has selected.
fn run_selected<R: Threads + Wait + Sync, F: Shelf, K: Sink, N: Sensor + Send, G: Gate + Sync>(
    rt: &R,
    alloc: Global,
    tailoring: Tailoring,
    shelf: &mut F,
    sink: &mut K,
    sensors: &mut Vec<N>,
    gate: &G,
) -> Result<(), BoardStatus>
    requires { (1 ≤ length sensors.old.items) × (length sensors.old.items ≤ 16) }
    ensures run { IsBoardRun N.Sensor sensors.old.items sensors.new.items (TellsUnder tailoring (F.rest shelf.old)) (status_of result) (F.is_sound shelf.old) (F.faults shelf.old) (F.faults shelf.new) (K.taken sink.old) (K.taken sink.new) (K.room sink.old) (K.faults sink.old) (K.faults sink.new) }
    ensures done { IfErr result (λ status. status ≡ BoardStatus.Done → ⊥) }
    ensures end { OnOk result (IsReadOut (F.rest shelf.old) (F.rest shelf.new)) }
{
    // Laws, and the fitness of the tailoring: they do nothing.
    runs_are_bounded();
    let _fit = tailoring.widths();
    match read_script(alloc, &tailoring, shelf) {
        Ok(script) => run_script(rt, alloc, tailoring, &script, sink, sensors, gate),
        Err(fault) => Err(fault.into()),
    }
}

/// Runs a script. The sensors stand in samplers meanwhile.
fn run_script<R: Threads + Wait + Sync, K: Sink, N: Sensor + Send, G: Gate + Sync>(
    rt: &R,
    alloc: Global,
    tailoring: Tailoring,
    script: &Script,
    sink: &mut K,
    sensors: &mut Vec<N>,
    gate: &G,
) -> Result<(), BoardStatus>
    requires sensors { (1 ≤ length sensors.old.items) × (length sensors.old.items ≤ 16) }
    requires script { IsScript tailoring script.now }
    requires few { length script.now.sendings ≤ 2 ^ 24 }
    ensures { Ends N.Sensor tailoring script.now sensors.old.items sensors.new.items result (as_seen K.Sink sink.old) (as_seen K.Sink sink.new) }
{
    // A law: it does nothing.
    slots_make_the_record();
    match BoardCore::new(alloc, tailoring) {
        Ok(core) => run_core(rt, alloc, core, script, sink, sensors, gate),
        Err(_) => Err(BoardStatus::NoMemory),
    }
}

/// Runs a script on a new board.
fn run_core<R: Threads + Wait + Sync, K: Sink, N: Sensor + Send, G: Gate + Sync>(
    rt: &R,
    alloc: Global,
    core: BoardCore,
    script: &Script,
    sink: &mut K,
    sensors: &mut Vec<N>,
    gate: &G,
) -> Result<(), BoardStatus>
    requires sensors { (1 ≤ length sensors.old.items) × (length sensors.old.items ≤ 16) }
    requires fresh { core ≡ new_core core.tailoring }
    requires script { IsScript core.tailoring script.now }
    requires few { length script.now.sendings ≤ 2 ^ 24 }
    ensures { Ends N.Sensor core.tailoring script.now sensors.old.items sensors.new.items result (as_seen K.Sink sink.old) (as_seen K.Sink sink.new) }
{
    // A law: it does nothing.
    slots_make_the_record();
    match Executor::new(alloc, core, sensors.len() as u32) {
        Ok((mut executor, ends)) => run_executor(
            rt,
            alloc,
            &mut executor,
            ends,
            script,
            sink,
            sensors,
            gate,
        ),
        Err(_) => Err(BoardStatus::NoMemory),
    }
}

/// Runs a script, when the rings of the samplers are made.
fn run_executor<R: Threads + Wait + Sync, K: Sink, N: Sensor + Send, G: Gate + Sync>(
    rt: &R,
    alloc: Global,
    executor: &mut Executor,
    ends: Items<SamplerEnd>,
    script: &Script,
    sink: &mut K,
    sensors: &mut Vec<N>,
    gate: &G,
) -> Result<(), BoardStatus>
    requires some { 1 ≤ length sensors.old.items }
    requires count { count_of executor.old ≡ length sensors.old.items }
    requires fresh { core_of executor.old ≡ new_core (core_of executor.old).tailoring }
    requires ends { WithEach FreshEnd (rings_of executor.old) ends }
    requires places { HavePlaces (core_of executor.old).tailoring (count_of executor.old) ends }
    requires script { IsScript (core_of executor.old).tailoring script.now }
    requires few { length script.now.sendings ≤ 2 ^ 24 }
    ensures { Ends N.Sensor (core_of executor.old).tailoring script.now sensors.old.items sensors.new.items result (as_seen K.Sink sink.old) (as_seen K.Sink sink.new) }
{
    // A law: it does nothing.
    slots_make_the_record();
    match seat_sensors(alloc, ends, sensors) {
        Ok(samplers) => run_seated(rt, alloc, executor, samplers, script, sink, sensors, gate),
        Err(_) => Err(BoardStatus::NoMemory),
    }
}

/// Runs a script with these samplers, and moves their sensors back.
fn run_seated<R: Threads + Wait + Sync, K: Sink, N: Sensor + Send, G: Gate + Sync>(
    rt: &R,
    alloc: Global,
    executor: &mut Executor,
    mut samplers: Vec<Sampler<N>>,
    script: &Script,
    sink: &mut K,
    sensors: &mut Vec<N>,
    gate: &G,
) -> Result<(), BoardStatus>
    requires empty { sensors.old.items ≡ [] }
    requires room { length samplers.items ≤ vec_capacity sensors.old }
    requires some { 1 ≤ length samplers.items }
    requires count { length samplers.items ≡ count_of executor.old }
    requires fresh { core_of executor.old ≡ new_core (core_of executor.old).tailoring }
    requires ends { WithEach IsSamplerOf (rings_of executor.old) samplers.items }
    requires settled { WithEach SettledSampler (rings_of executor.old) samplers.items }
    requires places { HavePlaces (core_of executor.old).tailoring (count_of executor.old) (ends_of samplers.items) }
    requires script { IsScript (core_of executor.old).tailoring script.now }
    requires few { length script.now.sendings ≤ 2 ^ 24 }
    ensures { Ends N.Sensor (core_of executor.old).tailoring script.now (sensors_of samplers.items) sensors.new.items result (as_seen K.Sink sink.old) (as_seen K.Sink sink.new) }
{
    let ended = run_slots(rt, alloc, script, executor, &mut samplers, sink, gate);
    sensors_back(samplers, sensors);
    ended
}
