//! The work on the request that comes first: it begins, its instructions are executed one by one, and it ends.
ghost use Rattle.std.specs.Prelude.{◌≡◌, ◌≤◌, ◌-◌, ◌∷◌, [], List, length, slice_get, false, true, Some, IfOk, IfSome};
ghost use Rattle.hk_world.specs.Timelines.{instructions_at};
ghost use Rattle.board_steps.specs.Cores as cores;
ghost use Rattle.board_steps.specs.Plans as plans;
ghost use Rattle.board_core.specs.Causes.{IsSmallRefusal};
ghost use Rattle.board_steps.specs.Steps.{Answers};
ghost use Rattle.board_core.specs.Worked.{IsToStart, IsToRefuse, IsToComplete, IsToBegin, IsUnbegun, StartsWith, IsRefusedWith, CompletesWith, completion};
ghost use Rattle.pus_messages.specs.Instructions.{Instruction, instructions};
ghost use Rattle.board_state.specs.Waiting.{IsRunning};
ghost use Rattle.board_core.specs.Effects.{IsEffectOf, IsSmallEffect, HasCause, progress_of};
ghost use Rattle.board_steps.specs.declared.event.Event.TheVariants.{Work};

use crate::board::BoardCore;
use crate::causes::{INCOMPLETE, refusal_cause};
use crate::effect::Effect;
use board_state::{Asked, Running, instruction_at};
use board_steps::BoardFault;
use hk_base::{Items, Memory};
use hk_world::Act;
use pus_messages::{ReportBody, requests_are_spelled};
use report_structures::Refusal;
use st01_reports::Verification;
use std::alloc::Global;

/// An act, with the report on it if it has one.
type Told = (Act, Option<ReportBody>);

impl BoardCore {
    /// Goes one step on with the first request that waits.
    pub(crate) fn work(&mut self) -> Result<u32, BoardFault>
        ensures { Answers self.old Work self.new result }
    {
        // A law, and the fitness of the tailoring: they do nothing.
        requests_are_spelled();
        let _fit = self.log.tailoring().widths();
        let Some(running) = self.requests.first() else {
            return Ok(0);
        };
        if !running.started {
            let refusal = self.only_refusal(running)?;
            self.begin(refusal)
        } else if running.is_executed() {
            self.complete()
        } else {
            self.execute()
        }
    }

    /// Why the one instruction of a request is refused, if it has one that is.
    fn only_refusal(&self, running: &Running) -> Result<Option<Refusal>, Memory>
        requires unbegun { IsUnbegun self.now running.now }
        requires few { length (instructions running.now.request) ≤ 255 }
        ensures { IfOk result (IsToBegin self.now) }
    {
        // A law, and the fitness of the tailoring: they do nothing.
        requests_are_spelled();
        let _fit = self.log.tailoring().widths();
        if running.has_several() {
            return Ok(None);
        }
        let effect = self.effect_of(running, 1)?;
        Ok(effect.refusal())
    }

    /// Begins the first request that waits, unless its one instruction is refused.
    fn begin(&mut self, refusal: Option<Refusal>) -> Result<u32, BoardFault>
        requires { IsToBegin self.old refusal }
        ensures { Answers self.old Work self.new result }
    {
        match refusal {
            Some(refusal) => self.refuse(refusal),
            None => self.start(),
        }
    }

    fn refuse(&mut self, refusal: Refusal) -> Result<u32, BoardFault>
        requires { IsToRefuse self.old refusal }
        ensures { Answers self.old Work self.new result }
    {
        // A law, and the fitness of the tailoring: they do nothing.
        requests_are_spelled();
        let _fit = self.log.tailoring().widths();
        let Some(running) = self.requests.first() else {
            unreachable!();
        };
        let (act, report) = refusal_of(running, refusal);
        match self.log.add_one(self.clock, act, report) {
            Ok(count) => {
                self.requests.end_first();
                Ok(count)
            }
            Err(fault) => Err(fault),
        }
    }

    fn start(&mut self) -> Result<u32, BoardFault>
        requires { IsToStart self.old }
        ensures { Answers self.old Work self.new result }
    {
        // A law, and the fitness of the tailoring: they do nothing.
        requests_are_spelled();
        let _fit = self.log.tailoring().widths();
        let Some(running) = self.requests.first() else {
            unreachable!();
        };
        let (act, report) = start_of(running);
        match self.log.add_one(self.clock, act, report) {
            Ok(count) => {
                self.requests.start_first();
                Ok(count)
            }
            Err(fault) => Err(fault),
        }
    }

    /// Ends a request whose instructions are executed.
    fn complete(&mut self) -> Result<u32, BoardFault>
        requires { IsToComplete self.old }
        ensures { Answers self.old Work self.new result }
    {
        // A law, and the fitness of the tailoring: they do nothing.
        requests_are_spelled();
        let _fit = self.log.tailoring().widths();
        let Some(running) = self.requests.first() else {
            unreachable!();
        };
        let (act, report) = completion_of(self.alloc, running)?;
        match self.log.add_one(self.clock, act, report) {
            Ok(count) => {
                self.requests.end_first();
                Ok(count)
            }
            Err(fault) => Err(fault),
        }
    }

    /// What the instruction of a request with this number does.
    pub(crate) fn effect_of(&self, running: &Running, number: u32) -> Result<Effect, Memory>
        requires running { IsRunning (cores.session self.now) self.now.moments running.now }
        requires from { 1 ≤ number }
        requires until { number ≤ length (instructions running.now.request) }
        ensures { (x : Instruction) → slice_get (instructions running.now.request) (number - 1) ≡ Some x → IfOk result (IsEffectOf self.now x) }
    {
        // A law, and the fitness of the tailoring: they do nothing.
        requests_are_spelled();
        let _fit = self.log.tailoring().widths();
        let Some(instruction) = instruction_at(&running.request, number) else {
            unreachable!();
        };
        self.effect(instruction)
    }
}

/// A request isn't begun, since its one instruction is refused.
fn refusal_of(running: &Running, refusal: Refusal) -> Told
    requires { IsSmallRefusal refusal }
    ensures { IsRefusedWith running.now refusal result }
{
    let report = Verification::NotStarted(running.id, refusal_cause(refusal));
    (
        Act::NotStarted(running.number),
        Some(ReportBody::Verify(report)),
    )
}

/// A request is begun.
fn start_of(running: &Running) -> Told
    ensures { StartsWith running.now result }
{
    let report = running.report_if(Asked::Start, Verification::Started(running.id));
    (Act::Started(running.number), report)
}

/// A request has ended.
fn completion_of(alloc: Global, running: &Running) -> Result<Told, Memory>
    ensures { IfOk result (CompletesWith running.now) }
{
    let refused = Items::from_slice(alloc, running.refused.as_slice())?;
    let report = completion_report(alloc, running)?;
    Ok((Act::Completed(running.number, refused), report))
}

/// The report of a request that has ended, where it is due.
fn completion_report(alloc: Global, running: &Running) -> Result<Option<ReportBody>, Memory>
    ensures { IfOk result (λ body. body ≡ completion running.now running.now.refused) }
{
    if running.refused.as_slice().is_empty() {
        return Ok(running.report_if(Asked::Completion, Verification::Completed(running.id)));
    }
    let refused = Items::from_slice(alloc, running.refused.as_slice())?;
    let report = Verification::Incomplete(running.id, INCOMPLETE, refused);
    Ok(Some(ReportBody::Verify(report)))
}

/// The report of an instruction that was executed, where it is due.
pub(crate) fn progress(running: &Running, number: u32, effect: &Effect) -> Option<ReportBody>
    requires few { length (instructions running.now.request) ≤ 255 }
    requires small { IsSmallEffect effect.now }
    ensures report { result ≡ progress_of running.now number effect.now }
    ensures cause { IfSome result HasCause }
{
    if !running.has_several() {
        return None;
    }
    if let Effect::Refused(refusal) = effect {
        let cause = refusal_cause(*refusal);
        let report = Verification::StepFailed(running.id, number, cause);
        return Some(ReportBody::Verify(report));
    }
    running.report_if(Asked::Progress, Verification::Step(running.id, number))
}
