//! The execution of an instruction.
ghost use Rattle.std.specs.Prelude.{◌≡◌, ◌+◌, ◌/◌, ◌<◌, ◌≤◌, ◌^◌, ◌∷◌, [], max, Some, None, length, IfOk, OnOk, if◌then◌else◌};
ghost use Rattle.hk_base.specs.Fit as fit;
ghost use Rattle.pus_messages.specs.Instructions.{Instruction, instructions, report_values};
ghost use Rattle.st20_grammar.specs.Spelling.{AreIds};
ghost use Rattle.hk_world.specs.States.{refusal};
ghost use Rattle.board_steps.specs.Cores.{state_of, next_tag};
ghost use Rattle.board_steps.specs.Plans.{statistics, definitions, values_of, properties_of};
ghost use Rattle.st03_grammar.specs.declared.bodies.Report03.TheVariants as hk;
ghost use Rattle.pus_messages.specs.declared.message.ReportBody.TheVariants.{Hk};
ghost use Rattle.board_steps.specs.Steps.{Answers, row_of};
ghost use Rattle.board_steps.specs.declared.event.Event.TheVariants.{Work};
ghost use Rattle.hk_world.specs.declared.moment.Moment.{Moment};
ghost use Rattle.board_state.specs.declared.running.Running.{Running};
ghost use Rattle.board_core.specs.Execution.{IsExecutedBy, IsFirstDrafted, AnswersFirst, IsToldAfter};
ghost use Rattle.board_core.specs.Effects.{IsExecuting, IsEffectOf, IsOrderedBody, IsToCarry, OnlyShows, effect_topics, statistics_topics};
ghost use Rattle.board_core.specs.declared.effect.Effect.{Effect};
ghost use Rattle.board_core.specs.Planned.{AnswersPlan, IsPlanned};
ghost use Rattle.board_core.specs.Worked.{IsToExecute};
ghost use Rattle.board_core.specs.declared.effect.Effect.TheVariants as effect;

use crate::board::BoardCore;
use crate::effect::Effect;
use crate::log::Draft;
use crate::work::progress;
use board_state::{Running, StatisticsChange};
use board_steps::BoardFault;
use hk_base::{Items, Key, Memory, Structure, slot_of};
use hk_world::Act;
use pus_messages::{ReportBody, requests_are_spelled};
use report_structures::Refusal;
use st03_grammar::{PeriodicRow, Report03};
use st20_grammar::{Report20, Setting};

impl BoardCore {
    /// Executes the next instruction of the request that comes first.
    pub(crate) fn execute(&mut self) -> Result<u32, BoardFault>
        requires { IsToExecute self.old }
        ensures { Answers self.old Work self.new result }
    {
        let Some(running) = self.requests.first() else {
            unreachable!();
        };
        let effect = self.effect_of(running, running.executed + 1)?;
        let draft = self.execution(running, &effect)?;
        self.carry_out(effect, draft)
    }

    /// The moments of an instruction that is executed.
    fn execution(&self, running: &Running, effect: &Effect) -> Result<Draft, BoardFault>
        requires few { length (instructions running.now.request) ≤ 255 }
        requires executing { IsExecuting self.now running.now effect.now }
        ensures { AnswersPlan self.now Work result }
    {
        let mut draft = self.executed(running, effect)?;
        self.add_ordered(effect, &mut draft)?;
        Ok(draft)
    }

    /// The first moment of an instruction that is executed.
    fn executed(&self, running: &Running, effect: &Effect) -> Result<Draft, BoardFault>
        requires few { length (instructions running.now.request) ≤ 255 }
        requires executing { IsExecuting self.now running.now effect.now }
        ensures { AnswersFirst self.now running.now effect.now result }
    {
        // The fitness of the tailoring: it does nothing.
        let tailoring = self.log.tailoring();
        let _fit = tailoring.widths();
        let number = running.executed + 1;
        let mut draft = self.log.draft(self.clock, effect.moments())?;
        let act = Act::Executed(running.number, number, effect.is_done());
        let report = progress(running, number, effect);
        draft.add(self.alloc, tailoring, act, report)?;
        Ok(draft)
    }

    /// Adds the report that an effect orders behind the first moment.
    fn add_ordered(&self, effect: &Effect, draft: &mut Draft) -> Result<(), Memory>
        requires { (w : Running) × IsExecuting self.now w effect.now × IsFirstDrafted self.now w effect.now draft.old }
        ensures { OnOk result (IsPlanned self.now Work draft.new) }
    {
        let tailoring = self.log.tailoring();
        let _fit = tailoring.widths();
        let tag = draft.next_tag();
        let report = self.ordered_report(effect, tag)?;
        match report {
            Some(body) => draft.add(self.alloc, tailoring, Act::Emitted, Some(body)),
            None => Ok(()),
        }
    }

    /// The report that an effect orders, at this tag. Where it orders one, the tag is one that a packet can carry.
    fn ordered_report(&self, effect: &Effect, tag: u64) -> Result<Option<ReportBody>, Memory>
        requires effect { (x : Instruction) × IsEffectOf self.now x effect.now }
        requires early { tag + length (effect_topics effect.now) ≤ fit.greatest_tag self.now.tailoring + 1 }
        ensures { (w : Running) (m : Moment) → IsExecuting self.now w effect.now → IsExecutedBy self.now w effect.now m → IfOk result (IsToldAfter self.now m tag (effect_topics effect.now)) }
    {
        // The fitness of the tailoring: it does nothing.
        let _fit = self.log.tailoring().widths();
        match effect {
            Effect::ShowStructure(key, structure) => {
                let copy = structure.copy(self.alloc)?;
                Ok(Some(ReportBody::Hk(Report03::Structure(*key, copy))))
            }
            Effect::ShowProperties(key, structure) => {
                Ok(Some(self.properties_report(*key, structure)?))
            }
            Effect::ChangeStatistics(change) => self.ordered_statistics(*change, tag),
            Effect::ReportValues(ids) => Ok(Some(self.values_report(ids.as_slice())?)),
            _ => Ok(None),
        }
    }

    /// The report that a change of the statistics orders, at this tag. Where it orders one, the tag is one that a packet can carry.
    fn ordered_statistics(
        &self,
        change: StatisticsChange,
        tag: u64,
    ) -> Result<Option<ReportBody>, Memory>
        requires early { tag + length (statistics_topics change) ≤ fit.greatest_tag self.now.tailoring + 1 }
        ensures { (w : Running) (m : Moment) → IsExecuting self.now w (effect.ChangeStatistics change) → IsExecutedBy self.now w (effect.ChangeStatistics change) m → IfOk result (IsToldAfter self.now m tag (statistics_topics change)) }
    {
        match change {
            StatisticsChange::Report(_) => Ok(Some(self.reported_statistics(tag)?)),
            StatisticsChange::ShowDefinitions => Ok(Some(self.reported_definitions()?)),
            _ => Ok(None),
        }
    }

    fn properties_report(&self, key: Key, structure: &Structure) -> Result<ReportBody, Memory>
        ensures { IfOk result (λ body. body ≡ Hk (hk.Periodic key.kind (row_of key structure.now ∷ []))) }
    {
        let row = PeriodicRow {
            id: key.id,
            enabled: structure.enabled,
            interval: structure.def.interval,
        };
        let rows = Items::from_slice(self.alloc, &[row])?;
        Ok(ReportBody::Hk(Report03::Periodic(key.kind, rows)))
    }

    /// Adds the moments of an instruction to the journal, and does what it does.
    fn carry_out(&mut self, effect: Effect, draft: Draft) -> Result<u32, BoardFault>
        requires { IsToCarry self.old effect draft }
        ensures { Answers self.old Work self.new result }
    {
        match effect {
            Effect::Refused(refusal) => self.pass_over(refusal, draft),
            Effect::Create(key, structure) => self.create(key, structure, draft),
            Effect::Delete(key) => self.delete(key, draft),
            Effect::Replace(key, structure, begins) => self.replace(key, structure, begins, draft),
            Effect::OrderOneShot(key) => self.order_one_shot(key, draft),
            Effect::ChangeStatistics(change) => self.change_statistics(change, draft),
            Effect::SetValues(settings) => self.set_values(settings, draft),
            _shown => self.show(draft),
        }
    }

    /// The slot after that of the first moment of a draft.
    pub(crate) fn next_slot(&self) -> u64
        ensures slot { result ≡ fit.slot_of self.now.tailoring (next_tag self.now.clock self.now.moments) + 1 }
    {
        let tag = self.clock.max(self.log.last_tag() + 1);
        slot_of(self.log.tailoring(), tag) + 1
    }

    /// The slot with which intervals begin anew, where they do.
    fn begin_slot(&self, begins: bool) -> Option<u64>
        ensures { result ≡ (if begins then Some (fit.slot_of self.now.tailoring (next_tag self.now.clock self.now.moments) + 1) else None) }
    {
        if begins { Some(self.next_slot()) } else { None }
    }

    /// An instruction was refused.
    fn pass_over(&mut self, refusal: Refusal, draft: Draft) -> Result<u32, BoardFault>
        requires { IsToCarry self.old (effect.Refused refusal) draft }
        ensures { Answers self.old Work self.new result }
    {
        // A law, and the fitness of the tailoring: they do nothing.
        requests_are_spelled();
        let _fit = self.log.tailoring().widths();
        let refused = self.requests.refused_next()?;
        let count = self.log.commit(draft)?;
        self.requests.count_refused(refused);
        Ok(count)
    }

    /// A new structure, for which the memory is taken first.
    fn create(&mut self, key: Key, structure: Structure, draft: Draft) -> Result<u32, BoardFault>
        requires { IsToCarry self.old (effect.Create key structure) draft }
        ensures { Answers self.old Work self.new result }
    {
        // A law, and the fitness of the tailoring: they do nothing.
        requests_are_spelled();
        let _fit = self.log.tailoring().widths();
        let first_slot = self.next_slot();
        self.structures.create(key, structure, first_slot)?;
        match self.log.commit(draft) {
            Ok(count) => {
                self.requests.count_done();
                Ok(count)
            }
            Err(Memory) => {
                self.structures.delete(key);
                Err(BoardFault::Memory)
            }
        }
    }

    /// Takes a structure away.
    fn delete(&mut self, key: Key, draft: Draft) -> Result<u32, BoardFault>
        requires { IsToCarry self.old (effect.Delete key) draft }
        ensures { Answers self.old Work self.new result }
    {
        // A law, and the fitness of the tailoring: they do nothing.
        requests_are_spelled();
        let _fit = self.log.tailoring().widths();
        let count = self.log.commit(draft)?;
        self.structures.delete(key);
        self.requests.count_done();
        Ok(count)
    }

    /// Puts a structure in the place of the one that is there.
    fn replace(
        &mut self,
        key: Key,
        structure: Structure,
        begins: bool,
        draft: Draft,
    ) -> Result<u32, BoardFault>
        requires { IsToCarry self.old (effect.Replace key structure begins) draft }
        ensures { Answers self.old Work self.new result }
    {
        // A law, and the fitness of the tailoring: they do nothing.
        requests_are_spelled();
        let _fit = self.log.tailoring().widths();
        let begins = self.begin_slot(begins);
        let count = self.log.commit(draft)?;
        self.structures.replace(key, structure, begins);
        self.requests.count_done();
        Ok(count)
    }

    /// A report that comes once.
    fn order_one_shot(&mut self, key: Key, draft: Draft) -> Result<u32, BoardFault>
        requires { IsToCarry self.old (effect.OrderOneShot key) draft }
        ensures { Answers self.old Work self.new result }
    {
        // A law, and the fitness of the tailoring: they do nothing.
        requests_are_spelled();
        let _fit = self.log.tailoring().widths();
        let next_slot = self.next_slot();
        let count = self.log.commit(draft)?;
        self.structures.order_one_shot(key, next_slot);
        self.requests.count_done();
        Ok(count)
    }

    /// Sets values.
    fn set_values(&mut self, settings: Items<Setting>, draft: Draft) -> Result<u32, BoardFault>
        requires { IsToCarry self.old (effect.SetValues settings) draft }
        ensures { Answers self.old Work self.new result }
    {
        // A law, and the fitness of the tailoring: they do nothing.
        requests_are_spelled();
        let _fit = self.log.tailoring().widths();
        let count = self.log.commit(draft)?;
        self.channels.set(settings.as_slice());
        self.requests.count_done();
        Ok(count)
    }

    /// An instruction that only orders a report.
    fn show(&mut self, draft: Draft) -> Result<u32, BoardFault>
        requires { (e : Effect) × IsToCarry self.old e draft × OnlyShows e }
        ensures { Answers self.old Work self.new result }
    {
        // A law, and the fitness of the tailoring: they do nothing.
        requests_are_spelled();
        let _fit = self.log.tailoring().widths();
        let count = self.log.commit(draft)?;
        self.requests.count_done();
        Ok(count)
    }
}
