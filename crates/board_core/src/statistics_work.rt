//! The statistics: why a change is refused, what it leaves, and the reports on them.
ghost use Rattle.std.specs.Prelude.{◌≡◌, ◌≤◌, ◌∷◌, [], ℕ, Bool, Some, length, IfOk};
ghost use Rattle.hk_base.specs.Fit as fit;
ghost use Rattle.std.specs.List.{All, AllByRecursion};
ghost use Rattle.statistics.specs.Summaries.{IsSampleValue};
ghost use Rattle.pus_messages.specs.Instructions.{on_statistics};
ghost use Rattle.board_steps.specs.Steps.{Answers};
ghost use Rattle.board_steps.specs.declared.event.Event.TheVariants.{Work};
ghost use Rattle.board_state.specs.OneByOne.{statistics_change_of};
ghost use Rattle.board_state.specs.Statistics.{Changes, IsTimely};
ghost use Rattle.board_state.specs.declared.running.Running.{Running};
ghost use Rattle.board_state.specs.declared.instruction.StatisticsChange.TheVariants as change;
ghost use Rattle.hk_world.specs.declared.moment.Moment.{Moment};
ghost use Rattle.board_steps.specs.Plans as topic;
ghost use Rattle.board_core.specs.Effects.{IsEffectOf, IsExecuting, IsStatisticsOfGrammar, IsToCarry};
ghost use Rattle.board_core.specs.Execution.{IsExecutedBy, IsToldAfter};
ghost use Rattle.board_core.specs.Reporting.{refusal_held, FilesAll, HasAtMost, IsStatisticsBody, IsDefinitionsBody};
ghost use Rattle.board_core.specs.declared.effect.Effect.TheVariants as effect;

use crate::board::BoardCore;
use crate::effect::Effect;
use crate::log::Draft;
use board_state::{MOST_MEMBERS, Members, StatisticsChange};
use board_steps::BoardFault;
use hk_base::{Memory, Tailoring};
use pus_messages::{ReportBody, requests_are_spelled};
use report_structures::Refusal;
use st04_grammar::Report04;
use st20_grammar::Setting;
use std::alloc::Global;

impl BoardCore {
    /// What a change of the statistics does.
    pub(crate) fn statistics_effect(&self, change: StatisticsChange) -> Effect
        requires { IsStatisticsOfGrammar self.now.tailoring (statistics_change_of change) }
        ensures { IsEffectOf self.now (on_statistics (statistics_change_of change)) result }
    {
        match statistics_refusal(&self.members, change) {
            Some(refusal) => Effect::Refused(refusal),
            None => Effect::ChangeStatistics(change),
        }
    }

    /// The report of the statistics at this tag, which an instruction orders.
    pub(crate) fn reported_statistics(&self, tag: u64) -> Result<ReportBody, Memory>
        requires { tag ≤ fit.greatest_tag self.now.tailoring }
        ensures { (w : Running) (m : Moment) (resets : Bool) → IsExecuting self.now w (effect.ChangeStatistics (change.Report resets)) → IsExecutedBy self.now w (effect.ChangeStatistics (change.Report resets)) m → IfOk result (λ body. IsToldAfter self.now m tag (topic.statistics ∷ []) (Some body)) }
    {
        let tailoring = self.log.tailoring();
        let _fit = tailoring.widths();
        statistics_report(self.alloc, tailoring, &self.members, tag)
    }

    /// The report of what the statistics are taken of, which an instruction orders.
    pub(crate) fn reported_definitions(&self) -> Result<ReportBody, Memory>
        ensures { (w : Running) (m : Moment) (tag : ℕ) → IsExecuting self.now w (effect.ChangeStatistics change.ShowDefinitions) → IsExecutedBy self.now w (effect.ChangeStatistics change.ShowDefinitions) m → IfOk result (λ body. IsToldAfter self.now m tag (topic.definitions ∷ []) (Some body)) }
    {
        let _fit = self.log.tailoring().widths();
        definitions_report(self.alloc, &self.members)
    }

    /// Changes the statistics. The last moment has the last tag.
    pub(crate) fn change_statistics(
        &mut self,
        change: StatisticsChange,
        draft: Draft,
    ) -> Result<u32, BoardFault>
        requires { IsToCarry self.old (effect.ChangeStatistics change) draft }
        ensures { Answers self.old Work self.new result }
    {
        // A law, and the fitness of the tailoring: they do nothing.
        requests_are_spelled();
        let _fit = self.log.tailoring().widths();
        let next_slot = self.next_slot();
        let last_tag = draft.last_tag;
        let members = changed_members(self.alloc, &self.members, change, last_tag, next_slot)?;
        let count = self.log.commit(draft)?;
        self.members = members;
        self.requests.count_done();
        Ok(count)
    }
}

/// Why a change of the statistics is refused, if it is.
fn statistics_refusal(members: &Members, change: StatisticsChange) -> Option<Refusal>
    ensures { result ≡ refusal_held members.now.members (statistics_change_of change) }
{
    match change {
        StatisticsChange::Add(id) => {
            if members.has(id) || members.len() < MOST_MEMBERS {
                None
            } else {
                Some(Refusal::TooMany(256))
            }
        }
        StatisticsChange::Delete(id) => {
            if members.has(id) {
                None
            } else {
                Some(Refusal::Absent)
            }
        }
        _ => None,
    }
}

/// What a change leaves that is done before the slot with this number, the last of its moments at this tag.
fn changed_members(
    alloc: Global,
    members: &Members,
    change: StatisticsChange,
    last_tag: u64,
    next_slot: u64,
) -> Result<Members, Memory>
    ensures { IfOk result (Changes (statistics_change_of change) last_tag next_slot members.now) }
{
    let mut changed = members.copy(alloc)?;
    match change {
        StatisticsChange::Report(true) | StatisticsChange::Reset => changed.reset(last_tag),
        StatisticsChange::Report(false) | StatisticsChange::ShowDefinitions => {}
        StatisticsChange::Enable(interval) => changed.enable(interval, next_slot),
        StatisticsChange::Disable => changed.disable(),
        StatisticsChange::Add(id) => changed.add(id)?,
        StatisticsChange::Delete(id) => changed.delete(id),
        StatisticsChange::DeleteAll => changed.delete_all(),
    }
    Ok(changed)
}

/// The statistics with the samples of settable parameters in a slot that closes.
pub(crate) fn closed_members(
    alloc: Global,
    members: &Members,
    slot: u64,
    settings: &[Setting],
) -> Result<Members, Memory>
    requires values { All (λ x. IsSampleValue x.value) settings.now }
    requires few { length settings.now ≤ 512 }
    requires room { AllByRecursion (HasAtMost 1048576) members.now.members }
    ensures { IfOk result (FilesAll slot settings.now members.now) }
{
    let mut closed = members.copy(alloc)?;
    for setting in settings {
        closed.file(setting.param, slot, setting.value);
    }
    Ok(closed)
}

/// The report of the statistics at this tag.
pub(crate) fn statistics_report(
    alloc: Global,
    tailoring: &Tailoring,
    members: &Members,
    tag: u64,
) -> Result<ReportBody, Memory>
    requires { All (IsTimely tailoring.now) members.now.members }
    ensures { IfOk result (IsStatisticsBody tailoring.now members.now tag) }
{
    let report = members.report(alloc, tailoring, tag)?;
    Ok(ReportBody::Stat(Report04::Statistics(report)))
}

/// The report of what the statistics are taken of.
fn definitions_report(alloc: Global, members: &Members) -> Result<ReportBody, Memory>
    ensures { IfOk result (IsDefinitionsBody members.now) }
{
    let params = members.params(alloc)?;
    let (enabled, interval) = (members.is_enabled(), members.interval());
    Ok(ReportBody::Stat(Report04::Definitions(enabled, interval, params)))
}
