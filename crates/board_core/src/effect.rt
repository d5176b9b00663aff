//! What an instruction does in the present state.
ghost use Rattle.std.specs.Prelude.{◌≡◌, ◌+◌, ◌<◌, ◌^◌, length, IfOk};
ghost use Rattle.st03_grammar.specs.Instructions.{change_of};
ghost use Rattle.report_structures.specs.Changes.{IsGrammarChange};
ghost use Rattle.pus_messages.specs.Instructions.{on_structure, on_statistics};
ghost use Rattle.board_state.specs.OneByOne.{instruction_of, statistics_change_of};
ghost use Rattle.board_core.specs.Effects.{IsEffectOf, IsOfGrammar, IsStatisticsOfGrammar, is_done, refusal_of, effect_topics, kind_of, effect_by};

use crate::board::BoardCore;
use board_state::{Instruction, StatisticsChange};
use hk_base::{Items, Key, Memory, Structure};
use report_structures::{ApplyFault, Refusal, apply};
use st03_grammar::{Change, Each};
use st20_grammar::Setting;

/// What an instruction does, or why it does nothing.
#[derive(Drop)]
pub(crate) enum Effect {
    Refused(Refusal),
    Create(Key, Structure),
    Delete(Key),
    /// A structure in the place of one; true where its intervals begin anew.
    Replace(Key, Structure, bool),
    OrderOneShot(Key),
    ShowStructure(Key, Structure),
    ShowProperties(Key, Structure),
    ChangeStatistics(StatisticsChange),
    ReportValues(Items<u32>),
    SetValues(Items<Setting>),
}

impl Effect {
    /// Whether the instruction is done.
    pub(crate) fn is_done(&self) -> bool
        ensures { result ≡ is_done self.now }
    {
        !matches!(self, Effect::Refused(_))
    }

    /// Why the instruction is refused, if it is.
    pub(crate) fn refusal(&self) -> Option<Refusal>
        ensures { result ≡ refusal_of self.now }
    {
        match self {
            Effect::Refused(refusal) => Some(*refusal),
            _ => None,
        }
    }

    /// How many moments its execution has: one, and one for the report that it orders.
    pub(crate) fn moments(&self) -> u64
        ensures { result ≡ 1 + length (effect_topics self.now) }
    {
        match self {
            Effect::ShowStructure(_, _)
            | Effect::ShowProperties(_, _)
            | Effect::ReportValues(_)
            | Effect::ChangeStatistics(
                StatisticsChange::Report(_) | StatisticsChange::ShowDefinitions,
            ) => 2,
            _ => 1,
        }
    }
}

impl BoardCore {
    /// What an instruction does in the present state.
    pub(crate) fn effect(&self, instruction: Instruction<'_>) -> Result<Effect, Memory>
        requires { IsOfGrammar self.now.tailoring (instruction_of instruction) }
        ensures { IfOk result (IsEffectOf self.now (instruction_of instruction.entry)) }
    {
        match instruction {
            Instruction::Structure(key, change) => self.structure_effect(key, change),
            Instruction::Statistics(change) => Ok(self.statistics_effect(change)),
            Instruction::ReportValues(ids) => self.report_effect(ids),
            Instruction::SetValues(settings) => Ok(Effect::SetValues(Items::from_slice(
                self.alloc, settings,
            )?)),
        }
    }

    fn structure_effect(&self, key: Key, change: Change<'_>) -> Result<Effect, Memory>
        requires grammar { IsGrammarChange self.now.tailoring (change_of change) }
        requires id { key.id < 256 ^ self.now.tailoring.widths.structure_octets }
        ensures { IfOk result (IsEffectOf self.now (on_structure key (change_of change.entry))) }
    {
        let kind = ChangeKind::of(&change);
        let before = self.structures.structure(key);
        let tailoring = self.log.tailoring();
        let _fit = tailoring.widths();
        match apply(self.alloc, tailoring, change, before) {
            Ok(Some(after)) => Ok(kind.effect(key, after)),
            Ok(None) => Ok(Effect::Delete(key)),
            Err(ApplyFault::Refused(refusal)) => Ok(Effect::Refused(refusal)),
            Err(ApplyFault::Memory) => Err(Memory),
        }
    }
}

/// What a change of a structure is for.
#[derive(Clone, Copy, Debug, PartialEq, Eq, Drop)]
enum ChangeKind {
    Creation,
    /// The intervals begin anew.
    Redefinition,
    Status,
    OneShot,
    Show,
    ShowPeriodic,
}

impl ChangeKind {
    fn of(change: &Change<'_>) -> ChangeKind
        ensures { result ≡ kind_of (change_of change.now) }
    {
        match change {
            Change::Create(_) => ChangeKind::Creation,
            Change::Append(_) | Change::Interval(_) | Change::Plain(Each::Enable) => {
                ChangeKind::Redefinition
            }
            Change::Plain(Each::Delete | Each::Disable) => ChangeKind::Status,
            Change::Plain(Each::OneShot) => ChangeKind::OneShot,
            Change::Plain(Each::Show) => ChangeKind::Show,
            Change::Plain(Each::ShowPeriodic) => ChangeKind::ShowPeriodic,
        }
    }

    /// The effect that leaves this structure.
    fn effect(self, key: Key, after: Structure) -> Effect
        ensures { result ≡ effect_by self key after }
    {
        match self {
            ChangeKind::Creation => Effect::Create(key, after),
            ChangeKind::Redefinition => Effect::Replace(key, after, true),
            ChangeKind::Status => Effect::Replace(key, after, false),
            ChangeKind::OneShot => Effect::OrderOneShot(key),
            ChangeKind::Show => Effect::ShowStructure(key, after),
            ChangeKind::ShowPeriodic => Effect::ShowProperties(key, after),
        }
    }
}
