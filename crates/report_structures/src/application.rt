//! The effect of a change.
ghost use Rattle.std.specs.Prelude.{◌≡◌, ◌≤◌, [], ◌∷◌, Some, None, Ok, IfOk, All};
ghost use Rattle.std.specs.Option.{option_copied};
ghost use Rattle.hk_base.specs.Definitions.{IsWellFormed};
ghost use Rattle.st03_grammar.specs.Instructions as instructions;
ghost use Rattle.st03_grammar.specs.Instructions.{change_of};
ghost use Rattle.report_structures.specs.Effects as effects;
ghost use Rattle.report_structures.specs.Effects.{effect, each_effect, state_unless, if_uneven, with_definition};
ghost use Rattle.report_structures.specs.Changes.{Gives, IsGrammarChange, IsFormedState};

use crate::checks::{check_disabled, check_even, check_few, check_narrow, check_once, listed_ids};
use crate::extension::extended;
use crate::refusal::{ApplyFault, Refusal};
use hk_base::{Definition, Structure, Tailoring};
use st03_grammar::{Added, Change, Each};
use std::alloc::Global;

/// Whether a change can change its structure. Those that can't only order a report.
pub fn changes(change: &Change<'_>) -> bool
    ensures { result ≡ instructions.changes (change_of change.now) }
{
    match change {
        Change::Create(_) | Change::Append(_) | Change::Interval(_) => true,
        Change::Plain(each) => matches!(each, Each::Delete | Each::Enable | Each::Disable),
    }
}

/// The state after a change, with copies of what it holds, or why the change is refused. A state is absent or a
/// structure, which may be wider than a payload can be.
pub fn apply(
    alloc: Global,
    tailoring: &Tailoring,
    change: Change<'_>,
    before: Option<&Structure>,
) -> Result<Option<Structure>, ApplyFault>
    requires grammar { IsGrammarChange tailoring.now (change_of change) }
    requires formed { IsFormedState tailoring.now (option_copied before) }
    ensures effect { Gives result (effect tailoring.now (change_of change.entry) (option_copied before.entry)) }
    ensures formed { IfOk result (IsFormedState tailoring.now) }
{
    applied(alloc, tailoring, change, before)
}

/// The state after a change.
fn applied(
    alloc: Global,
    tailoring: &Tailoring,
    change: Change<'_>,
    before: Option<&Structure>,
) -> Result<Option<Structure>, ApplyFault>
    requires grammar { IsGrammarChange tailoring.now (change_of change) }
    requires formed { IsFormedState tailoring.now (option_copied before) }
    ensures { Gives result (effect tailoring.now (change_of change.entry) (option_copied before.entry)) }
{
    match (change, before) {
        (Change::Create(def), None) => create(alloc, tailoring, def),
        (Change::Create(_), Some(_)) => Err(ApplyFault::Refused(Refusal::Exists)),
        (_, None) => Err(ApplyFault::Refused(Refusal::Absent)),
        (Change::Append(added), Some(before)) => append(alloc, tailoring, added, before),
        (Change::Interval(interval), Some(before)) => set_interval(alloc, interval, before),
        (Change::Plain(each), Some(before)) => change_plainly(alloc, each, before),
    }
}

/// A new structure, which is disabled.
fn create(
    alloc: Global,
    tailoring: &Tailoring,
    def: &Definition,
) -> Result<Option<Structure>, ApplyFault>
    requires { IsGrammarChange tailoring.now (instructions.create def.now) }
    ensures { Gives result (effect tailoring.now (instructions.create def.now) None) }
{
    let ids = listed_ids(alloc, def.simple.as_slice(), def.arrays.as_slice())?;
    check_once(&[], &ids)?;
    check_narrow(tailoring, def)?;
    Ok(Some(Structure {
        def: def.copy(alloc)?,
        enabled: false,
    }))
}

/// A structure with more lists.
fn append(
    alloc: Global,
    tailoring: &Tailoring,
    added: &Added,
    before: &Structure,
) -> Result<Option<Structure>, ApplyFault>
    requires grammar { IsGrammarChange tailoring.now (instructions.append added.now) }
    requires formed { IsWellFormed tailoring.now before.now.def }
    ensures { Gives result (effect tailoring.now (instructions.append added.now) (Some before.now)) }
{
    let def = &before.def;
    let (simple, arrays) = (added.simple.as_slice(), added.arrays.as_slice());
    check_disabled(before)?;
    let earlier = listed_ids(alloc, def.simple.as_slice(), def.arrays.as_slice())?;
    check_once(&earlier, &listed_ids(alloc, simple, arrays)?)?;
    check_even(def.interval, arrays)?;
    check_few(def.simple.as_slice().len() + simple.len())?;
    check_few(def.arrays.as_slice().len() + arrays.len())?;
    let longer = extended(alloc, def, added)?;
    check_narrow(tailoring, &longer)?;
    Ok(Some(Structure {
        def: longer,
        enabled: before.enabled,
    }))
}

/// A structure with another interval.
fn set_interval(
    alloc: Global,
    interval: u32,
    before: &Structure,
) -> Result<Option<Structure>, ApplyFault>
    requires { All (λ array. 1 ≤ array.repetition) before.now.def.arrays }
    ensures { Gives result (state_unless (if_uneven interval before.now.def.arrays ∷ [])
        (Some (with_definition before.now (record before.now.def { interval = interval })))) }
{
    check_even(interval, before.def.arrays.as_slice())?;
    let mut after = before.copy(alloc)?;
    after.def.interval = interval;
    Ok(Some(after))
}

/// What a change without lists or numbers makes of a structure.
fn change_plainly(
    alloc: Global,
    each: Each,
    structure: &Structure,
) -> Result<Option<Structure>, ApplyFault>
    ensures { Gives result (each_effect each structure.now) }
{
    match each {
        Each::Delete => {
            check_disabled(structure)?;
            Ok(None)
        }
        Each::Enable => with_status(alloc, structure, true),
        Each::Disable => with_status(alloc, structure, false),
        Each::Show | Each::OneShot | Each::ShowPeriodic => Ok(Some(structure.copy(alloc)?)),
    }
}

/// A structure with another status.
fn with_status(
    alloc: Global,
    before: &Structure,
    enabled: bool,
) -> Result<Option<Structure>, ApplyFault>
    ensures { Gives result (Ok (Some (effects.with_status before.now enabled))) }
{
    let mut after = before.copy(alloc)?;
    after.enabled = enabled;
    Ok(Some(after))
}
