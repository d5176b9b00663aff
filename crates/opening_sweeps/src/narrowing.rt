//! The states that all finds have in common.
ghost use Rattle.std.specs.Prelude.{IfOk, IfSome, All};
ghost use Rattle.std.specs.List.{IsDistinct};
ghost use Rattle.hk_base.specs.TailoringParts.{TailoringParts};
ghost use Rattle.report_structures.specs.Changes.{IsFormedState};
ghost use Rattle.definition_intervals.specs.States.{state_eq};
ghost use Rattle.definition_intervals.specs.Founds.{IsCommon};
ghost use Rattle.opening_sweeps.specs.Groups.{finds, HaveFormedFinds};
ghost use Rattle.opening_sweeps.specs.declared.group.Group as declared;

use crate::group::Group;
use definition_intervals::narrowed_by_found;
use hk_base::{Items, Memory, Structure};
use std::alloc::Global;

/// The states that are possible from each opening that isn't crowded, each once; None where all are crowded.
pub(crate) fn common_states(
    alloc: Global,
    groups: &[Group],
) -> Result<Option<Items<Option<Structure>>>, Memory>
    requires { All (λ (g : declared.Group). IfSome g.found (IsDistinct state_eq)) groups.now }
    ensures common { IfOk result (IsCommon (finds groups.now)) }
    ensures formed { IfOk result (λ common. (t : TailoringParts) → HaveFormedFinds t groups.now → IfSome common (All (IsFormedState t))) }
{
    let mut common = None;
    for group in groups {
        common = narrowed_by_found(alloc, common, &group.found)?;
    }
    Ok(common)
}
