//! What an executor asks of its core.
ghost use Rattle.std.specs.Prelude.{◌≡◌, ◌≤◌, length, OnOk, IfErr};
ghost use Rattle.board_core.specs.Boards.{IsSmall};
ghost use Rattle.board_steps.specs.Runs.{IsMade};
ghost use Rattle.board_steps.specs.SlotRuns.{Refuses};
ghost use Rattle.board_steps.specs.Steps.{IsEvent};

use board_core::{BoardCore, BoardFault, Event};

/// Gives the core an event.
pub(crate) fn give(core: &mut BoardCore, event: Event) -> Result<(), BoardFault>
    requires comes { IsEvent core.old event }
    requires small { IsSmall event }
    ensures made { OnOk result (IsMade core.old event core.new) }
    ensures refused { IfErr result (λ fault. (core.new ≡ core.old) × Refuses core.old event fault) }
{
    match core.step(event) {
        Ok(_) => Ok(()),
        Err(fault) => Err(fault),
    }
}

/// The number of moments so far.
pub(crate) fn count_moments(core: &BoardCore) -> u32
    ensures count { result ≡ length core.now.moments }
    ensures most { result ≤ 1048576 }
{
    core.journal().len()
}
