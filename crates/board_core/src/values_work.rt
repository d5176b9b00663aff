//! The values of parameters: why a report of them is refused, and what it holds.
ghost use Rattle.std.specs.Prelude.{◌≡◌, ◌∷◌, [], None, Some, IfOk};
ghost use Rattle.pus_messages.specs.Instructions.{report_values};
ghost use Rattle.st20_grammar.specs.Spelling.{AreIds};
ghost use Rattle.hk_world.specs.States.{refusal};
ghost use Rattle.board_steps.specs.Cores.{state_of};
ghost use Rattle.board_steps.specs.Plans.{values_of};
ghost use Rattle.board_core.specs.Effects.{IsEffectOf, IsOrderedBody};
ghost use Rattle.board_core.specs.Reporting.{pair_held, pairs_held};

use crate::board::BoardCore;
use crate::effect::Effect;
use board_state::Channels;
use hk_base::{Items, Memory};
use pus_messages::{ReportBody, requests_are_spelled};
use report_structures::Refusal;
use st20_grammar::{Report20, Setting};
use std::alloc::Global;

impl BoardCore {
    /// What a request for values does.
    pub(crate) fn report_effect(&self, ids: &[u32]) -> Result<Effect, Memory>
        requires { AreIds self.now.tailoring ids.now }
        ensures { IfOk result (IsEffectOf self.now (report_values ids.now)) }
    {
        match self.channels.without_value(ids) {
            Some(id) => Ok(Effect::Refused(Refusal::NoValue(id))),
            None => Ok(Effect::ReportValues(Items::from_slice(self.alloc, ids)?)),
        }
    }

    /// The report of values.
    pub(crate) fn values_report(&self, ids: &[u32]) -> Result<ReportBody, Memory>
        requires ids { AreIds self.now.tailoring ids.now }
        requires values { refusal self.now.tailoring (state_of self.now) (report_values ids.now) ≡ None }
        ensures { IfOk result (λ body. IsOrderedBody self.now 0 (values_of ids.now ∷ []) (Some body)) }
    {
        // A law, and the fitness of the tailoring: they do nothing.
        requests_are_spelled();
        let _fit = self.log.tailoring().widths();
        let pairs = Items::from_vec(pairs_of(self.alloc, &self.channels, ids)?);
        Ok(ReportBody::Par(Report20 { pairs }))
    }
}

/// Parameters with their values, of those that have one.
fn pairs_of(alloc: Global, channels: &Channels, ids: &[u32]) -> Result<Vec<Setting>, Memory>
    ensures { IfOk result (λ pairs. pairs.items ≡ pairs_held channels.now ids.now) }
{
    let mut pairs = Vec::new(alloc);
    for id in ids {
        if let Some(pair) = pair_of(channels, *id) {
            pairs.push(pair)?;
        }
    }
    Ok(pairs)
}

/// A parameter with its value, if it has one.
fn pair_of(channels: &Channels, param: u32) -> Option<Setting>
    ensures { result ≡ pair_held channels.now param }
{
    let value = channels.value(param)?;
    Some(Setting { param, value })
}
