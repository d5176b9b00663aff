use ground_history::Outcome;
use st03_grammar::Change;
use std::marker::Model;

/// A request that may have changed a structure, with what is known of it whatever the tag of a report is.
#[derive(Debug, Drop)]
pub(crate) struct Bounded<'a> {
    /// The number of the request, from 0.
    pub number: u64,
    pub change: Change<'a>,
    /// The tag above which all that is executed of it lies.
    pub low: u64,
    /// The tag below which all that is executed of it lies, if one is known.
    pub high: Option<u64>,
    pub accepted: bool,
    pub outcome: Outcome,
}

impl<'a> Model for Bounded<'a> {
    ghost use Rattle.st03_grammar.specs.Instructions.{change_of};
    ghost use Rattle.opening_sweeps.specs.Requests as requests;

    ghost Value = { requests.Bounded };

    ghost view = { λ r. record { number = r.number; change = change_of r.change; low = r.low; high = r.high; accepted = r.accepted; outcome = r.outcome } };
}
