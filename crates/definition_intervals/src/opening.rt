use ground_history::Outcome;
use hk_base::{Items, Structure};
use st03_grammar::Change;
use std::marker::Model;

/// A request that may have changed a structure.
#[derive(Debug, Drop)]
pub struct Candidate<'a> {
    /// The number of the request, from 0.
    pub number: u64,
    pub change: Change<'a>,
    /// Whether it was surely executed in time.
    pub certain: bool,
    pub outcome: Outcome,
}

impl<'a> Model for Candidate<'a> {
    ghost use Rattle.st03_grammar.specs.Instructions.{change_of};
    ghost use Rattle.definition_intervals.specs.Openings as openings;

    ghost Value = { openings.Candidate };

    ghost view = { λ c. record { number = c.number; change = change_of c.change; certain = c.certain; outcome = c.outcome } };
}

/// A state that a structure had at a tag, and the requests that may have changed it since, in the order of their numbers.
#[derive(Debug, Drop)]
pub struct Opening<'a> {
    pub tag: u64,
    pub state: Option<&'a Structure>,
    pub requests: Items<Candidate<'a>>,
}

impl<'a> Model for Opening<'a> {
    ghost use Rattle.std.specs.Option.{option_copied};
    ghost use Rattle.definition_intervals.specs.Openings as openings;

    ghost Value = { openings.Opening };

    ghost view = { λ o. record { tag = o.tag; state = option_copied o.state; requests = o.requests } };
}
