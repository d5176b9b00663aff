//! The request that a verdict names.
ghost use Rattle.std.specs.Prelude.{◌≡◌};
ghost use Rattle.std.specs.Option.{option_copied};
ghost use Rattle.st03_grammar.specs.Instructions as instructions;
ghost use Rattle.st03_grammar.specs.Instructions.{change_of};
ghost use Rattle.definition_intervals.specs.Openings as openings;
ghost use Rattle.definition_intervals.specs.Verdicts as verdicts;
ghost use Rattle.definition_intervals.specs.Findings.{newer_of};

use crate::opening::{Candidate, Opening};
use ground_history::Outcome;
use st03_grammar::{Change, Each};

/// The number of the first open change of the opening with the greatest tag, the last one of these; 0 where there is none.
pub(crate) fn named_request(openings: &[Opening<'_>]) -> u64
    ensures { result ≡ verdicts.named_request openings.now }
{
    match latest(openings) {
        Some(opening) => first_open(opening).unwrap_or(0),
        None => 0,
    }
}

/// The opening with the greatest tag, the last one of these.
fn latest<'a, 'b>(openings: &'a [Opening<'b>]) -> Option<&'a Opening<'b>>
    ensures { option_copied result ≡ verdicts.latest openings.now }
{
    let mut latest = None;
    for opening in openings {
        latest = Some(newer(latest, opening));
    }
    latest
}

fn newer<'a, 'b>(latest: Option<&'a Opening<'b>>, opening: &'a Opening<'b>) -> &'a Opening<'b>
    ensures { result.now ≡ newer_of (option_copied latest.entry) opening.now }
{
    match latest {
        Some(latest) if opening.tag < latest.tag => latest,
        _ => opening,
    }
}

fn first_open(opening: &Opening<'_>) -> Option<u64>
    ensures { result ≡ openings.first_open opening.now }
{
    for request in opening.requests.as_slice() {
        if is_open(request) {
            return Some(request.number);
        }
    }
    None
}

/// Whether a request can change the definition, and isn't certain with a known outcome.
pub fn is_open(request: &Candidate<'_>) -> bool
    ensures { result ≡ openings.is_open request.now }
{
    redefines(&request.change) && !(request.certain && is_known(request.outcome))
}

fn redefines(change: &Change<'_>) -> bool
    ensures { result ≡ instructions.redefines (change_of change.now) }
{
    match change {
        Change::Create(_) | Change::Append(_) | Change::Interval(_) => true,
        Change::Plain(each) => matches!(each, Each::Delete),
    }
}

fn is_known(outcome: Outcome) -> bool
    ensures { result ≡ openings.is_known outcome }
{
    match outcome {
        Outcome::Done | Outcome::Refused => true,
        Outcome::Unknown => false,
    }
}
