//! Requests as they are told before reports can tell that they ended.
ghost use Rattle.std.specs.Prelude.{◌≡◌, ◌<◌, ◌≤◌, ◌+◌, Some, IfOk, All, length, slice_get};
ghost use Rattle.ground_history.specs.Histories.{Sent};
ghost use Rattle.ground_history.specs.Ground.{IsGrounded};
ghost use Rattle.definition_intervals.specs.Findings.{IsFormedCandidate};
ghost use Rattle.entry_changes.specs.Changes as changes;

use crate::between::Numbers;
use definition_intervals::{Candidate, changes_are_formed};
use ground_history::History;
use hk_base::{Key, Memory};
use pus_messages::changes_on;
use std::alloc::Global;

/// The requests with some numbers that may have changed a structure.
pub(crate) fn unsures<'a>(
    alloc: Global,
    history: &'a History,
    key: Key,
    numbers: Numbers,
) -> Result<Vec<Candidate<'a>>, Memory>
    requires order { numbers.first ≤ numbers.end }
    requires within { numbers.end ≤ length history.now.history.requests }
    ensures requests { IfOk result (λ found. found.items ≡ changes.unsures history.now.history key numbers.first numbers.end) }
    ensures formed { IfOk result (λ found. All (IsFormedCandidate history.now.tailoring) found.items) }
{
    // A law: it says that changes are of the grammar, and does nothing.
    changes_are_formed();
    let _tailoring = history.tailoring();
    let mut requests = Vec::new(alloc);
    for number in numbers.first..numbers.end {
        if let Some(request) = unsure(history, key, number) {
            requests.push(request)?;
        }
    }
    Ok(requests)
}

/// The request with this number, by itself, if it may have changed the structure.
pub(crate) fn next_unsure<'a>(
    alloc: Global,
    history: &'a History,
    key: Key,
    number: u64,
) -> Result<Vec<Candidate<'a>>, Memory>
    requires { number < length history.now.history.requests }
    ensures requests { IfOk result (λ found. found.items ≡ changes.unsures history.now.history key number (number + 1)) }
    ensures formed { IfOk result (λ found. All (IsFormedCandidate history.now.tailoring) found.items) }
{
    let _sent = history.count();
    let numbers = Numbers {
        first: number,
        end: number + 1,
    };
    unsures(alloc, history, key, numbers)
}

/// The request with this number, if it may have changed the structure.
pub(crate) fn unsure(history: &History, key: Key, number: u64) -> Option<Candidate<'_>>
    requires grounded { IsGrounded history.now }
    requires sent { number < length history.now.history.requests }
    ensures { (sent : Sent) → slice_get history.now.history.requests number ≡ Some sent
        → result ≡ changes.unsure history.now.history key (number, sent) }
{
    if history.barred(number) {
        return None;
    }
    let request = history.request(number)?;
    let (instruction, change) = changes_on(request, key)?;
    Some(Candidate {
        number,
        change,
        certain: false,
        outcome: history.outcome(number, instruction),
    })
}
