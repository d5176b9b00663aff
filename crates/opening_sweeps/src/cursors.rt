//! How far the requests and the states are passed at a tag.
ghost use Rattle.std.specs.Prelude.{◌≡◌, ◌≤◌, ◌<◌, length, true, false};
ghost use Rattle.std.specs.List.{AllWithin, HoldsAt};
ghost use Rattle.definition_intervals.specs.Openings as openings;

use crate::bounded::Bounded;
use crate::start::Start;

/// The first place, from one on, of a request that isn't executed below a tag.
pub(crate) fn listed_below(requests: &[Bounded<'_>], from: usize, tag: u64) -> usize
    requires { from ≤ length requests.now }
    ensures from { from ≤ result }
    ensures to { result ≤ length requests.now }
    ensures passed { AllWithin (λ r. r.low < tag) requests.now from result }
    ensures next { result < length requests.now → HoldsAt (λ r. tag ≤ r.low) requests.now result }
{
    for place in from..requests.len() {
        let request = &requests[place];
        if request.low >= tag {
            return place;
        }
    }
    requests.len()
}

/// The first place, from one on and before another, of a request that may still be executed at a tag.
pub(crate) fn settled_before(requests: &[Bounded<'_>], from: usize, to: usize, tag: u64) -> usize
    requires order { from ≤ to }
    requires within { to ≤ length requests.now }
    ensures from { from ≤ result }
    ensures to { result ≤ to }
    ensures passed { AllWithin (λ r. openings.is_at_most r.high tag ≡ true) requests.now from result }
    ensures next { result < to → HoldsAt (λ r. openings.is_at_most r.high tag ≡ false) requests.now result }
{
    for place in from..to {
        let request = &requests[place];
        if !is_at_most(request.high, tag) {
            return place;
        }
    }
    to
}

/// The first place, from one on, of a state that was told at a tag or above it.
pub(crate) fn told_below(starts: &[Start<'_>], from: usize, tag: u64) -> usize
    requires { from ≤ length starts.now }
    ensures from { from ≤ result }
    ensures to { result ≤ length starts.now }
    ensures passed { AllWithin (λ s. s.tag < tag) starts.now from result }
    ensures next { result < length starts.now → HoldsAt (λ s. tag ≤ s.tag) starts.now result }
{
    for place in from..starts.len() {
        let start = &starts[place];
        if start.tag >= tag {
            return place;
        }
    }
    starts.len()
}

pub(crate) fn is_at_most(known: Option<u64>, tag: u64) -> bool
    ensures { result ≡ openings.is_at_most known tag }
{
    match known {
        Some(known) => known <= tag,
        None => false,
    }
}
