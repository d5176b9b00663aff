//! The first open change of the latest opening.
ghost use Rattle.std.specs.Prelude.{◌≡◌, ◌≤◌, length, take, drop, filter_map, unwrap_or, None};
ghost use Rattle.definition_intervals.specs.Founds as founds;
ghost use Rattle.definition_intervals.specs.Founds.{first_after_all};
ghost use Rattle.opening_sweeps.specs.Requests.{settled};
ghost use Rattle.opening_sweeps.specs.Courses.{first_after_one};
ghost use Rattle.opening_sweeps.specs.Groups.{unsure};

use crate::bounded::Bounded;
use crate::cursors::is_at_most;
use crate::settling::as_request;
use definition_intervals::{Candidate, is_open, surely_creates};

/// The first open change of an opening among its settled requests, after more of them are settled.
pub(crate) fn first_settled(
    requests: &[Bounded<'_>],
    from: usize,
    to: usize,
    tag: u64,
    first: Option<u64>,
) -> Option<u64>
    requires order { from ≤ to }
    requires within { to ≤ length requests.now }
    ensures { first ≡ first_after_all (filter_map (settled tag) (take from requests.now)) None
        → result ≡ first_after_all (filter_map (settled tag) (take to requests.now)) None }
{
    let mut first = first;
    for place in from..to {
        first = first_with(&requests[place], tag, first);
    }
    first
}

/// The first open change after one more settled request.
fn first_with(request: &Bounded<'_>, tag: u64, first: Option<u64>) -> Option<u64>
    ensures { result ≡ first_after_one (settled tag request.now) first }
{
    if is_at_most(request.high, tag) {
        return first;
    }
    let certain = tag <= request.low && request.accepted;
    first_after(&as_request(request, certain), first)
}

/// The first open change after one more request of an opening.
pub fn first_after(request: &Candidate<'_>, first: Option<u64>) -> Option<u64>
    ensures { result ≡ founds.first_after request.now first }
{
    let own = if is_open(request) {
        Some(request.number)
    } else {
        None
    };
    if surely_creates(request) {
        own
    } else {
        first.or(own)
    }
}

/// The number of the first open change, by that of the settled requests and by those that may be left out; 0 where there is none.
pub(crate) fn named_request(
    requests: &[Bounded<'_>],
    settled: usize,
    listed: usize,
    first: Option<u64>,
) -> u64
    requires order { settled ≤ listed }
    requires within { listed ≤ length requests.now }
    ensures { result ≡ unwrap_or (first_after_all (unsure (drop settled (take listed requests.now))) first) 0 }
{
    if let Some(first) = first {
        return first;
    }
    for place in settled..listed {
        let request = as_request(&requests[place], false);
        if is_open(&request) {
            return request.number;
        }
    }
    0
}
