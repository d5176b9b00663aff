//! What comes between two tags: requests that may have changed a structure, and states that were told of it.
ghost use Rattle.std.specs.Prelude.{◌≡◌, ◌≤◌, IfOk, All, length};
ghost use Rattle.ground_history.specs.Ground.{IsGrounded};
ghost use Rattle.definition_intervals.specs.Findings.{IsFormedCandidate};
ghost use Rattle.entry_changes.specs.Changes as changes;
ghost use Rattle.live_verdicts.specs.Marks as marks;
ghost use Rattle.ground_history.specs.Histories.{Kept};

use definition_intervals::{Candidate, candidate};
use ground_history::History;
use hk_base::{Key, Memory, greatest_tag};
use opening_sweeps::{Start, told_start};
use pus_messages::Report;
use std::alloc::Global;

/// The numbers of requests from one on and below another.
#[derive(Clone, Copy, Debug, Drop)]
pub(crate) struct Numbers {
    pub first: u64,
    pub end: u64,
}

/// The requests with some numbers that may have changed a structure between an opening and a report.
pub(crate) fn among<'a>(
    alloc: Global,
    history: &'a History,
    key: Key,
    from: u64,
    tag: u64,
    numbers: Numbers,
) -> Result<Vec<Candidate<'a>>, Memory>
    requires grounded { IsGrounded history.now }
    requires order { numbers.first ≤ numbers.end }
    requires within { numbers.end ≤ length history.now.history.requests }
    ensures requests { IfOk result (λ found. found.items ≡ marks.among history.now.history key from tag numbers.first numbers.end) }
    ensures formed { IfOk result (λ found. All (IsFormedCandidate history.now.tailoring) found.items) }
{
    let mut requests = Vec::new(alloc);
    for number in numbers.first..numbers.end {
        if let Some(request) = candidate(history, key, tag, from, number) {
            requests.push(request)?;
        }
    }
    Ok(requests)
}

/// The states that were told of a structure from one tag on and below another, in the order of tags.
pub(crate) fn told_between<'a>(
    alloc: Global,
    history: &'a History,
    key: Key,
    from: u64,
    tag: u64,
) -> Result<Vec<Start<'a>>, Memory>
    requires { IsGrounded history.now }
    ensures { IfOk result (λ found. found.items ≡ marks.told_between history.now.history key from tag) }
{
    let _most = greatest_tag(history.tailoring());
    let last = history.newest_told();
    let mut starts = Vec::new(alloc);
    let mut from = from;
    while from < tag && from <= last {
        let Some(report) = history.report_from(from) else {
            return Ok(starts);
        };
        if let Some(start) = told_start_below(key, tag, report) {
            starts.push(start)?;
        }
        from = report.header.tag + 1;
    }
    Ok(starts)
}

/// The state that a report with a tag below another tells of a structure.
fn told_start_below(key: Key, tag: u64, report: &Report) -> Option<Start<'_>>
    ensures { (kept : Kept) → kept.report ≡ report.now → result ≡ changes.told_start_below key tag kept }
{
    if report.header.tag < tag {
        told_start(key, report)
    } else {
        None
    }
}
