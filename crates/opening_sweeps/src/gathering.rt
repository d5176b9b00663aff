//! The requests that may have changed a structure, and the states that were told of it.
ghost use Rattle.std.specs.Prelude.{◌≡◌, ◌<◌, Some, IfOk, IfSome, All, length, slice_get, option_to_list};
ghost use Rattle.hk_base.specs.Parameters.{key_eq};
ghost use Rattle.ground_history.specs.Histories.{Sent, Kept};
ghost use Rattle.ground_history.specs.Ground.{Ground, IsGrounded};
ghost use Rattle.hk_base.specs.declared.types.Key as declared;
ghost use Rattle.std.specs.Option.{option_copied};
ghost use Rattle.definition_intervals.specs.Openings as openings;
ghost use Rattle.opening_sweeps.specs.Requests as requests;
ghost use Rattle.opening_sweeps.specs.Requests.{AreRising, HaveRisingStarts, IsFormedRequest, IsFormedStart};

use crate::bounded::Bounded;
use crate::start::Start;
use definition_intervals::{changes_are_formed, reported_states_are_formed};
use ground_history::{History, bounds_rise};
use hk_base::{Key, Memory, Structure, greatest_tag};
use pus_messages::{Report, ReportBody, changes_on};
use st03_grammar::Report03;
use std::alloc::Global;

/// The requests that may have changed a structure, in the order of their numbers.
pub(crate) fn bounded_requests<'a>(
    alloc: Global,
    history: &'a History,
    key: Key,
) -> Result<Vec<Bounded<'a>>, Memory>
    requires { IsGrounded history.now }
    ensures { IfOk result (λ found. found.items ≡ requests.bounded_requests history.now.history key) }
{
    let mut requests = Vec::new(alloc);
    for number in 0..history.count() {
        if let Some(request) = bounded_request(history, key, number) {
            requests.push(request)?;
        }
    }
    Ok(requests)
}

/// What is known of requests bounds them in the order of their numbers, and their changes are of the grammar.
pub(crate) fn requests_rise()
    ensures rising { (g : Ground) (key : declared.Key) → IsGrounded g → AreRising (requests.bounded_requests g.history key) }
    ensures formed { (g : Ground) (key : declared.Key) → IsGrounded g → All (IsFormedRequest g.tailoring) (requests.bounded_requests g.history key) }
{
    bounds_rise();
    changes_are_formed();
}

/// States were told in the order of tags, and are valid.
pub fn starts_rise()
    ensures rising { (g : Ground) (key : declared.Key) → IsGrounded g → HaveRisingStarts (requests.told_starts g.history key) }
    ensures formed { (g : Ground) (key : declared.Key) → IsGrounded g → All (IsFormedStart g.tailoring) (requests.told_starts g.history key) }
{
    reported_states_are_formed();
}

/// The request with this number, if it may have changed the structure.
fn bounded_request<'a>(history: &'a History, key: Key, number: u64) -> Option<Bounded<'a>>
    requires grounded { IsGrounded history.now }
    requires sent { number < length history.now.history.requests }
    ensures { (sent : Sent) → slice_get history.now.history.requests number ≡ Some sent
        → result ≡ requests.bounded_request history.now.history key (number, sent) }
{
    if history.barred(number) {
        return None;
    }
    let request = history.request(number)?;
    let (instruction, change) = changes_on(request, key)?;
    Some(Bounded {
        number,
        change,
        low: history.low(number),
        high: history.high(number),
        accepted: history.accepted(number),
        outcome: history.outcome(number, instruction),
    })
}

/// The states that kept reports told of a structure, in the order of their tags.
pub(crate) fn told_starts<'a>(
    alloc: Global,
    history: &'a History,
    key: Key,
) -> Result<Vec<Start<'a>>, Memory>
    requires { IsGrounded history.now }
    ensures { IfOk result (λ found. found.items ≡ requests.told_starts history.now.history key) }
{
    let _most = greatest_tag(history.tailoring());
    let last = history.newest_told();
    let mut starts = Vec::new(alloc);
    let mut from = 0;
    while from <= last {
        let Some(report) = history.report_from(from) else {
            return Ok(starts);
        };
        if let Some(start) = told_start(key, report) {
            starts.push(start)?;
        }
        from = report.header.tag + 1;
    }
    Ok(starts)
}

/// The state that a report tells of a structure.
pub fn told_start(key: Key, report: &Report) -> Option<Start<'_>>
    ensures { (kept : Kept) → kept.report ≡ report.now → result ≡ requests.told_start key kept }
{
    let structure = reported_structure(key, &report.body)?;
    Some(Start {
        tag: report.header.tag,
        state: Some(structure),
    })
}

fn reported_structure(key: Key, body: &ReportBody) -> Option<&Structure>
    ensures { option_copied result ≡ openings.reported_structure key body.now }
{
    match body {
        ReportBody::Hk(Report03::Structure(named, structure)) if is_same(*named, key) => {
            Some(structure)
        }
        _ => None,
    }
}

fn is_same(a: Key, b: Key) -> bool
    ensures { result ≡ key_eq a b }
{
    a == b
}

/// The boot state at tag 0, where the start is known.
pub fn boot_start<'a>(history: &'a History, key: Key) -> Option<Start<'a>>
    ensures start { option_to_list result ≡ requests.boot_starts history.now.tailoring history.now.history key }
    ensures formed { IfSome result (IsFormedStart history.now.tailoring) }
{
    if !history.known() {
        return None;
    }
    Some(Start {
        tag: 0,
        state: history.tailoring().boot(key),
    })
}
