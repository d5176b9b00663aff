//! The openings of a structure, by what is known.
ghost use Rattle.std.specs.Prelude.{◌≡◌, ◌<◌, ◌∷◌, [], Some, IfOk, All, length, slice_get};
ghost use Rattle.std.specs.Option.{option_copied};
ghost use Rattle.hk_base.specs.Parameters.{boot_structure, key_eq};
ghost use Rattle.report_structures.specs.Changes.{IsFormedState};
ghost use Rattle.st03_grammar.specs.Instructions.{change_of};
ghost use Rattle.ground_history.specs.Histories.{Sent, Kept};
ghost use Rattle.ground_history.specs.Ground.{IsGrounded};
ghost use Rattle.definition_intervals.specs.Openings as openings;
ghost use Rattle.definition_intervals.specs.Findings.{IsFormedOpening, with_request};

use crate::opening::{Candidate, Opening};
use ground_history::{History, Outcome};
use hk_base::{Items, Key, Memory, Structure, greatest_tag};
use pus_messages::{Report, ReportBody, changes_on};
use st03_grammar::{Change, Report03};
use std::alloc::Global;

/// The openings of a structure for a report with this tag, in the order of their tags.
pub(crate) fn openings<'a>(
    alloc: Global,
    history: &'a History,
    key: Key,
    tag: u64,
) -> Result<Vec<Opening<'a>>, Memory>
    requires { IsGrounded history.now }
    ensures openings { IfOk result (λ found. found.items ≡ openings.openings history.now.tailoring history.now.history key tag) }
    ensures formed { IfOk result (λ found. All (IsFormedOpening history.now.tailoring) found.items) }
{
    let _most = greatest_tag(history.tailoring());
    let last = history.newest_told();
    let mut openings = boot_openings(alloc, history, key, tag)?;
    let mut from = 0;
    while from <= last {
        let Some(report) = history.report_from(from) else {
            return Ok(openings);
        };
        if let Some(opening) = report_opening(alloc, history, key, tag, report)? {
            openings.push(opening)?;
        }
        from = report.header.tag + 1;
    }
    Ok(openings)
}

/// The boot state, where the start is known.
fn boot_openings<'a>(
    alloc: Global,
    history: &'a History,
    key: Key,
    tag: u64,
) -> Result<Vec<Opening<'a>>, Memory>
    requires { IsGrounded history.now }
    ensures openings { IfOk result (λ found. found.items ≡ openings.boot_openings history.now.tailoring history.now.history key tag) }
    ensures formed { IsFormedState history.now.tailoring (boot_structure history.now.tailoring key) }
{
    let mut openings = Vec::new(alloc);
    let state = history.tailoring().boot(key);
    if history.known() {
        openings.push(opening(alloc, history, key, tag, 0, state)?)?;
    }
    Ok(openings)
}

/// The state that a report with a lower tag tells of the structure.
fn report_opening<'a>(
    alloc: Global,
    history: &'a History,
    key: Key,
    tag: u64,
    report: &'a Report,
) -> Result<Option<Opening<'a>>, Memory>
    requires { IsGrounded history.now }
    ensures { IfOk result (λ found. (kept : Kept) → kept.report ≡ report.now → found ≡ openings.report_opening history.now.history key tag kept) }
{
    let from = report.header.tag;
    if from >= tag {
        return Ok(None);
    }
    match reported_structure(key, &report.body) {
        Some(structure) => {
            let state = Some(structure);
            Ok(Some(opening(alloc, history, key, tag, from, state)?))
        }
        None => Ok(None),
    }
}

fn reported_structure(key: Key, body: &ReportBody) -> Option<&Structure>
    ensures { option_copied result ≡ openings.reported_structure key body.now }
{
    match body {
        ReportBody::Hk(Report03::Structure(named, structure)) if is_same(*named, key) => {
            Some(structure)
        }
        _ => None,
    }
}

fn is_same(a: Key, b: Key) -> bool
    ensures { result ≡ key_eq a b }
{
    a == b
}

/// A state at a tag, with the requests that may have changed it since: from the last sure creation on, before which the
/// structure was absent.
fn opening<'a>(
    alloc: Global,
    history: &'a History,
    key: Key,
    tag: u64,
    from: u64,
    state: Option<&'a Structure>,
) -> Result<Opening<'a>, Memory>
    requires { IsGrounded history.now }
    ensures { IfOk result (λ opening. opening ≡ openings.opening history.now.history key tag from (option_copied state.entry)) }
{
    let mut opening = Opening {
        tag: from,
        state,
        requests: Items::from_vec(Vec::new(alloc)),
    };
    for number in 0..history.count() {
        if let Some(request) = candidate(history, key, tag, from, number) {
            opening = with_request(alloc, opening, request)?;
        }
    }
    Ok(opening)
}

/// An opening with one more request. Nothing before a sure creation matters.
fn with_request<'a>(
    alloc: Global,
    opening: Opening<'a>,
    request: Candidate<'a>,
) -> Result<Opening<'a>, Memory>
    ensures { IfOk result (λ longer. longer ≡ with_request opening.entry request.entry) }
{
    let Opening {
        tag,
        state,
        requests,
    } = opening;
    let (state, mut requests) = if surely_creates(&request) {
        (None, Vec::new(alloc))
    } else {
        (state, requests.into_vec())
    };
    requests.push(request)?;
    Ok(Opening {
        tag,
        state,
        requests: Items::from_vec(requests),
    })
}

/// Whether a request is certain, and its creation was done.
pub fn surely_creates(request: &Candidate<'_>) -> bool
    ensures { result ≡ openings.surely_creates request.now }
{
    request.certain && is_known_done(request.outcome) && is_creation(&request.change)
}

fn is_known_done(outcome: Outcome) -> bool
    ensures { result ≡ openings.is_known_done outcome }
{
    match outcome {
        Outcome::Done => true,
        Outcome::Refused | Outcome::Unknown => false,
    }
}

fn is_creation(change: &Change<'_>) -> bool
    ensures { result ≡ openings.is_creation (change_of change.now) }
{
    match change {
        Change::Create(_) => true,
        Change::Append(_) | Change::Interval(_) | Change::Plain(_) => false,
    }
}

/// The request with this number, if it may have changed the structure between a tag and that of a report.
pub fn candidate<'a>(
    history: &'a History,
    key: Key,
    tag: u64,
    from: u64,
    number: u64,
) -> Option<Candidate<'a>>
    requires grounded { IsGrounded history.now }
    requires sent { number < length history.now.history.requests }
    ensures { (sent : Sent) → slice_get history.now.history.requests number ≡ Some sent
        → result ≡ openings.candidate history.now.history key from tag (number, sent) }
{
    if !is_possible(history, from, tag, number) {
        return None;
    }
    let request = history.request(number)?;
    let (instruction, change) = changes_on(request, key)?;
    Some(Candidate {
        number,
        change,
        certain: is_certain(history, from, tag, number),
        outcome: history.outcome(number, instruction),
    })
}

/// Whether a request may have been executed after an opening and before a report.
fn is_possible(history: &History, from: u64, tag: u64, number: u64) -> bool
    requires { number < length history.now.history.requests }
    ensures { result ≡ openings.is_possible history.now.history from tag number }
{
    let excluded = tag <= history.low(number) || history.barred(number);
    !excluded && !is_at_most(history.high(number), from)
}

/// Whether a request is executed after an opening and before a report.
fn is_certain(history: &History, from: u64, tag: u64, number: u64) -> bool
    requires { number < length history.now.history.requests }
    ensures { result ≡ openings.is_certain history.now.history from tag number }
{
    from <= history.low(number) && history.accepted(number) && is_at_most(history.high(number), tag)
}

fn is_at_most(known: Option<u64>, tag: u64) -> bool
    ensures { result ≡ openings.is_at_most known tag }
{
    match known {
        Some(known) => known <= tag,
        None => false,
    }
}
