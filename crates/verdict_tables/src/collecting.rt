//! The places of all structures, found in one pass over a history.
ghost use Rattle.std.specs.Prelude.{◌≡◌, ◌+◌, ◌<◌, ◌∷◌, IfOk, OnOk, Some, length, slice_get, flat_map, option_to_list};
ghost use Rattle.std.specs.List.{enumerate_from};
ghost use Rattle.hk_base.specs.declared.types.Key.{Key};
ghost use Rattle.ground_history.specs.Histories.{Kept, Sent};
ghost use Rattle.ground_history.specs.Ground.{IsGrounded};
ghost use Rattle.verdict_tables.specs.Places as specs;
ghost use Rattle.verdict_tables.specs.Places.{report_places, bound_places};
ghost use Rattle.verdict_tables.specs.Collecting.{Collects, tags_of, tags_if, named_places, sent_places, collected_places};

use crate::keys::changed_keys;
use crate::places::Places;
use ground_history::History;
use hk_base::{Key, Memory};
use pus_messages::{Report, ReportBody, Request};
use st03_grammar::Report03;
use std::alloc::Global;

/// The places of each structure, some of them twice.
pub(crate) fn collected(alloc: Global, history: &History) -> Result<Places, Memory>
    requires { IsGrounded history.now }
    ensures { IfOk result (λ found. (key : Key) → tags_of found key ≡ collected_places history.now.history key) }
{
    let mut places = Places::new(alloc);
    add_reports(history, &mut places)?;
    add_requests(alloc, history, &mut places)?;
    Ok(places)
}

/// Adds the places of kept reports.
fn add_reports(history: &History, places: &mut Places) -> Result<(), Memory>
    requires { IsGrounded history.now }
    ensures { OnOk result (Collects places.old places.new (λ key. flat_map (report_places key) history.now.history.kept)) }
{
    let last = history.newest_told();
    let mut from = 0;
    for number in 0..history.kept() {
        if from > last {
            return Ok(());
        }
        let Some(report) = history.report_from(from) else {
            unreachable!();
        };
        from = tag_after(report.header.tag)?;
        add_report(report, from, places)?;
    }
    Ok(())
}

/// The next tag. No packet has the greatest number of 64 bits as its tag.
fn tag_after(tag: u64) -> Result<u64, Memory>
    ensures { IfOk result (λ next. next ≡ tag + 1) }
{
    tag.checked_add(1).ok_or(Memory)
}

/// Adds the place of a report with the tag before this one, if it tells of a structure.
fn add_report(report: &Report, next: u64, places: &mut Places) -> Result<(), Memory>
    requires { next ≡ report.now.header.tag + 1 }
    ensures { (kept : Kept) → kept.report ≡ report.now → OnOk result (Collects places.old places.new (λ key. report_places key kept)) }
{
    match &report.body {
        ReportBody::Hk(Report03::Structure(key, _)) => places.add(*key, next),
        _ => Ok(()),
    }
}

/// Adds the bounds of requests.
fn add_requests(alloc: Global, history: &History, places: &mut Places) -> Result<(), Memory>
    ensures { OnOk result (Collects places.old places.new (λ key. flat_map (sent_places history.now.history key) (enumerate_from 0 history.now.history.requests))) }
{
    for number in 0..history.count() {
        if let Some(request) = history.request(number) {
            add_request(alloc, history, number, request, places)?;
        }
    }
    Ok(())
}

/// Adds the bounds of a request for each structure that it can change.
fn add_request(
    alloc: Global,
    history: &History,
    number: u64,
    request: &Request,
    places: &mut Places,
) -> Result<(), Memory>
    requires { number < length history.now.history.requests }
    ensures { OnOk result (Collects places.old places.new (named_places (bound_places history.now.history number) (specs.changed_keys request.now))) }
{
    let low = tag_after(history.low(number))?;
    let high = history.high(number);
    for key in changed_keys(alloc, request)? {
        add_bounds(key, low, high, places)?;
    }
    Ok(())
}

fn add_bounds(key: Key, low: u64, high: Option<u64>, places: &mut Places) -> Result<(), Memory>
    ensures { OnOk result (Collects places.old places.new (λ other. tags_if key other (low ∷ option_to_list high))) }
{
    places.add(key, low)?;
    match high {
        Some(high) => places.add(key, high),
        None => Ok(()),
    }
}
