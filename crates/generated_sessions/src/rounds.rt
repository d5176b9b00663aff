//! The entries of rounds.
ghost use Rattle.std.specs.Prelude.{◌≡◌, ◌<◌, ◌≤◌, ◌*◌, ◌++◌, flat_map, IfOk, OnOk};
ghost use Rattle.generated_sessions.specs.Generated as made;
ghost use Rattle.generated_sessions.specs.Generated.{numbers_from, made_tailoring};

use crate::packets::{request_name, request_packet, structure_report, verification_report};
use crate::schedule::is_lost;
use hk_base::{Memory, Tailoring};
use session_record::Entry;
use st01_reports::Verification;
use std::alloc::Global;

/// The entries that come in a round, from 0, of a session of at most 100,000 rounds.
pub fn round_entries(
    alloc: Global,
    tailoring: &Tailoring,
    seed: u32,
    round: u32,
) -> Result<Vec<Entry>, Memory>
    requires tailoring { tailoring.now ≡ made_tailoring }
    requires round { round < 100000 }
    ensures { IfOk result (λ entries. entries.items ≡ made.round_entries seed round) }
{
    let mut entries = Vec::new(alloc);
    add_reports(alloc, tailoring, seed, round, &mut entries)?;
    add_late(alloc, tailoring, seed, round, &mut entries)?;
    add_request(alloc, tailoring, round, &mut entries)?;
    Ok(entries)
}

/// The entries that come after so many rounds, at the end of the session.
pub fn last_entries(
    alloc: Global,
    tailoring: &Tailoring,
    seed: u32,
    rounds: u32,
) -> Result<Vec<Entry>, Memory>
    requires tailoring { tailoring.now ≡ made_tailoring }
    requires rounds { rounds ≤ 100000 }
    ensures { IfOk result (λ entries. entries.items ≡ made.late_entries seed rounds) }
{
    let mut entries = Vec::new(alloc);
    add_late(alloc, tailoring, seed, rounds, &mut entries)?;
    Ok(entries)
}

/// Adds the reports of a round that are received in it.
fn add_reports(
    alloc: Global,
    tailoring: &Tailoring,
    seed: u32,
    round: u32,
    entries: &mut Vec<Entry>,
) -> Result<(), Memory>
    requires tailoring { tailoring.now ≡ made_tailoring }
    requires round { round < 100000 }
    ensures { OnOk result (entries.new.items ≡ entries.old.items ++ made.round_reports seed round) }
{
    if round % 20 == 10 {
        return Ok(());
    }
    add_structures(alloc, tailoring, seed, round, 6, entries)
}

/// Adds the reports of the first structures, so many of them, that are received in their round.
fn add_structures(
    alloc: Global,
    tailoring: &Tailoring,
    seed: u32,
    round: u32,
    count: u32,
    entries: &mut Vec<Entry>,
) -> Result<(), Memory>
    requires tailoring { tailoring.now ≡ made_tailoring }
    requires round { round < 100000 }
    requires count { count ≤ 6 }
    ensures { OnOk result (entries.new.items ≡ entries.old.items ++ flat_map (made.delivered seed round) (numbers_from 1 count)) }
{
    for number in 0..count {
        add_delivered(alloc, tailoring, seed, round, 1 + number, entries)?;
    }
    Ok(())
}

/// Adds the reports of a structure that are received in their round: one, two, or none where it is late.
fn add_delivered(
    alloc: Global,
    tailoring: &Tailoring,
    seed: u32,
    round: u32,
    structure: u32,
    entries: &mut Vec<Entry>,
) -> Result<(), Memory>
    requires tailoring { tailoring.now ≡ made_tailoring }
    requires structure { (1 ≤ structure) × (structure ≤ 6) }
    requires round { round < 100000 }
    ensures { OnOk result (entries.new.items ≡ entries.old.items ++ made.delivered seed round structure) }
{
    if structure == 2 && round % 16 == 8 {
        return Ok(());
    }
    if structure == 3 && round % 40 == 20 {
        let report = structure_report(alloc, tailoring, seed, round, structure)?;
        entries.push(report)?;
    }
    let report = structure_report(alloc, tailoring, seed, round, structure)?;
    entries.push(report)?;
    Ok(())
}

/// Adds the report of the round before that is received late.
fn add_late(
    alloc: Global,
    tailoring: &Tailoring,
    seed: u32,
    round: u32,
    entries: &mut Vec<Entry>,
) -> Result<(), Memory>
    requires tailoring { tailoring.now ≡ made_tailoring }
    requires round { round ≤ 100000 }
    ensures { OnOk result (entries.new.items ≡ entries.old.items ++ made.late_entries seed round) }
{
    if round % 16 == 9 {
        let report = structure_report(alloc, tailoring, seed, round - 1, 2)?;
        entries.push(report)?;
    }
    Ok(())
}

/// Adds the request of a round, if it has one, and what is received of its verification.
fn add_request(
    alloc: Global,
    tailoring: &Tailoring,
    round: u32,
    entries: &mut Vec<Entry>,
) -> Result<(), Memory>
    requires tailoring { tailoring.now ≡ made_tailoring }
    requires round { round < 100000 }
    ensures { OnOk result (entries.new.items ≡ entries.old.items ++ made.request_entries round) }
{
    if round % 16 != 0 {
        return Ok(());
    }
    let request = round / 16;
    let packet = request_packet(alloc, tailoring, request)?;
    entries.push(Entry::Sent(packet))?;
    add_verified(alloc, tailoring, request, entries)?;
    Ok(())
}

/// Adds what is received of a request's verification.
fn add_verified(
    alloc: Global,
    tailoring: &Tailoring,
    request: u32,
    entries: &mut Vec<Entry>,
) -> Result<(), Memory>
    requires tailoring { tailoring.now ≡ made_tailoring }
    requires request { 16 * request < 100000 }
    ensures { OnOk result (entries.new.items ≡ entries.old.items ++ made.verified_entries request) }
{
    if is_lost(request) || request % 10 == 4 {
        return Ok(());
    }
    let id = request_name(request);
    let accepted = Verification::Accepted(id);
    entries.push(verification_report(alloc, tailoring, request, 7, accepted)?)?;
    let started = Verification::Started(id);
    entries.push(verification_report(alloc, tailoring, request, 8, started)?)?;
    if request % 10 == 6 {
        return Ok(());
    }
    let completed = Verification::Completed(id);
    entries.push(verification_report(alloc, tailoring, request, 10, completed)?)?;
    Ok(())
}
