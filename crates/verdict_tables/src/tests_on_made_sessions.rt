//! Verdicts by tables and by the definition's own call agree on sessions that a random step makes.
ghost use Rattle.std.specs.Prelude.{◌≡◌, ◌<◌};

use crate::{Steps, Tables};
use definition_intervals::{Verdict, verdict};
use ground_history::{GotKind, History};
use hk_base::{Definition, Key, Kind, Memory, builtin};
use std::alloc::Global;
use std::marker::Brand;
use std::sync::ledger::{Blank, Ledger};
use std::test::Fail;

/// Sessions that are made.
const SESSIONS: u64 = 320;

/// A unit of tags here; a slot of the built-in tailoring has eight.
const UNIT: u32 = 512;

/// Units that pass before a session: nine slots.
const START: u32 = 72;

/// How far a session has come.
#[derive(Drop)]
struct Walk {
    random: u64,
    /// Requests that were sent.
    sent: u16,
    /// Units that passed.
    clock: u32,
    /// Whether most requests append to one structure, and none is verified.
    appending: bool,
}

/// How many verdicts of each kind came, and how many of them differed between the two calls.
#[derive(Clone, Copy, Drop)]
struct Counts {
    decided: u64,
    undecidable: u64,
    crowded: u64,
    unopened: u64,
    impossible: u64,
    unlike: u64,
}

/// The next random number: the higher half of what a linear congruential step gives.
fn roll(walk: &mut Walk) -> u32 {
    walk.random = walk
        .random
        .wrapping_mul(6_364_136_223_846_793_005)
        .wrapping_add(1_442_695_040_888_963_407);
    u32::try_from(walk.random / 4_294_967_296).unwrap_or(0)
}

/// A random octet out of three.
fn one_of(walk: &mut Walk, first: u8, second: u8, third: u8) -> u8 {
    match roll(walk) % 3 {
        0 => first,
        1 => second,
        _ => third,
    }
}

/// Octets of a packet after its length field, as that field counts them.
fn data_length(body: &[u8], headers: u8) -> u8 {
    match u8::try_from(body.len()) {
        Ok(length) => length.saturating_add(headers),
        Err(_) => 0,
    }
}

/// Sends the request with the next count.
fn send(
    alloc: Global,
    history: &mut History,
    walk: &mut Walk,
    subtype: u8,
    body: &[u8],
) -> Result<(), Memory> {
    let [high, low] = walk.sent.to_be_bytes();
    let length = data_length(body, 4);
    let mut packet = Vec::new(alloc);
    packet.extend_from_slice(&[0x18, 0x64, high | 0xc0, low, 0, length])?;
    packet.extend_from_slice(&[0x2f, 3, subtype, 0, 1])?;
    packet.extend_from_slice(body)?;
    walk.sent = walk.sent.saturating_add(1);
    sent(history, &packet)
}

/// Takes a packet that is a new request.
fn sent(history: &mut History, packet: &[u8]) -> Result<(), Memory> {
    if packet.len() > 1_000 {
        return Err(Memory);
    }
    match history.sent(packet) {
        Ok(true) => Ok(()),
        _ => Err(Memory),
    }
}

/// Receives a report with a tag near the clock. Tags stand close together, so that ranges begin where openings do.
fn receive(
    alloc: Global,
    history: &mut History,
    walk: &mut Walk,
    kind: [u8; 2],
    body: &[u8],
) -> Result<(), Memory> {
    walk.clock = walk.clock.saturating_add(roll(walk) % 3);
    let late = roll(walk) % 6;
    let units = walk.clock.saturating_sub(late);
    let tag = units.saturating_mul(UNIT).saturating_add(roll(walk) % 2);
    let [service, subtype] = kind;
    let length = data_length(body, 12);
    let mut packet = Vec::new(alloc);
    packet.extend_from_slice(&[0x08, 0x64, 0xc0, 0, 0, length])?;
    packet.extend_from_slice(&[0x20, service, subtype, 0, 0, 0, 1, 0, 0])?;
    packet.extend_from_slice(&tag.to_be_bytes())?;
    packet.extend_from_slice(body)?;
    got(history, &packet)
}

/// Takes a packet that is a readable report.
fn got(history: &mut History, packet: &[u8]) -> Result<(), Memory> {
    if packet.len() > 1_000 {
        return Err(Memory);
    }
    match history.got(packet)? {
        GotKind::Foreign(_) | GotKind::Skipped(_, _) | GotKind::Unread => Err(Memory),
        _ => Ok(()),
    }
}

/// Sends a request on one structure or on two.
fn send_some(alloc: Global, history: &mut History, walk: &mut Walk) -> Result<(), Memory> {
    if walk.appending {
        return send_append(alloc, history, walk, 3);
    }
    let id = one_of(walk, 1, 2, 9);
    let interval = one_of(walk, 2, 4, 8);
    match roll(walk) % 12 {
        0..=3 => send(alloc, history, walk, 31, &[1, id, 0, interval]),
        4 => send(alloc, history, walk, 31, &[2, 1, 0, interval, 2, 0, 4]),
        5 => send(alloc, history, walk, 5, &[1, id]),
        6 => send(alloc, history, walk, 6, &[2, 1, id.max(2)]),
        7 => send(alloc, history, walk, 1, &[9, 0, interval, 1, 0, 1, 0]),
        8 => send(alloc, history, walk, 3, &[1, 9]),
        9 => send(alloc, history, walk, 3, &[1, id]),
        10 => send(alloc, history, walk, 9, &[1, id]),
        _ => send_append(alloc, history, walk, id),
    }
}

/// Sends a request to append one parameter of seven.
fn send_append(
    alloc: Global,
    history: &mut History,
    walk: &mut Walk,
    id: u8,
) -> Result<(), Memory> {
    let param = u8::try_from(roll(walk) % 7).unwrap_or(0);
    send(
        alloc,
        history,
        walk,
        29,
        &[id, 1, 0, param.saturating_add(10), 0],
    )
}

/// Receives a verification report of an earlier request.
fn receive_verification(
    alloc: Global,
    history: &mut History,
    walk: &mut Walk,
) -> Result<(), Memory> {
    if walk.sent == 0 {
        return Ok(());
    }
    let back = u16::try_from(roll(walk) % 4).unwrap_or(0);
    let number = walk.sent.saturating_sub(1).saturating_sub(back);
    let [high, low] = number.to_be_bytes();
    let high = high | 0xc0;
    match roll(walk) % 8 {
        0 | 1 => receive(alloc, history, walk, [1, 1], &[0x18, 0x64, high, low]),
        2 => receive(
            alloc,
            history,
            walk,
            [1, 2],
            &[0x18, 0x64, high, low, 0, 1, 0, 0, 0, 0],
        ),
        3 | 4 => receive(alloc, history, walk, [1, 3], &[0x18, 0x64, high, low]),
        5 | 6 => receive(alloc, history, walk, [1, 7], &[0x18, 0x64, high, low]),
        _ => receive(
            alloc,
            history,
            walk,
            [1, 8],
            &[0x18, 0x64, high, low, 0, 200, 1, 1],
        ),
    }
}

/// Receives a report of what a structure is.
fn receive_structure(alloc: Global, history: &mut History, walk: &mut Walk) -> Result<(), Memory> {
    let interval = one_of(walk, 4, 4, 8);
    match roll(walk) % 3 {
        0 => receive(
            alloc,
            history,
            walk,
            [3, 10],
            &[1, 1, 0, interval, 1, 0, 1, 0],
        ),
        1 => receive(
            alloc,
            history,
            walk,
            [3, 10],
            &[9, 0, 0, interval, 1, 0, 1, 0],
        ),
        _ => receive(
            alloc,
            history,
            walk,
            [3, 10],
            &[2, 1, 0, interval, 1, 0, 1, 1, 4, 1, 0, 3],
        ),
    }
}

/// Receives a parameter report.
fn receive_values(alloc: Global, history: &mut History, walk: &mut Walk) -> Result<(), Memory> {
    match roll(walk) % 3 {
        0 => receive(alloc, history, walk, [3, 25], &[1, 0, 7]),
        1 => receive(alloc, history, walk, [3, 25], &[9, 0, 7]),
        _ => receive(alloc, history, walk, [3, 25], &[2, 0, 1, 10, 11, 12, 13]),
    }
}

/// One more entry.
fn step(alloc: Global, history: &mut History, walk: &mut Walk) -> Result<(), Memory> {
    match roll(walk) % 10 {
        0..=3 => send_some(alloc, history, walk),
        4..=7 if walk.appending => send_some(alloc, history, walk),
        4..=7 => receive_verification(alloc, history, walk),
        8 => receive_structure(alloc, history, walk),
        _ => receive_values(alloc, history, walk),
    }
}

/// A payload of the size that a structure has by default, or of another.
fn payload(octets: &[u8; 6], id: u8, number: u32) -> &[u8] {
    if number % 4 == 0 {
        return &octets[..3];
    }
    match id {
        2 => octets,
        3 => &octets[..4],
        _ => &octets[..2],
    }
}

/// A tag of a report; one in eight lies anywhere from 0 on.
fn some_tag(walk: &mut Walk) -> u64 {
    let first = if roll(walk) % 8 == 0 { 0 } else { START };
    let units = walk.clock.saturating_sub(first).saturating_add(6).max(1);
    let unit = first.saturating_add(roll(walk) % units);
    u64::from(unit) * u64::from(UNIT) + u64::from(roll(walk) % 3)
}

fn is_same(a: &Verdict, b: &Verdict) -> bool {
    match a {
        Verdict::Decided(a) => matches!(b, Verdict::Decided(b) if is_same_definition(a, b)),
        Verdict::Undecidable(a) => matches!(b, Verdict::Undecidable(b) if a == b),
        Verdict::Crowded(a) => matches!(b, Verdict::Crowded(b) if a == b),
        Verdict::NoOpening => matches!(b, Verdict::NoOpening),
        Verdict::Impossible => matches!(b, Verdict::Impossible),
    }
}

/// Whether two definitions agree, the parameters of their arrays aside.
fn is_same_definition(a: &Definition, b: &Definition) -> bool {
    let same = a.interval == b.interval && a.simple.as_slice() == b.simple.as_slice();
    same && a.arrays.as_slice().len() == b.arrays.as_slice().len()
}

fn count(counts: &mut Counts, plain: &Verdict, same: bool) {
    let kind = match plain {
        Verdict::Decided(_) => &mut counts.decided,
        Verdict::Undecidable(_) => &mut counts.undecidable,
        Verdict::Crowded(_) => &mut counts.crowded,
        Verdict::NoOpening => &mut counts.unopened,
        Verdict::Impossible => &mut counts.impossible,
    };
    *kind = kind.saturating_add(1);
    if !same {
        counts.unlike = counts.unlike.saturating_add(1);
    }
}

/// Asks for the verdict on a report of a structure, twice.
fn ask<L: Ledger>(
    alloc: Global,
    history: &History,
    tables: &Tables,
    walk: &mut Walk,
    steps: &mut Steps<L>,
    counts: &mut Counts,
) -> Result<(), Memory> {
    let id = one_of(walk, 1, 2, if walk.appending { 3 } else { 9 });
    let kind = Kind::Housekeeping;
    let key = Key {
        kind,
        id: u32::from(id),
    };
    let tag = some_tag(walk);
    let octets = [0, 7, 10, 11, 12, 13];
    let payload = payload(&octets, id, roll(walk));
    if payload.len() > octets.len() {
        return Err(Memory);
    }
    let plain = verdict(alloc, history, key, tag, payload)?;
    let by_tables = tables.verdict(alloc, key, tag, payload, steps)?;
    count(counts, &plain, is_same(&plain, &by_tables));
    Ok(())
}

/// Plays ten to thirty entries, and asks for verdicts after each, by tables that are made anew for it.
fn follow<L: Ledger>(
    alloc: Global,
    history: &mut History,
    walk: &mut Walk,
    counts: &mut Counts,
    blank: Blank,
) -> Result<(), Memory>
    requires name { blank.name ≡ L.name }
    requires parts { blank.parts ≡ L.parts }
    requires some { 0 < L.parts }
{
    let mut steps = Steps::<L>::new(blank);
    let mut tables = Tables::new(alloc);
    tables.mend(history)?;
    let entries = roll(walk) % 21 + 10;
    for _ in 0..entries {
        step(alloc, history, walk)?;
        tables.mend(history)?;
        ask(alloc, history, &tables, walk, &mut steps, counts)?;
        ask(alloc, history, &tables, walk, &mut steps, counts)?;
    }
    Ok(())
}

/// Asks for many verdicts after one mend.
fn ask_all<L: Ledger>(
    alloc: Global,
    history: &History,
    walk: &mut Walk,
    counts: &mut Counts,
    blank: Blank,
) -> Result<(), Memory>
    requires name { blank.name ≡ L.name }
    requires parts { blank.parts ≡ L.parts }
    requires some { 0 < L.parts }
{
    let mut steps = Steps::<L>::new(blank);
    let mut tables = Tables::new(alloc);
    tables.mend(history)?;
    for _ in 0..24 {
        ask(alloc, history, &tables, walk, &mut steps, counts)?;
    }
    Ok(())
}

fn play_and_ask(
    alloc: Global,
    history: &mut History,
    walk: &mut Walk,
    counts: &mut Counts,
) -> Result<(), Memory> {
    follow::<Brand>(alloc, history, walk, counts, Blank::new(1))?;
    ask_all::<Brand>(alloc, history, walk, counts, Blank::new(1))
}

/// Makes a session, and asks for verdicts on it.
fn make(alloc: Global, number: u64, counts: &mut Counts) -> Result<(), Memory> {
    let mut walk = Walk {
        random: number,
        sent: 0,
        clock: START,
        appending: number % 8 == 0,
    };
    let tailoring = builtin(alloc)?;
    let known = roll(&mut walk) % 3 != 0;
    let long = roll(&mut walk) % 2 == 0;
    let mut history = History::new(alloc, tailoring, known, long);
    play_and_ask(alloc, &mut history, &mut walk, counts)
}

/// What came of all sessions.
fn make_all(alloc: Global) -> Result<Counts, Memory> {
    let mut counts = Counts {
        decided: 0,
        undecidable: 0,
        crowded: 0,
        unopened: 0,
        impossible: 0,
        unlike: 0,
    };
    for number in 0..SESSIONS {
        make(alloc, number, &mut counts)?;
    }
    Ok(counts)
}

#[test]
fn tables_agree_with_the_definitions_own_call(rt: HostRuntime) -> Result<(), Fail> {
    let counts = make_all(rt.alloc())?;
    assert!(rt; counts.unlike == 0);
    assert!(rt; counts.decided > 1_000);
    assert!(rt; counts.undecidable > 300);
    assert!(rt; counts.crowded > 20);
    assert!(rt; counts.unopened > 1_000);
    assert!(rt; counts.impossible > 1_000);
    Ok(())
}
