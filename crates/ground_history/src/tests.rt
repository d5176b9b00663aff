ghost use Rattle.std.specs.Prelude.{◌≤◌, ◌^◌, length};

use crate::{GotKind, History, Outcome, SentFault};
use hk_base::{Memory, builtin};
use std::alloc::Global;
use std::process::Abort;
use std::test::Fail;

/// The change of an interval, with the count 0.
const CHANGE: [u8; 15] = [
    0x18, 0x64, 0xc0, 0x00, 0x00, 0x08, 0x2f, 0x03, 0x1f, 0x00, 0x01, 0x01, 0x02, 0x00, 0x04,
];

/// A request with this count, modulo 16,384, that enables a structure.
fn request(count: u16) -> [u8; 13] {
    let [high, low] = (count % 16_384).to_be_bytes();
    [
        0x18,
        0x64,
        0xc0 | high,
        low,
        0x00,
        0x06,
        0x2f,
        0x03,
        0x05,
        0x00,
        0x01,
        0x01,
        0x01,
    ]
}

/// A verification report of this subtype and tag on the request with this count, modulo 16,384.
fn verification(subtype: u8, tag: u32, count: u16) -> [u8; 23] {
    let [high, low] = (count % 16_384).to_be_bytes();
    let [first, second, third, last] = tag.to_be_bytes();
    [
        0x08,
        0x64,
        0xc0,
        0x00,
        0x00,
        0x10,
        0x20,
        0x01,
        subtype,
        0x00,
        0x00,
        0x00,
        0x01,
        0x00,
        0x00,
        first,
        second,
        third,
        last,
        0x18,
        0x64,
        0xc0 | high,
        low,
    ]
}

fn history(alloc: Global, long: bool) -> Result<History, Memory> {
    Ok(History::new(alloc, builtin(alloc)?, true, long))
}

/// Whether the packet is taken as a new request.
fn is_new(history: &mut History, bytes: &[u8]) -> bool
    requires { length bytes.now ≤ 2 ^ 31 }
{
    history.sent(bytes) == Ok(true)
}

/// Whether the report is kept.
fn is_kept(history: &mut History, subtype: u8, tag: u32, count: u16) -> bool {
    history.got(&verification(subtype, tag, count)) == Ok(GotKind::Kept(u64::from(tag)))
}

/// Whether the bounds of a request are these.
fn has_bounds(rt: &impl Abort, history: &History, k: u64, low: u64, high: Option<u64>) -> bool {
    assert!(rt; k < history.count());
    history.low(k) == low && history.high(k) == high
}

fn is_accepted(rt: &impl Abort, history: &History, k: u64) -> bool {
    assert!(rt; k < history.count());
    history.accepted(k)
}

/// Whether the first instruction of a request is known to be done.
fn is_done(rt: &impl Abort, history: &History, k: u64) -> bool {
    assert!(rt; k < history.count());
    history.outcome(k, 1) == Outcome::Done
}

/// Sends the requests with these counts.
fn send_all(rt: &impl Abort, history: &mut History, first: u16, end: u16) {
    for count in first..end {
        assert!(rt; is_new(history, &request(count)));
    }
}

/// A session of 16,384 requests, each in the window.
fn long_session(alloc: Global, rt: &impl Abort) -> Result<History, Memory> {
    let mut history = history(alloc, true)?;
    send_all(rt, &mut history, 0, 8_191);
    assert!(rt; is_kept(&mut history, 3, 4_097, 8_190));
    send_all(rt, &mut history, 8_191, 16_382);
    assert!(rt; is_kept(&mut history, 3, 8_193, 16_381));
    send_all(rt, &mut history, 16_382, 16_384);
    Ok(history)
}

#[test]
fn a_count_is_used_once(rt: HostRuntime) -> Result<(), Fail> {
    let mut history = history(rt.alloc(), false)?;
    assert!(rt; is_new(&mut history, &CHANGE));
    assert!(rt; history.sent(&request(0)) == Err(SentFault::Reused(0)));
    assert!(rt; history.sent(&CHANGE) == Ok(false));
    assert!(rt; history.sent(&request(2)) == Err(SentFault::WrongCount(1, 2)));
    Ok(())
}

#[test]
fn reports_bound_requests(rt: HostRuntime) -> Result<(), Fail> {
    let mut history = history(rt.alloc(), false)?;
    assert!(rt; is_new(&mut history, &CHANGE));
    assert!(rt; is_kept(&mut history, 1, 100, 0));
    assert!(rt; is_kept(&mut history, 3, 102, 0));
    assert!(rt; is_new(&mut history, &request(1)));
    assert!(rt; has_bounds(&rt, &history, 0, 102, None));
    assert!(rt; has_bounds(&rt, &history, 1, 102, None));
    assert!(rt; is_accepted(&rt, &history, 0));
    assert!(rt; is_done(&rt, &history, 0));
    assert!(rt; is_kept(&mut history, 3, 110, 1));
    assert!(rt; has_bounds(&rt, &history, 0, 102, Some(110)));
    assert!(rt; has_bounds(&rt, &history, 1, 110, None));
    assert!(rt; is_kept(&mut history, 7, 104, 0));
    assert!(rt; has_bounds(&rt, &history, 0, 102, Some(104)));
    assert!(rt; has_bounds(&rt, &history, 1, 110, None));
    Ok(())
}

#[test]
fn the_window_is_kept(rt: HostRuntime) -> Result<(), Fail> {
    let mut history = history(rt.alloc(), true)?;
    send_all(&rt, &mut history, 0, 8_191);
    assert!(rt; history.room() == 0);
    assert!(rt; history.sent(&request(8_191)) == Err(SentFault::WindowFull(0)));
    Ok(())
}

#[test]
fn counts_are_used_again(rt: HostRuntime) -> Result<(), Fail> {
    let mut history = long_session(rt.alloc(), &rt)?;
    assert!(rt; history.sent(&request(8_000)) == Err(SentFault::WrongCount(0, 8_000)));
    assert!(rt; history.sent(&request(1)) == Err(SentFault::WrongCount(0, 1)));
    assert!(rt; is_new(&mut history, &CHANGE));
    assert!(rt; is_kept(&mut history, 7, 5_000, 0));
    assert!(rt; is_accepted(&rt, &history, 0));
    assert!(rt; !is_accepted(&rt, &history, 16_384));
    assert!(rt; is_kept(&mut history, 7, 28_676, 0));
    assert!(rt; is_accepted(&rt, &history, 16_384));
    Ok(())
}
