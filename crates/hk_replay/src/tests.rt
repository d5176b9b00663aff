//! Runs of the command on records in memory.
ghost use Rattle.std.specs.Prelude.{◌≤◌};

use crate::replay::replay_main;
use crate::status::ReplayStatus;
use ground_history::SentFault;
use hk_base::{Items, MemShelf, MemSink, Memory, Octets};
use std::alloc::{AllocError, Global};
use std::process::Abort;
use std::test::Fail;

/// The header of a record with known start.
const KNOWN: &[u8] = b"HKREC1K\n";

/// That of one with unknown start.
const UNKNOWN: &[u8] = b"HKREC1U\n";

/// A report of housekeeping structure 1, with the tag 16385.
const REPORT: &[u8] =
    b"G\x00\x00\x00\x16\x08d\xc0\x00\x00\x0f\x20\x03\x19\x00\x00\x00\x01\x00\x00\x00\x00\x40\x01\x01\x00\x2a";

const REPORT_TEXT: &str = "report hk 1 tag 16385 decided interval 4\nvalue 1 slot 3 = 42\n";

/// A later report of it, with the tag 32769.
const LATER: &[u8] =
    b"G\x00\x00\x00\x16\x08d\xc0\x00\x00\x0f\x20\x03\x19\x00\x00\x00\x01\x00\x00\x00\x00\x80\x01\x01\x00\x07";

/// A report on what the structure is, with the tag 20481.
const STRUCTURE: &[u8] =
    b"G\x00\x00\x00\x1b\x08d\xc0\x00\x00\x14\x20\x03\x0a\x00\x00\x00\x01\x00\x00\x00\x00P\x01\x01\x01\x00\x04\x01\x00\x01\x00";

/// A report of housekeeping structure 3, with the tag 32771.
const THIRD: &[u8] =
    b"G\x00\x00\x00\x18\x08d\xc0\x00\x00\x11\x20\x03\x19\x00\x00\x00\x01\x00\x00\x00\x00\x80\x03\x03\x00\x00\x00\x09";

/// A report on the statistics of parameter 2, with the tag 8200.
const STATISTICS: &[u8] =
    b"G\x00\x00\x005\x08d\xc0\x00\x00\x2e\x20\x04\x02\x00\x00\x00\x01\x00\x00\x00\x00\x20\x08\
    \x00\x00\x00\x00\x00\x00\x00\x00\x00\x00\x20\x08\x01\x00\x02\x00\x00\x00\x02\xfd\
    \x00\x00\x00\x00\x00\x00\xfc\x00\x00\x00\x00\x10\x00\xfc";

/// A request that sets the interval of housekeeping structure 2 to 4.
const CHANGE: &[u8] = b"S\x00\x00\x00\x0f\x18d\xc0\x00\x00\x08/\x03\x1f\x00\x01\x01\x02\x00\x04";

/// A report of that structure, with the tag 32770.
const CHANGED: &[u8] =
    b"G\x00\x00\x00\x1a\x08d\xc0\x00\x00\x13\x20\x03\x19\x00\x00\x00\x01\x00\x00\x00\x00\x80\x02\x02\x00\x01\x0a\x0b\x0c\x0d";

/// A report with the tag 28676: the request was completed.
const COMPLETED: &[u8] =
    b"G\x00\x00\x00\x17\x08d\xc0\x00\x00\x10\x20\x01\x07\x00\x00\x00\x01\x00\x00\x00\x00p\x04\x18d\xc0\x00";

/// A report of structure 1 with the tag of `REPORT` and another value.
const CONFLICTING: &[u8] =
    b"G\x00\x00\x00\x16\x08d\xc0\x00\x00\x0f\x20\x03\x19\x00\x00\x00\x01\x00\x00\x00\x00\x40\x01\x01\x00\x2b";

/// A second request, which asks what housekeeping structure 2 is.
const QUESTION: &[u8] = b"S\x00\x00\x00\x0d\x18d\xc0\x01\x00\x06/\x03\x09\x00\x01\x01\x02";

/// A report with the tag 36866: the second request was begun.
const BEGUN: &[u8] =
    b"G\x00\x00\x00\x17\x08d\xc0\x00\x00\x10\x20\x01\x03\x00\x00\x00\x01\x00\x00\x00\x00\x90\x02\x18d\xc0\x01";

/// Its answer, with the tag 36868: the interval is 4.
const ANSWER: &[u8] =
    b"G\x00\x00\x00\x1f\x08d\xc0\x00\x00\x18\x20\x03\x0a\x00\x00\x00\x01\x00\x00\x00\x00\x90\x04\x02\x01\x00\x04\x01\x00\x01\x01\x04\x01\x00\x03";

/// A report of that structure, with the tag 65538.
const AFTERWARDS: &[u8] =
    b"G\x00\x00\x00\x1a\x08d\xc0\x00\x00\x13\x20\x03\x19\x00\x00\x00\x01\x00\x00\x00\x01\x00\x02\x02\x00\x02\x14\x15\x16\x17";

/// What is replayed of the change, its report, the question and its answer, and the report afterwards.
const ANSWERED_TEXT: &str =
    "report hk 2 tag 32770 undecidable 0\nreport hk 2 tag 65538 decided interval 4\nvalue 1 slot 15 = 2\n\
    value 3 slot 12 = 20\nvalue 3 slot 13 = 21\nvalue 3 slot 14 = 22\nvalue 3 slot 15 = 23\n";

/// The words of the command on the record of `shelf_of`.
const REPLAY: &[&str] = &["replay", "builtin", "record"];

/// The same of the command that follows it.
const FOLLOW: &[&str] = &["follow", "builtin", "record"];

/// A request that sets the interval of housekeeping structure 2 to 4, as `encode` is given it.
const LINE: &[u8] = b"0 f interval hk 2 4\n";

fn words_of(alloc: Global, words: &[&str]) -> Result<Vec<String>, AllocError> {
    let mut all = Vec::new(alloc);
    for word in words {
        all.push(String::from_str(alloc, word)?)?;
    }
    Ok(all)
}

/// A shelf with the record of these parts. Its reads give at most so many octets, and its listed calls fail.
fn shelf_of(alloc: Global, parts: &[&[u8]], failing: &[u32], most: u32) -> Result<MemShelf, Memory>
    requires { 1 ≤ most }
{
    let mut octets = Vec::new(alloc);
    for part in parts {
        octets.extend_from_slice(part)?;
    }
    let name = Items::from_slice(alloc, b"record".as_slice())?;
    let files = Items::from_vec(Vec::from_array(alloc, [(name, Items::from_vec(octets))])?);
    Ok(MemShelf::new(files, Items::from_slice(alloc, failing)?, most))
}

/// A sink with room for so many octets, ten at a time. Its listed calls fail.
fn sink_of(alloc: Global, failing: &[u32], room: u32) -> Result<MemSink, Memory> {
    MemSink::new(alloc, Items::from_slice(alloc, failing)?, 10, room)
}

/// How the words end on that shelf, and what they write.
fn run(
    alloc: Global,
    words: &[&str],
    mut shelf: MemShelf,
    mut sink: MemSink,
) -> Result<(ReplayStatus, MemSink), Memory> {
    let words = words_of(alloc, words)?;
    let status = replay_main(alloc, &words, &mut shelf, &mut sink);
    Ok((status, sink))
}

/// What is printed of a status, behind its number.
fn status_text(alloc: Global, status: &ReplayStatus) -> Result<(u8, Octets), Memory> {
    Ok((status.number(), status.fault_text(alloc)?))
}

/// Words on a record of these parts end with the number and the text of a status, and write the text.
fn check(
    rt: &impl Abort,
    alloc: Global,
    words: &[&str],
    parts: &[&[u8]],
    status: (u8, &str),
    text: &[u8],
) -> Result<(), Memory> {
    let shelf = shelf_of(alloc, parts, &[], 4096)?;
    let (found, sink) = run(alloc, words, shelf, sink_of(alloc, &[], 1000)?)?;
    let (number, fault) = status_text(alloc, &found)?;
    assert_eq!(rt; number, status.0);
    assert!(rt; fault.as_slice() == status.1.as_bytes(), "not {words:?}");
    assert!(rt; sink.taken() == text, "not {words:?}");
    Ok(())
}

const DONE: (u8, &str) = (0, "");

#[test]
fn records_that_are_replayed(rt: HostRuntime) -> Result<(), Fail> {
    let unopened = "report hk 1 tag 16385 no-opening\n\
        report hk 1 tag 32769 decided interval 4\nvalue 1 slot 7 = 7\n";
    let statistics = "statistics tag 8200 from 0 to 8200\n\
        stat 2 count 2 max -3 at 0 min -4 at 4096 mean -4 scale 1\n";
    let conflicts = "report hk 1 tag 16385 decided interval 4\nvalue 1 slot 3 = 43\nconflicts 3\n";
    let table: [(&[&[u8]], &str); 5] = [
        (&[KNOWN], ""),
        (&[KNOWN, CONFLICTING, REPORT, REPORT, REPORT], conflicts),
        (&[KNOWN, REPORT], REPORT_TEXT),
        (&[UNKNOWN, REPORT, STRUCTURE, LATER], unopened),
        (&[KNOWN, STATISTICS], statistics),
    ];
    for (parts, text) in table {
        check(&rt, rt.alloc(), REPLAY, parts, DONE, text.as_bytes())?;
    }
    Ok(())
}

/// So many requests, each to append another parameter to housekeeping structure 3.
fn appending(alloc: Global, count: u8) -> Result<Vec<u8>, AllocError> {
    let mut octets = Vec::new(alloc);
    for number in 0..count {
        octets.extend_from_slice(b"S\x00\x00\x00\x10\x18d\xc0")?;
        octets.push(number)?;
        octets.extend_from_slice(b"\x00\x09\x2f\x03\x1d\x00\x01\x03\x01\x00")?;
        octets.push(number.saturating_add(10))?;
        octets.push(0)?;
    }
    Ok(octets)
}

#[test]
fn structures_that_may_be_many(rt: HostRuntime) -> Result<(), Fail> {
    let alloc = rt.alloc();
    let decided = "report hk 3 tag 32771 decided interval 2\nvalue 6 slot 7 = 9\n";
    let table = [(6, decided), (7, "report hk 3 tag 32771 crowded 0\n")];
    for (count, text) in table {
        let requests = appending(alloc, count)?;
        let parts: &[&[u8]] = &[KNOWN, requests.as_slice(), THIRD];
        check(&rt, alloc, REPLAY, parts, DONE, text.as_bytes())?;
    }
    Ok(())
}

#[test]
fn other_forms(rt: HostRuntime) -> Result<(), Fail> {
    let table: [(&[&str], &[&[u8]], (u8, &str), &[u8]); 13] = [
        (&[], &[], (2, "usage"), b""),
        (&["replay", "builtin"], &[], (2, "usage"), b""),
        (
            REPLAY,
            &[KNOWN, &REPORT[..26]],
            (4, "record: cut at 8"),
            b"",
        ),
        (&["trim", "record"], &[KNOWN, &REPORT[..26]], DONE, KNOWN),
        (
            &["check", "builtin"],
            &[],
            DONE,
            b"tailoring ok parameters 14 structures 4\n",
        ),
        (
            &["show", "builtin", "record"],
            &[KNOWN, REPORT],
            DONE,
            b"got 16385 3.25 hk 1 octets 2\n",
        ),
        (
            &["encode", "builtin", "record"],
            &[LINE],
            DONE,
            b"HKREC1K\nS\x00\x00\x00\x0f\x18d\xc0\x00\x00\x08\x2f\x03\x1f\x00\x01\x01\x02\x00\x04",
        ),
        (
            &["replay", "record", "record"],
            &[LINE],
            (3, "tailoring: not toml"),
            b"",
        ),
        (&["generate", "01", "1"], &[], (2, "usage"), b""),
        (&["generate", "4294967296", "1"], &[], (2, "usage"), b""),
        (&["generate", "1", "0"], &[], (2, "usage"), b""),
        (&["generate", "1", "100001"], &[], (2, "usage"), b""),
        (
            &["generate", "1", "11"],
            &[],
            DONE,
            b"sent 1\nreceived 63\nrepeats 0\ndecided 60\nundecidable 0\nother 0\nvalues 440\n",
        ),
    ];
    for (words, parts, status, text) in table {
        check(&rt, rt.alloc(), words, parts, status, text)?;
    }
    Ok(())
}

#[test]
fn statuses_and_their_texts(rt: HostRuntime) -> Result<(), Fail> {
    let faults = [
        (SentFault::BadRequest, "record: bad request at 8"),
        (
            SentFault::WrongCount(0, 1),
            "record: wrong count 1 for 0 at 8",
        ),
        (SentFault::Reused(3), "record: reused count 3 at 8"),
        (SentFault::SessionFull, "record: session full at 8"),
        (SentFault::WindowFull(1), "record: window full at 8"),
    ];
    for (fault, text) in faults {
        let status = ReplayStatus::of_entry(fault, 8);
        let (number, found) = status_text(rt.alloc(), &status)?;
        assert!(rt;
            number == 4 && found.as_slice() == text.as_bytes(),
            "not {text}"
        );
    }
    let others = [
        (ReplayStatus::ReadFault, 5, "read fault"),
        (ReplayStatus::WriteFault, 6, "write fault"),
        (ReplayStatus::NoMemory, 7, "no memory"),
        (ReplayStatus::Text(0), 8, "line 0"),
    ];
    for (status, number, text) in others {
        let (is, found) = status_text(rt.alloc(), &status)?;
        assert!(rt;
            is == number && found.as_slice() == text.as_bytes(),
            "not {text}"
        );
    }
    Ok(())
}

/// Each call of the shelf fails in turn, until a run ends well.
#[test]
fn reads_fail(rt: HostRuntime) -> Result<(), Fail> {
    let alloc = rt.alloc();
    let parts: &[&[u8]] = &[KNOWN, CHANGE, CHANGED, QUESTION, BEGUN, ANSWER, AFTERWARDS];
    for call in 1..=40u32 {
        let shelf = shelf_of(alloc, parts, &[call], 7)?;
        let (status, sink) = run(alloc, REPLAY, shelf, sink_of(alloc, &[], 1000)?)?;
        if status.number() == 0 {
            assert!(rt; call > 25 && sink.taken() == ANSWERED_TEXT.as_bytes());
            return Ok(());
        }
        assert_eq!(rt; status.number(), 5);
        assert!(rt; sink.taken().is_empty());
    }
    Err("no run ended well".into())
}

/// Each call of the sink fails in turn, until a run ends well.
#[test]
fn writes_fail(rt: HostRuntime) -> Result<(), Fail> {
    let alloc = rt.alloc();
    for call in 1..=20u32 {
        let shelf = shelf_of(alloc, &[KNOWN, REPORT], &[], 4096)?;
        let (status, sink) = run(alloc, REPLAY, shelf, sink_of(alloc, &[call], 1000)?)?;
        if status.number() == 0 {
            assert!(rt; call > 6 && sink.taken() == REPORT_TEXT.as_bytes());
            return Ok(());
        }
        assert_eq!(rt; status.number(), 6);
        assert!(rt; REPORT_TEXT.as_bytes().starts_with(sink.taken()));
        assert!(rt; call > 2 || sink.taken().len() <= 10);
    }
    Err("no run ended well".into())
}

#[test]
fn records_that_are_followed(rt: HostRuntime) -> Result<(), Fail> {
    let completed =
        "report hk 2 tag 32770 decided interval 4\nvalue 1 slot 7 = 1\nvalue 3 slot 4 = 10\n\
        value 3 slot 5 = 11\nvalue 3 slot 6 = 12\nvalue 3 slot 7 = 13\n";
    let unopened = "report hk 1 tag 32769 decided interval 4\nvalue 1 slot 7 = 7\n\
        report hk 1 tag 16385 no-opening\n";
    let table: [(&[&[u8]], (u8, &str), &str); 4] = [
        (&[KNOWN, CHANGE, CHANGED, COMPLETED], DONE, completed),
        (
            &[KNOWN, CHANGE, CHANGED, &COMPLETED[..20]],
            (4, "record: cut at 59"),
            "",
        ),
        (&[UNKNOWN, REPORT, STRUCTURE, LATER], DONE, unopened),
        (
            &[KNOWN, REPORT, &LATER[..26]],
            (4, "record: cut at 35"),
            REPORT_TEXT,
        ),
    ];
    for (parts, status, text) in table {
        check(&rt, rt.alloc(), FOLLOW, parts, status, text.as_bytes())?;
    }
    Ok(())
}

/// Each call of the sink fails in turn, until the fault behind the first entry is reached.
#[test]
fn writes_fail_before_a_later_fault(rt: HostRuntime) -> Result<(), Fail> {
    let alloc = rt.alloc();
    for call in 1..=20u32 {
        let shelf = shelf_of(alloc, &[KNOWN, REPORT, b"X"], &[], 4096)?;
        let (status, sink) = run(alloc, FOLLOW, shelf, sink_of(alloc, &[call], 1000)?)?;
        if status.number() == 4 {
            assert!(rt; call > 6 && sink.taken() == REPORT_TEXT.as_bytes());
            return Ok(());
        }
        assert_eq!(rt; status.number(), 6);
        assert!(rt; REPORT_TEXT.as_bytes().starts_with(sink.taken()));
    }
    Err("no run came to the fault".into())
}
