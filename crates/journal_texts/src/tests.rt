use crate::{JournalFault, journal_text, read_journal};
use hk_base::{Items, Memory, Octets};
use hk_world::{Act, Moment};
use std::alloc::{AllocError, Global};
use std::test::Fail;

const ACTS: u32 = 14;

/// The act with this number, and its words.
fn act(alloc: Global, number: u32) -> Result<(Act, &'static str), Memory> {
    Ok(match number {
        0 => (Act::Accepted(0), "accepted 0"),
        1 => (Act::Accepted(u64::MAX), "accepted 18446744073709551615"),
        2 => (Act::TurnedAway(7), "turned-away 7"),
        3 => (Act::Started(16_384), "started 16384"),
        4 => (Act::NotStarted(12), "not-started 12"),
        5 => (Act::Executed(5, 1, true), "executed 5 1 done"),
        6 => (
            Act::Executed(5, u32::MAX, false),
            "executed 5 4294967295 refused",
        ),
        7 => (
            Act::Completed(9, Items::from_slice(alloc, &[])?),
            "completed 9",
        ),
        8 => (
            Act::Completed(9, Items::from_slice(alloc, &[1, 3, 20])?),
            "completed 9 1 3 20",
        ),
        9 => (Act::Emitted, "emitted"),
        10 => (Act::Filed(7, 0, 100), "filed 7 0 100"),
        11 => (
            Act::Filed(2, u64::MAX, -4),
            "filed 2 18446744073709551615 -4",
        ),
        12 => (
            Act::Filed(0, 1, i128::MAX),
            "filed 0 1 170141183460469231731687303715884105727",
        ),
        _ => (
            Act::Filed(0, 1, i128::MIN),
            "filed 0 1 -170141183460469231731687303715884105728",
        ),
    })
}

/// The moment at this tag with the act of this number and that packet, and its text.
fn moment(
    alloc: Global,
    tag: u64,
    number: u32,
    packet: &[u8],
    digits: &str,
) -> Result<(Moment, String), Memory> {
    let (act, words) = act(alloc, number)?;
    let packet = Octets::from_slice(alloc, packet)?;
    let text = format!(in alloc; "{tag} {words}{digits}")?;
    Ok((Moment { tag, act, packet }, text))
}

fn shown(alloc: Global, moment: &Moment) -> Result<String, AllocError> {
    format!(in alloc; "{moment:?}")
}

/// Whether the text is the moment's, and is read as it.
fn is_text_of(alloc: Global, moment: &Moment, text: &str) -> Result<bool, JournalFault> {
    let written = journal_text(alloc, moment)?;
    let read = read_journal(alloc, text.as_bytes())?;
    let is_read = shown(alloc, &read)? == shown(alloc, moment)?;
    Ok(written.as_slice() == text.as_bytes() && is_read)
}

/// Whether the moment with the act of this number has its text, with and without a packet.
fn has_texts(alloc: Global, number: u32) -> Result<bool, JournalFault> {
    let (moment_alone, text_alone) = moment(alloc, 4097, number, &[], "")?;
    let (with_packet, text_with) = moment(
        alloc,
        u64::MAX,
        number,
        &[0x08, 0x64, 0xc0, 0x00, 0xff, 0x1a],
        " packet 0864c000ff1a",
    )?;
    Ok(
        is_text_of(alloc, &moment_alone, &text_alone)?
            && is_text_of(alloc, &with_packet, &text_with)?,
    )
}

#[test]
fn each_act_has_its_line(rt: HostRuntime) -> Result<(), Fail> {
    for number in 0..ACTS {
        assert_eq!(rt; has_texts(rt.alloc(), number), Ok(true), "{number}");
    }
    Ok(())
}

/// Whether the line is read as the value 100 of parameter 7 for slot 0 at tag 4096, with no packet.
fn is_filed_value(alloc: Global, line: &str) -> bool {
    match read_journal(alloc, line.as_bytes()) {
        Ok(moment) => {
            moment.tag == 4096
                && matches!(&moment.act, Act::Filed(7, 0, 100))
                && moment.packet.as_slice().is_empty()
        }
        Err(_) => false,
    }
}

/// Whether the text is the text of no moment.
fn is_bad(alloc: Global, text: &[u8]) -> bool {
    matches!(read_journal(alloc, text), Err(JournalFault::BadLine))
}

const BAD_LINES: &str = "
 
4096
4096 
4096 filed 7 0
4096 filed 7 0 100 1
4096 filed 7 -1 100
4096 filed 7 18446744073709551616 100
4096 filed 4294967296 0 100
4096 filed 7 0 -0
4096 filed 7 0 +1
4096 filed 7 0 170141183460469231731687303715884105728
4096 filed 7 0 -170141183460469231731687303715884105729
04096 filed 7 0 100
 4096 filed 7 0 100
4096  filed 7 0 100
4096 filed 7 0 100 
-1 emitted
+1 emitted
x emitted
18446744073709551616 emitted
1 Emitted
1 emitted 1
1 lost 5
1 accepted
1 accepted 01
1 accepted 1 2
1 accepted 18446744073709551616
1 turned-away -1
1 started
1 not-started x
1 executed 0 1
1 executed 0 1 true
1 executed 0 4294967296 done
1 completed
1 completed 0 01
1 completed 0 4294967296
1 completed 0 x
1 emitted packet
1 emitted packet 
1 emitted packet 086
1 emitted packet 0A
1 emitted packet 0g
1 emitted packet 00 00
1 emitted packet 00 packet 00
1 emitted Packet 00
1 emitted  packet 00
1 emitted packet 00 
1 packet 00
1 packet emitted
packet 00";

#[test]
fn other_lines_are_bad(rt: HostRuntime) -> Result<(), Fail> {
    assert!(rt; is_filed_value(rt.alloc(), "4096 filed 7 0 100"));
    for line in BAD_LINES.lines() {
        assert!(rt; is_bad(rt.alloc(), line.as_bytes()), "{line}");
    }
    assert!(rt; is_bad(rt.alloc(), b"1 emitted\n"));
    assert!(rt; is_bad(rt.alloc(), b"1 emitted\r"));
    assert!(rt; is_bad(rt.alloc(), b"1 emitted\xff"));
    Ok(())
}
