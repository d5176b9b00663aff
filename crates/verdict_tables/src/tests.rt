ghost use Rattle.std.specs.Prelude.{◌≡◌, ◌<◌, ◌≤◌, IfOk, length};

use crate::{Steps, Tables};
use definition_intervals::{Verdict, verdict};
use ground_history::History;
use hk_base::{Key, Kind, Memory, builtin};
use std::alloc::Global;
use std::marker::Brand;
use std::sync::ledger::{Blank, Ledger};
use std::test::Fail;

/// What a verdict tells, of a definition the interval.
#[derive(Clone, Copy, Debug, PartialEq, Eq, Drop)]
enum Told {
    Decided(u32),
    Undecidable(u64),
    Crowded(u64),
    NoOpening,
    Impossible,
}

/// The history before the entries of a record.
#[derive(Clone, Copy, Debug, PartialEq, Eq, Drop)]
enum Start {
    Known,
    Unknown,
    /// A long session with known start, in which all counts were used once.
    Long,
}

/// A record, the report of a housekeeping structure that is asked about, and its verdict.
struct Row {
    start: Start,
    /// Packets in hexadecimal digits, with S before one that was sent and G before one that was received.
    entries: &'static str,
    id: u32,
    tag: u64,
    payload: &'static str,
    told: Told,
}

/// The verdict by the definition's own call, and by tables.
#[derive(Clone, Copy, Drop)]
struct Both {
    plain: Told,
    by_tables: Told,
}

/// [1,3] reports of the requests with these numbers.
const STARTED_8190: &str = "0864c0000010200103000000010000000010011864dffe";

const STARTED_16381: &str = "0864c0000010200103000000010000000020011864fffd";

const ROWS: [Row; 26] = [
    Row {
        start: Start::Known,
        entries: "S1864c00000082f031f000101020004 G0864c0000013200319000000010000000080020200010a0b0c0d G0864c0000010200107000000010000000070041864c000",
        id: 2,
        tag: 32_770,
        payload: "00010a0b0c0d",
        told: Told::Decided(4),
    },
    Row {
        start: Start::Known,
        entries: "S1864c000000f2f030100010900040100010102010003 G0864c0000011200319000000010000000080020900050a0b",
        id: 9,
        tag: 32_770,
        payload: "00050a0b",
        told: Told::Decided(4),
    },
    Row {
        start: Start::Known,
        entries: "S1864c00000082f031f000101020004 G0864c0000013200319000000010000000080020200010a0b0c0d",
        id: 2,
        tag: 32_770,
        payload: "00010a0b0c0d",
        told: Told::Undecidable(0),
    },
    Row {
        start: Start::Known,
        entries: "G0864c000000f2003190000000100000000c002010007 S1864c00000082f031f000101020004 G0864c0000013200319000000010000000080020200010a0b0c0d",
        id: 2,
        tag: 32_770,
        payload: "00010a0b0c0d",
        told: Told::Decided(8),
    },
    Row {
        start: Start::Known,
        entries: "G0864c000000f2003190000000100000000c002010007 S1864c00000082f031f000101020004 G0864c0000013200319000000010000000080020200010a0b0c0d",
        id: 1,
        tag: 49_154,
        payload: "0007",
        told: Told::Decided(4),
    },
    Row {
        start: Start::Known,
        entries: "S1864c00000082f031f000101020004 G0864c0000013200319000000010000000080020200010a0b0c0d S1864c00100062f030900010102 G0864c0000010200103000000010000000090021864c001 G0864c000001820030a00000001000000009004020100040100010104010003 G0864c00000132003190000000100000001000202000214151617",
        id: 2,
        tag: 32_770,
        payload: "00010a0b0c0d",
        told: Told::Undecidable(0),
    },
    Row {
        start: Start::Known,
        entries: "S1864c00000082f031f000101020004 G0864c0000013200319000000010000000080020200010a0b0c0d S1864c00100062f030900010102 G0864c0000010200103000000010000000090021864c001 G0864c000001820030a00000001000000009004020100040100010104010003 G0864c00000132003190000000100000001000202000214151617",
        id: 2,
        tag: 65_538,
        payload: "000214151617",
        told: Told::Decided(4),
    },
    Row {
        start: Start::Known,
        entries: "S1864c00000082f031f000101020004 G0864c0000013200319000000010000000080020200010a0b0c0d G0864c0000010200107000000010000000080031864c000",
        id: 2,
        tag: 32_770,
        payload: "00010a0b0c0d",
        told: Told::Undecidable(0),
    },
    Row {
        start: Start::Known,
        entries: "S1864c00000082f031f000101020004 G0864c0000013200319000000010000000080020200010a0b0c0d G0864c0000010200107000000010000000080011864c000",
        id: 2,
        tag: 32_770,
        payload: "00010a0b0c0d",
        told: Told::Decided(4),
    },
    Row {
        start: Start::Known,
        entries: "S1864c000000e2f031f000103010002020006030004 G0864c0000014200108000000010000000050041864c00000c80102 G0864c000000f20031900000001000000008001010007 G0864c0000013200319000000010000000080020200010a0b0c0d G0864c0000011200319000000010000000080030300000009",
        id: 1,
        tag: 32_769,
        payload: "0007",
        told: Told::Decided(2),
    },
    Row {
        start: Start::Known,
        entries: "S1864c000000e2f031f000103010002020006030004 G0864c0000014200108000000010000000050041864c00000c80102 G0864c000000f20031900000001000000008001010007 G0864c0000013200319000000010000000080020200010a0b0c0d G0864c0000011200319000000010000000080030300000009",
        id: 2,
        tag: 32_770,
        payload: "00010a0b0c0d",
        told: Told::Decided(8),
    },
    Row {
        start: Start::Known,
        entries: "S1864c000000e2f031f000103010002020006030004 G0864c0000014200108000000010000000050041864c00000c80102 G0864c000000f20031900000001000000008001010007 G0864c0000013200319000000010000000080020200010a0b0c0d G0864c0000011200319000000010000000080030300000009",
        id: 3,
        tag: 32_771,
        payload: "00000009",
        told: Told::Decided(4),
    },
    Row {
        start: Start::Known,
        entries: "S1864c00000092f031d00010101000200 G0864c0000016200104000000010000000050031864c000006700000000 G0864c000000f20031900000001000000008001010007",
        id: 1,
        tag: 32_769,
        payload: "0007",
        told: Told::Decided(4),
    },
    Row {
        start: Start::Known,
        entries: "G0864c000000f2003190000000100000000400101002a G0864c000000f2003190000000100000000400101002a G0864c000000f2003190000000100000000400101002a G0864c000000f2003190000000100000000400101002b",
        id: 1,
        tag: 16_385,
        payload: "002a",
        told: Told::Decided(4),
    },
    Row {
        start: Start::Known,
        entries: "S1864c00000092f031d00010301000a00 S1864c00100092f031d00010301000b00 S1864c00200092f031d00010301000c00 S1864c00300092f031d00010301000d00 S1864c00400092f031d00010301000e00 S1864c00500092f031d00010301000f00 S1864c00600092f031d00010301001000 G0864c0000011200319000000010000000080030300000009",
        id: 3,
        tag: 32_771,
        payload: "00000009",
        told: Told::Crowded(0),
    },
    Row {
        start: Start::Known,
        entries: "S1864c00000092f031d00010301000a00 S1864c00100092f031d00010301000b00 S1864c00200092f031d00010301000c00 S1864c00300092f031d00010301000d00 S1864c00400092f031d00010301000e00 S1864c00500092f031d00010301000f00 G0864c0000011200319000000010000000080030300000009",
        id: 3,
        tag: 32_771,
        payload: "00000009",
        told: Told::Decided(2),
    },
    Row {
        start: Start::Unknown,
        entries: "G0864c000000f2003190000000100000000400101002a G0864c000001420030a000000010000000050010101000401000100 G0864c000000f20031900000001000000008001010007",
        id: 1,
        tag: 16_385,
        payload: "002a",
        told: Told::NoOpening,
    },
    Row {
        start: Start::Unknown,
        entries: "G0864c000000f2003190000000100000000400101002a G0864c000001420030a000000010000000050010101000401000100 G0864c000000f20031900000001000000008001010007",
        id: 1,
        tag: 32_769,
        payload: "0007",
        told: Told::Decided(4),
    },
    Row {
        start: Start::Known,
        entries: "S1864c000000b2f0301000109000401000100 S1864c001000b2f0301000109000401000700 G0864c000000f20031900000001000000008002090005",
        id: 9,
        tag: 32_770,
        payload: "0005",
        told: Told::Undecidable(0),
    },
    Row {
        start: Start::Known,
        entries: "S1864c00000092f031d00010301000a00 S1864c00100092f031d00010301000b00 S1864c00200092f031d00010301000c00 S1864c00300092f031d00010301000d00 S1864c00400092f031d00010301000e00 S1864c00500092f031d00010301000f00 S1864c00600092f031d00010301001000 G0864c0000011200319000000010000000080030300000009 S1864c00700062f030300010103 S1864c008000b2f0301000103000201000600 G0864c0000010200107000000010000000090061864c008 G0864c00000112003190000000100000000a0020300000005",
        id: 3,
        tag: 32_771,
        payload: "00000009",
        told: Told::Crowded(0),
    },
    Row {
        start: Start::Known,
        entries: "S1864c00000092f031d00010301000a00 S1864c00100092f031d00010301000b00 S1864c00200092f031d00010301000c00 S1864c00300092f031d00010301000d00 S1864c00400092f031d00010301000e00 S1864c00500092f031d00010301000f00 S1864c00600092f031d00010301001000 G0864c0000011200319000000010000000080030300000009 S1864c00700062f030300010103 S1864c008000b2f0301000103000201000600 G0864c0000010200107000000010000000090061864c008 G0864c00000112003190000000100000000a0020300000005",
        id: 3,
        tag: 40_962,
        payload: "00000005",
        told: Told::Decided(2),
    },
    Row {
        start: Start::Known,
        entries: "S1864c00000062f030300010101 S1864c00100062f030600010102 G0864c000000f20031900000001000000008001010007",
        id: 1,
        tag: 32_769,
        payload: "0007",
        told: Told::Decided(4),
    },
    Row {
        start: Start::Unknown,
        entries: "G0864c000000f2003190000000100000000400101002a S1864c00000082f031f000101010002 G0864c000001420030a000000010000000050010101000401000100 G0864c000000f20031900000001000000008001010007",
        id: 1,
        tag: 16_385,
        payload: "002a",
        told: Told::NoOpening,
    },
    Row {
        start: Start::Unknown,
        entries: "G0864c000000f2003190000000100000000400101002a S1864c00000082f031f000101010002 G0864c000001420030a000000010000000050010101000401000100 G0864c000000f20031900000001000000008001010007",
        id: 1,
        tag: 32_769,
        payload: "0007",
        told: Told::Undecidable(0),
    },
    Row {
        start: Start::Known,
        entries: "S1864c00000082f031f000101030004 S1864c001000b2f031d00010300010401000a S1864c00200062f030500010101 G0864c0000010200101000000010000000050021864c001 G0864c0000010200103000000010000000050051864c002 G0864c0000011200319000000010000000080030300000009",
        id: 3,
        tag: 32_771,
        payload: "00000009",
        told: Told::Decided(2),
    },
    Row {
        start: Start::Known,
        entries: "S1864c00000082f031f000101030004 S1864c001000b2f031d00010300010401000a S1864c00200062f030500010101 G0864c0000010200101000000010000000050021864c001 G0864c0000010200103000000010000000050051864c002 G0864c0000011200319000000010000000080030300000009 G0864c0000016200104000000010000000050031864c001006900040002",
        id: 3,
        tag: 32_771,
        payload: "00000009",
        told: Told::Undecidable(0),
    },
];

const LONG_ROWS: [Row; 3] = [
    Row {
        start: Start::Long,
        entries: "S1864c00000082f031f000101020004 G0864c0000013200319000000010000000080020200010a0b0c0d",
        id: 2,
        tag: 32_770,
        payload: "00010a0b0c0d",
        told: Told::Undecidable(16_384),
    },
    Row {
        start: Start::Long,
        entries: "S1864c00000082f031f000101020004 G0864c0000013200319000000010000000080020200010a0b0c0d G0864c0000010200107000000010000000070041864c000",
        id: 2,
        tag: 32_770,
        payload: "00010a0b0c0d",
        told: Told::Decided(4),
    },
    Row {
        start: Start::Long,
        entries: "S1864c00000082f031f000101020004 G0864c0000013200319000000010000000080020200010a0b0c0d G0864c0000010200107000000010000000013881864c000",
        id: 2,
        tag: 32_770,
        payload: "00010a0b0c0d",
        told: Told::Undecidable(16_384),
    },
];

/// The octets of hexadecimal digits, 1,000 at most.
fn octets(alloc: Global, digits: &str) -> Result<Vec<u8>, Memory>
    ensures { IfOk result (λ octets. length octets.items ≤ 1000) }
{
    match hex::decode(alloc, digits) {
        Ok(octets) if octets.len() <= 1_000 => Ok(octets),
        _ => Err(Memory),
    }
}

/// Takes the entries of a record.
fn play(alloc: Global, history: &mut History, entries: &str) -> Result<(), Memory> {
    for entry in entries.split(' ') {
        if let Some(digits) = entry.strip_prefix('S') {
            send(alloc, history, digits)?;
        }
        if let Some(digits) = entry.strip_prefix('G') {
            receive(alloc, history, digits)?;
        }
    }
    Ok(())
}

fn send(alloc: Global, history: &mut History, digits: &str) -> Result<(), Memory> {
    let packet = octets(alloc, digits)?;
    match history.sent(&packet) {
        Ok(true) => Ok(()),
        _ => Err(Memory),
    }
}

fn receive(alloc: Global, history: &mut History, digits: &str) -> Result<(), Memory> {
    let packet = octets(alloc, digits)?;
    history.got(&packet)?;
    Ok(())
}

/// A request with this count, modulo 16,384, that enables a structure.
fn request(count: u16) -> [u8; 13] {
    let [high, low] = (count % 16_384).to_be_bytes();
    [
        0x18,
        0x64,
        0xc0 | high,
        low,
        0x00,
        0x06,
        0x2f,
        0x03,
        0x05,
        0x00,
        0x01,
        0x01,
        0x01,
    ]
}

/// Sends the requests with these counts.
fn send_all(history: &mut History, first: u16, end: u16) -> Result<(), Memory> {
    for count in first..end {
        if history.sent(&request(count)) != Ok(true) {
            return Err(Memory);
        }
    }
    Ok(())
}

/// Uses each count once, each in the window.
fn use_counts(alloc: Global, history: &mut History) -> Result<(), Memory> {
    send_all(history, 0, 8_191)?;
    receive(alloc, history, STARTED_8190)?;
    send_all(history, 8_191, 16_382)?;
    receive(alloc, history, STARTED_16381)?;
    send_all(history, 16_382, 16_384)
}

fn telling(verdict: Verdict) -> Told {
    match verdict {
        Verdict::Decided(def) => Told::Decided(def.interval),
        Verdict::Undecidable(number) => Told::Undecidable(number),
        Verdict::Crowded(number) => Told::Crowded(number),
        Verdict::NoOpening => Told::NoOpening,
        Verdict::Impossible => Told::Impossible,
    }
}

fn plain(alloc: Global, history: &History, row: &Row) -> Result<Told, Memory> {
    let kind = Kind::Housekeeping;
    let payload = octets(alloc, row.payload)?;
    let verdict = verdict(alloc, history, Key { kind, id: row.id }, row.tag, &payload)?;
    Ok(telling(verdict))
}

fn by_tables<L: Ledger>(
    alloc: Global,
    history: &History,
    row: &Row,
    blank: Blank,
) -> Result<Told, Memory>
    requires name { blank.name ≡ L.name }
    requires parts { blank.parts ≡ L.parts }
    requires some { 0 < L.parts }
{
    let mut steps = Steps::<L>::new(blank);
    let mut tables = Tables::new(alloc);
    tables.mend(history)?;
    asked(alloc, &tables, row, &mut steps)
}

fn asked<L: Ledger>(
    alloc: Global,
    tables: &Tables,
    row: &Row,
    steps: &mut Steps<L>,
) -> Result<Told, Memory> {
    let kind = Kind::Housekeeping;
    let payload = octets(alloc, row.payload)?;
    let verdict = tables.verdict(alloc, Key { kind, id: row.id }, row.tag, &payload, steps)?;
    Ok(telling(verdict))
}

/// Both verdicts after the entries of a row.
fn verdicts(alloc: Global, history: &mut History, row: &Row) -> Result<Both, Memory> {
    if row.start == Start::Long {
        use_counts(alloc, history)?;
    }
    play(alloc, history, row.entries)?;
    let plain = plain(alloc, history, row)?;
    let by_tables = by_tables::<Brand>(alloc, history, row, Blank::new(1))?;
    Ok(Both { plain, by_tables })
}

fn outcome(alloc: Global, row: &Row) -> Result<Both, Memory> {
    let tailoring = builtin(alloc)?;
    let known = row.start != Start::Unknown;
    let long = row.start == Start::Long;
    let mut history = History::new(alloc, tailoring, known, long);
    verdicts(alloc, &mut history, row)
}

/// Whether both verdicts are that of the row.
fn is_told(alloc: Global, row: &Row) -> Result<bool, Memory> {
    let both = outcome(alloc, row)?;
    Ok(both.plain == row.told && both.by_tables == row.told)
}

#[test]
fn each_row_has_its_verdict(rt: HostRuntime) -> Result<(), Fail> {
    for row in &ROWS {
        assert!(rt; is_told(rt.alloc(), row)?);
    }
    Ok(())
}

#[test]
fn counts_that_are_used_again_have_theirs(rt: HostRuntime) -> Result<(), Fail> {
    for row in &LONG_ROWS {
        assert!(rt; is_told(rt.alloc(), row)?);
    }
    Ok(())
}
