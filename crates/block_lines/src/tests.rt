use crate::{Counts, write_counts, write_current, write_report, write_statistics, write_summary};
use definition_intervals::Verdict;
use hk_base::{Items, Key, Kind, Memory, Tailoring, builtin, slot_of};
use sample_slots::read_payload;
use session_texts::Tally;
use st04_grammar::{StatReport, StatRow};
use st20_grammar::Setting;
use std::alloc::Global;
use std::test::Fail;

const LINES: &str = "report hk 2 tag 32770 decided interval 8
value 1 slot 7 = 1
value 3 slot 1 = 10
value 3 slot 3 = 11
value 3 slot 5 = 12
value 3 slot 7 = 13
report hk 2 tag 32770 undecidable 0
statistics tag 8200 from 0 to 8200
stat 2 count 2 max -3 at 0 min -4 at 4096 mean -4 scale 1
values tag 8201
current 7 = 500
repeats 2
unread 1
sent 1
received 2
repeats 0
decided 1
undecidable 0
other 0
values 5
";

const SECOND: Key = Key {
    kind: Kind::Housekeeping,
    id: 2,
};

const PAYLOAD: [u8; 6] = [0, 1, 10, 11, 12, 13];

#[test]
fn worked_lines(rt: HostRuntime) -> Result<(), Fail> {
    let lines = lines(rt.alloc())?;
    assert!(rt; lines.as_slice() == LINES.as_bytes());
    Ok(())
}

fn lines(alloc: Global) -> Result<Vec<u8>, Memory> {
    let mut out = Vec::new(alloc);
    let tailoring = builtin(alloc)?;
    write_decided(alloc, &mut out, &tailoring, 32_770, &PAYLOAD)?;
    write_undecidable(alloc, &mut out, &tailoring)?;
    write_statistics(&mut out, &tailoring, 8200, &statistics(alloc)?)?;
    write_numbers(&mut out)?;
    Ok(out)
}

/// Writes a report of a structure with an array under the definition that it has from the start.
fn write_decided(
    alloc: Global,
    out: &mut Vec<u8>,
    tailoring: &Tailoring,
    tag: u64,
    payload: &[u8],
) -> Result<(), Memory> {
    let Some(structure) = tailoring.boot(SECOND) else {
        return Ok(());
    };
    if u64::from(structure.def.interval) > slot_of(tailoring, tag) || payload.len() > 100 {
        return Ok(());
    }
    if read_payload(alloc, tailoring, &structure.def, payload).is_err() {
        return Ok(());
    }
    let verdict = Verdict::Decided(structure.def.copy(alloc)?);
    write_report(alloc, out, tailoring, SECOND, tag, &verdict, payload)
}

fn write_undecidable(
    alloc: Global,
    out: &mut Vec<u8>,
    tailoring: &Tailoring,
) -> Result<(), Memory> {
    let verdict = Verdict::Undecidable(0);
    write_report(alloc, out, tailoring, SECOND, 32_770, &verdict, &PAYLOAD)
}

fn statistics(alloc: Global) -> Result<StatReport, Memory> {
    let row = StatRow {
        param: 2,
        count: 2,
        max: -3,
        max_time: 0,
        min: -4,
        min_time: 4096,
        mean: -4,
    };
    Ok(StatReport {
        start: 0,
        end: 8200,
        rows: Items::from_slice(alloc, &[row])?,
    })
}

fn write_numbers(out: &mut Vec<u8>) -> Result<(), Memory> {
    let pair = Setting {
        param: 7,
        value: 500,
    };
    write_current(out, 8201, &[pair])?;
    let counts = Counts {
        repeats: 2,
        conflicts: 0,
        foreign: 0,
        skipped: 0,
        unread: 1,
        stray: 0,
    };
    write_counts(out, &counts)?;
    let tally = Tally {
        sent: 1,
        received: 2,
        repeats: 0,
        decided: 1,
        undecidable: 0,
        other: 0,
        values: 5,
    };
    write_summary(out, &tally)
}
