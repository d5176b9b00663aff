use crate::{
    Report04, Request04, StatReport, StatRow, decode_report, decode_request, encode_report,
    encode_request, knows_report, knows_request,
};
use body_fields::BodyFault;
use hk_base::{BUILTIN_WIDTHS, Form, Items, Memory, Param, Tailoring, Widths, builtin};
use std::alloc::Global;
use std::test::Fail;

const PACKED_WIDTHS: Widths = Widths {
    packed: true,
    count_octets: 2,
    mean_fraction: 1,
    ..BUILTIN_WIDTHS
};

/// A tailoring with counts of two octets, means in units of a 256th, and a parameter of three bits.
fn packed(alloc: Global) -> Result<Tailoring, Memory> {
    let param = Param {
        id: 1,
        form: Form::Signed,
        octets: 1,
        bits: 3,
        initial: None,
    };
    let params = Items::from_vec(Vec::from_array(alloc, [param])?);
    let boots = Items::from_vec(Vec::new(alloc));
    Tailoring::new(alloc, PACKED_WIDTHS, params, boots)
}

fn request_fault(
    alloc: Global,
    tailoring: &Tailoring,
    subtype: u8,
    body: &[u8],
) -> Option<BodyFault> {
    if !knows_request(subtype) || body.len() > 64 {
        return None;
    }
    decode_request(alloc, tailoring, subtype, body).err()
}

fn report_fault(
    alloc: Global,
    tailoring: &Tailoring,
    subtype: u8,
    body: &[u8],
) -> Option<BodyFault> {
    if !knows_report(subtype) || body.len() > 64 {
        return None;
    }
    decode_report(alloc, tailoring, subtype, body).err()
}

#[test]
fn requests_have_the_first_fault(rt: HostRuntime) -> Result<(), Fail> {
    let tailoring = builtin(rt.alloc())?;
    let rows: [(u8, &[u8], BodyFault); 21] = [
        (1, &[], BodyFault::Short),
        (1, &[2], BodyFault::Status(2)),
        (1, &[1, 0], BodyFault::Trailing(1)),
        (3, &[0], BodyFault::Trailing(1)),
        (4, &[0], BodyFault::Short),
        (4, &[0, 0], BodyFault::ZeroInterval),
        (4, &[0x10, 1], BodyFault::LongInterval(4097)),
        (4, &[0x10, 0, 9], BodyFault::Trailing(1)),
        (5, &[0, 0], BodyFault::Trailing(2)),
        (6, &[1, 0], BodyFault::Short),
        (6, &[1, 0, 1, 0], BodyFault::Trailing(1)),
        (6, &[0], BodyFault::ZeroCount),
        (6, &[2, 0, 1, 0, 1], BodyFault::RepeatedKey(1)),
        (6, &[1, 0, 8], BodyFault::UnknownParam(8)),
        (6, &[1, 0, 4], BodyFault::NotNumeric(4)),
        (7, &[1, 0], BodyFault::Short),
        (7, &[0, 0], BodyFault::Trailing(1)),
        (7, &[2, 0, 1, 0, 1], BodyFault::RepeatedKey(1)),
        (7, &[1, 0, 8], BodyFault::UnknownParam(8)),
        (7, &[1, 0, 5], BodyFault::NotNumeric(5)),
        (8, &[0], BodyFault::Trailing(1)),
    ];
    for (subtype, body, fault) in rows {
        assert_eq!(rt;
            request_fault(rt.alloc(), &tailoring, subtype, body),
            Some(fault)
        );
    }
    Ok(())
}

#[test]
fn definition_reports_have_the_first_fault(rt: HostRuntime) -> Result<(), Fail> {
    let tailoring = builtin(rt.alloc())?;
    let rows: [(&[u8], BodyFault); 8] = [
        (&[1, 0], BodyFault::Short),
        (&[2, 0, 0], BodyFault::Status(2)),
        (&[1, 0, 0], BodyFault::ZeroInterval),
        (&[1, 0x10, 1], BodyFault::LongInterval(4097)),
        (&[1, 0, 4, 0, 0], BodyFault::Trailing(1)),
        (&[1, 0, 4, 2, 0, 1, 0, 1], BodyFault::RepeatedKey(1)),
        (&[1, 0, 4, 1, 0, 8], BodyFault::UnknownParam(8)),
        (&[1, 0, 4, 1, 0, 4], BodyFault::NotNumeric(4)),
    ];
    for (body, fault) in rows {
        assert_eq!(rt; report_fault(rt.alloc(), &tailoring, 9, body), Some(fault));
    }
    Ok(())
}

/// A body of a report of statistics: two times of 0, and these octets.
fn after_times(alloc: Global, rows: &[u8]) -> Result<Vec<u8>, Memory> {
    let mut body = Vec::from_slice(alloc, &[0; 12])?;
    body.extend_from_slice(rows)?;
    Ok(body)
}

#[test]
fn statistics_have_the_first_fault(rt: HostRuntime) -> Result<(), Fail> {
    let alloc = rt.alloc();
    let tailoring = builtin(alloc)?;
    let rows: [(&[u8], BodyFault); 7] = [
        (&[], BodyFault::Short),
        (&[0, 0], BodyFault::Trailing(1)),
        (&[1, 0, 2, 0, 0, 0, 0], BodyFault::ZeroCount),
        (
            &[
                2, 0, 2, 0, 0, 0, 1, 5, 0, 0, 0, 0, 0, 0, 5, 0, 0, 0, 0, 0, 0, 5, 0, 2,
            ],
            BodyFault::RepeatedKey(2),
        ),
        (&[1, 0, 8], BodyFault::UnknownParam(8)),
        (&[1, 0, 4], BodyFault::NotNumeric(4)),
        (&[1, 0, 5], BodyFault::NotNumeric(5)),
    ];
    for (rows, fault) in rows {
        let body = after_times(alloc, rows)?;
        assert_eq!(rt; report_fault(alloc, &tailoring, 2, &body), Some(fault));
    }
    Ok(())
}

#[test]
fn wide_counts_and_narrow_values(rt: HostRuntime) -> Result<(), Fail> {
    let alloc = rt.alloc();
    let tailoring = packed(alloc)?;
    for subtype in [6, 7] {
        let fault = request_fault(alloc, &tailoring, subtype, &[1, 0, 0, 1]);
        assert_eq!(rt; fault, Some(BodyFault::TooMany(256)));
    }
    let fault = report_fault(alloc, &tailoring, 9, &[1, 0, 4, 1, 0]);
    assert_eq!(rt; fault, Some(BodyFault::TooMany(256)));
    let rows: [(&[u8], BodyFault); 2] = [
        (&[1, 0], BodyFault::TooMany(256)),
        (&[0, 1, 0, 1, 0, 0, 0, 1, 4], BodyFault::WrongValue(1)),
    ];
    for (rows, fault) in rows {
        let body = after_times(alloc, rows)?;
        assert_eq!(rt; report_fault(alloc, &tailoring, 2, &body), Some(fault));
    }
    Ok(())
}

/// From 0 to 8,200, the statistics of parameter 2.
const STATISTICS: [u8; 34] = [
    0, 0, 0, 0, 0, 0, 0, 0, 0, 0, 0x20, 8, 1, 0, 2, 0, 0, 0, 2, 0xfd, 0, 0, 0, 0, 0, 0, 0xfc, 0, 0,
    0, 0, 0x10, 0, 0xfc,
];

/// Two samples: -3 in slot 0, and -4 in slot 1.
const ROW: StatRow = StatRow {
    param: 2,
    count: 2,
    max: -3,
    max_time: 0,
    min: -4,
    min_time: 4096,
    mean: -4,
};

fn is_row_from_0_to_8200(report: &StatReport) -> bool {
    report.start == 0 && report.end == 8200 && report.rows.as_slice() == [ROW].as_slice()
}

#[test]
fn reports_are_read(rt: HostRuntime) -> Result<(), Fail> {
    let alloc = rt.alloc();
    let tailoring = builtin(alloc)?;
    let report = decode_report(alloc, &tailoring, 2, &STATISTICS);
    assert!(rt;
        matches!(&report, Ok(Report04::Statistics(report)) if is_row_from_0_to_8200(report))
    );
    let report = decode_report(alloc, &tailoring, 9, &[0, 0x10, 0, 0]);
    assert!(rt;
        matches!(&report, Ok(Report04::Definitions(false, 4096, ids)) if ids.as_slice().is_empty())
    );
    Ok(())
}

/// Two samples in the packed tailoring, with a mean of half below 0.
const PACKED_STATISTICS: [u8; 36] = [
    0, 0, 0, 0, 0, 0, 0, 0, 0, 0, 0, 0, 0, 1, 0, 1, 0, 0, 0, 2, 3, 0, 0, 0, 0, 0, 0, 0xfc, 0, 0, 0,
    0, 0, 0, 0xff, 0x80,
];

fn has_half_below_0(report: &StatReport) -> bool {
    let row = StatRow {
        param: 1,
        count: 2,
        max: 3,
        max_time: 0,
        min: -4,
        min_time: 0,
        mean: -128,
    };
    report.rows.as_slice() == [row].as_slice()
}

#[test]
fn means_have_the_octets_of_the_fraction(rt: HostRuntime) -> Result<(), Fail> {
    let tailoring = packed(rt.alloc())?;
    let report = decode_report(rt.alloc(), &tailoring, 2, &PACKED_STATISTICS);
    assert!(rt; matches!(&report, Ok(Report04::Statistics(report)) if has_half_below_0(report)));
    Ok(())
}

/// The statistics of parameter 2, written.
fn written_report(alloc: Global) -> Result<(u8, Vec<u8>), Memory> {
    let tailoring = builtin(alloc)?;
    let rows = Items::from_slice(alloc, &[ROW])?;
    let report = StatReport {
        start: 0,
        end: 8200,
        rows,
    };
    let mut out = Vec::new(alloc);
    let subtype = encode_report(&tailoring, &Report04::Statistics(report), &mut out)?;
    Ok((subtype, out))
}

/// A request that enables reports at the greatest interval, written.
fn written_request(alloc: Global) -> Result<(u8, Vec<u8>), Memory> {
    let tailoring = builtin(alloc)?;
    let mut out = Vec::new(alloc);
    let subtype = encode_request(&tailoring, &Request04::Enable(4096), &mut out)?;
    Ok((subtype, out))
}

#[test]
fn requests_and_reports_are_written(rt: HostRuntime) -> Result<(), Fail> {
    let (subtype, body) = written_report(rt.alloc())?;
    assert_eq!(rt; subtype, 2);
    assert_eq!(rt; body.as_slice(), STATISTICS.as_slice());
    let (subtype, body) = written_request(rt.alloc())?;
    assert_eq!(rt; subtype, 4);
    assert_eq!(rt; body.as_slice(), [0x10, 0].as_slice());
    Ok(())
}

#[test]
fn requests_are_read(rt: HostRuntime) -> Result<(), Fail> {
    let tailoring = builtin(rt.alloc())?;
    let add = decode_request(rt.alloc(), &tailoring, 6, &[2, 0, 1, 0, 2]);
    assert!(rt; matches!(&add, Ok(Request04::Add(ids)) if ids.as_slice() == [1, 2].as_slice()));
    let all = decode_request(rt.alloc(), &tailoring, 7, &[0]);
    assert!(rt; matches!(&all, Ok(Request04::Delete(ids)) if ids.as_slice().is_empty()));
    let report = decode_request(rt.alloc(), &tailoring, 1, &[1]);
    assert!(rt; matches!(&report, Ok(Request04::Report(true))));
    let show = decode_request(rt.alloc(), &tailoring, 8, &[]);
    assert!(rt; matches!(&show, Ok(Request04::ShowDefinitions)));
    Ok(())
}
