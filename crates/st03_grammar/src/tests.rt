use super::*;
use body_fields::BodyFault;
use hk_base::{BUILTIN_WIDTHS, Form, Items, Key, Kind, Memory, Param, Tailoring, Widths, builtin};
use std::alloc::Global;
use std::process::Abort;
use std::test::*;

const WIDE_COUNTS: Widths = Widths {
    count_octets: 2,
    ..BUILTIN_WIDTHS
};

/// A tailoring with counts of two octets.
fn wide(alloc: Global) -> Result<Tailoring, Memory> {
    let param = Param {
        id: 1,
        form: Form::Boolean,
        octets: 1,
        bits: 8,
        initial: None,
    };
    let params = Items::from_vec(Vec::from_array(alloc, [param])?);
    let boots = Items::from_vec(Vec::new(alloc));
    Tailoring::new(alloc, WIDE_COUNTS, params, boots)
}

/// The fault of a request, or none where it is decoded and encoded again to the same octets.
fn request_fault(
    rt: &impl Abort,
    alloc: Global,
    tailoring: &Tailoring,
    subtype: u8,
    body: &[u8],
) -> Option<BodyFault> {
    assert!(rt; knows_request(subtype));
    assert!(rt; body.len() < 1000);
    match decode_request(alloc, tailoring, subtype, body) {
        Err(fault) => Some(fault),
        Ok(request) => {
            let mut out = Vec::new(alloc);
            assert!(rt; encode_request(tailoring, &request, &mut out).ok() == Some(subtype));
            assert!(rt; out.as_slice() == body);
            None
        }
    }
}

/// The fault of a report, or none where it is decoded and encoded again to the same octets.
fn report_fault(
    rt: &impl Abort,
    alloc: Global,
    tailoring: &Tailoring,
    subtype: u8,
    body: &[u8],
) -> Option<BodyFault> {
    assert!(rt; knows_report(subtype));
    assert!(rt; body.len() < 1000);
    match decode_report(alloc, tailoring, subtype, body) {
        Err(fault) => Some(fault),
        Ok(report) => {
            let mut out = Vec::new(alloc);
            assert!(rt; encode_report(tailoring, &report, &mut out).ok() == Some(subtype));
            assert!(rt; out.as_slice() == body);
            None
        }
    }
}

/// Each body has its fault as a request of this subtype.
fn requests_have_faults(
    rt: &impl Abort,
    alloc: Global,
    tailoring: &Tailoring,
    subtype: u8,
    rows: &[(&[u8], BodyFault)],
) {
    for (body, expected) in rows {
        assert_eq!(rt;
            request_fault(rt, alloc, tailoring, subtype, body),
            Some(*expected)
        );
    }
}

/// Each body has its fault as a report of this subtype.
fn reports_have_faults(
    rt: &impl Abort,
    alloc: Global,
    tailoring: &Tailoring,
    subtype: u8,
    rows: &[(&[u8], BodyFault)],
) {
    for (body, expected) in rows {
        assert_eq!(rt;
            report_fault(rt, alloc, tailoring, subtype, body),
            Some(*expected)
        );
    }
}

#[test]
fn bodies_are_read_and_written(rt: HostRuntime) -> Result<(), Fail> {
    let tailoring = builtin(rt.alloc()).ok().ok_or("memory")?;
    let requests: [(u8, &[u8]); 5] = [
        (1, b"\x09\x00\x04\x01\x00\x01\x01\x02\x01\x00\x03"),
        (1, b"\x09\x00\x04\x02\x00\x01\x00\x01\x00"),
        (30, b"\x01\x00\x01\x03\x01\x00\x03"),
        (7, b"\x02\x01\x02"),
        (31, b"\x02\x01\x00\x02\x02\x00\x06"),
    ];
    for (subtype, body) in &requests {
        assert_eq!(rt;
            request_fault(&rt, rt.alloc(), &tailoring, *subtype, body),
            None
        );
    }
    let reports: [(u8, &[u8]); 3] = [
        (10, b"\x02\x01\x00\x04\x01\x00\x01\x01\x04\x01\x00\x03"),
        (26, b"\x01\x00\x2a"),
        (35, b"\x02\x01\x01\x00\x04\x02\x00\x00\x08"),
    ];
    for (subtype, body) in &reports {
        assert_eq!(rt;
            report_fault(&rt, rt.alloc(), &tailoring, *subtype, body),
            None
        );
    }
    Ok(())
}

/// The subtypes of requests that are a list of structures.
const EACH: [u8; 12] = [3, 5, 6, 9, 27, 33, 4, 7, 8, 11, 28, 34];

#[test]
fn lists_of_structures_have_the_first_fault(rt: HostRuntime) -> Result<(), Fail> {
    let tailoring = builtin(rt.alloc()).ok().ok_or("memory")?;
    let rows: [(&[u8], BodyFault); 5] = [
        (b"\x02\x01\x01", BodyFault::RepeatedKey(1)),
        (b"\x01\x01\x00", BodyFault::Trailing(1)),
        (b"\x00", BodyFault::ZeroCount),
        (b"\x01", BodyFault::Short),
        (b"\x02\x01\x01\x00", BodyFault::RepeatedKey(1)),
    ];
    for subtype in EACH {
        requests_have_faults(&rt, rt.alloc(), &tailoring, subtype, &rows);
    }
    Ok(())
}

#[test]
fn creations_have_the_first_fault(rt: HostRuntime) -> Result<(), Fail> {
    let tailoring = builtin(rt.alloc()).ok().ok_or("memory")?;
    let rows: [(&[u8], BodyFault); 11] = [
        (b"", BodyFault::Short),
        (b"\x09\x00\x04\x01\x00", BodyFault::Short),
        (b"\x09\x00\x00\x00\x00", BodyFault::ZeroInterval),
        (b"\x09\x10\x01\x00\x00", BodyFault::LongInterval(4097)),
        (b"\x09\x00\x04\x01\x00\x63\x00", BodyFault::UnknownParam(99)),
        (b"\x09\x00\x04\x00\x00", BodyFault::ZeroCount),
        (
            b"\x09\x00\x08\x00\x01\x03\x01\x00\x03",
            BodyFault::BadRepetition(3, 8),
        ),
        (
            b"\x09\x00\x08\x00\x01\x03\x00",
            BodyFault::BadRepetition(3, 8),
        ),
        (
            b"\x09\x00\x08\x00\x01\x00\x01\x00\x03",
            BodyFault::ZeroCount,
        ),
        (b"\x09\x00\x08\x00\x01\x02\x00", BodyFault::ZeroCount),
        (b"\x09\x00\x04\x01\x00\x01\x00\x07", BodyFault::Trailing(1)),
    ];
    for subtype in [1, 2] {
        requests_have_faults(&rt, rt.alloc(), &tailoring, subtype, &rows);
    }
    Ok(())
}

#[test]
fn additions_have_the_first_fault(rt: HostRuntime) -> Result<(), Fail> {
    let tailoring = builtin(rt.alloc()).ok().ok_or("memory")?;
    let rows: [(&[u8], BodyFault); 6] = [
        (b"\x01\x01\x00", BodyFault::Short),
        (b"\x01\x00\x00", BodyFault::ZeroCount),
        (b"\x01\x00\x01\x00", BodyFault::ZeroCount),
        (b"\x01\x00\x01\x02\x00", BodyFault::ZeroCount),
        (b"\x01\x01\x00\x63\x00", BodyFault::UnknownParam(99)),
        (b"\x01\x01\x00\x01\x00\x07", BodyFault::Trailing(1)),
    ];
    for subtype in [29, 30] {
        requests_have_faults(&rt, rt.alloc(), &tailoring, subtype, &rows);
    }
    Ok(())
}

#[test]
fn intervals_have_the_first_fault(rt: HostRuntime) -> Result<(), Fail> {
    let tailoring = builtin(rt.alloc()).ok().ok_or("memory")?;
    let rows: [(&[u8], BodyFault); 6] = [
        (b"\x01\x01\x00", BodyFault::Short),
        (b"\x00", BodyFault::ZeroCount),
        (b"\x01\x01\x00\x00", BodyFault::ZeroInterval),
        (b"\x01\x01\x10\x01", BodyFault::LongInterval(4097)),
        (b"\x02\x01\x00\x02\x01\x00\x00", BodyFault::RepeatedKey(1)),
        (b"\x01\x01\x00\x02\x07", BodyFault::Trailing(1)),
    ];
    for subtype in [31, 32] {
        requests_have_faults(&rt, rt.alloc(), &tailoring, subtype, &rows);
    }
    Ok(())
}

#[test]
fn structure_reports_have_the_first_fault(rt: HostRuntime) -> Result<(), Fail> {
    let tailoring = builtin(rt.alloc()).ok().ok_or("memory")?;
    let rows: [(&[u8], BodyFault); 13] = [
        (b"\x02", BodyFault::Short),
        (b"\x02\x02\x00\x00", BodyFault::Status(2)),
        (b"\x02\x01\x00\x00", BodyFault::ZeroInterval),
        (b"\x02\x01\x10\x01", BodyFault::LongInterval(4097)),
        (b"\x02\x01\x00\x04\x01\x00\x63", BodyFault::UnknownParam(99)),
        (b"\x02\x01\x00\x04\x00\x00", BodyFault::ZeroCount),
        (b"\x02\x01\x00\x04\x00\x01\x00", BodyFault::ZeroCount),
        (b"\x02\x01\x00\x04\x00\x01\x02\x00", BodyFault::ZeroCount),
        (
            b"\x02\x01\x00\x04\x00\x01\x03",
            BodyFault::BadRepetition(3, 4),
        ),
        (
            b"\x02\x01\x00\x04\x02\x00\x01\x00\x01\x00",
            BodyFault::RepeatedKey(1),
        ),
        (
            b"\x02\x01\x00\x04\x01\x00\x01\x01\x04\x01\x00\x01",
            BodyFault::RepeatedKey(1),
        ),
        (
            b"\x02\x01\x00\x04\x00\x02\x04\x01\x00\x01\x02\x01\x00\x01",
            BodyFault::RepeatedKey(1),
        ),
        (
            b"\x02\x01\x00\x04\x01\x00\x01\x00\x07\x07",
            BodyFault::Trailing(2),
        ),
    ];
    for subtype in [10, 12] {
        reports_have_faults(&rt, rt.alloc(), &tailoring, subtype, &rows);
    }
    Ok(())
}

#[test]
fn other_reports_have_the_first_fault(rt: HostRuntime) -> Result<(), Fail> {
    let tailoring = builtin(rt.alloc()).ok().ok_or("memory")?;
    let values: [(&[u8], BodyFault); 1] = [(b"", BodyFault::Short)];
    for subtype in [25, 26] {
        reports_have_faults(&rt, rt.alloc(), &tailoring, subtype, &values);
    }
    let periodic: [(&[u8], BodyFault); 7] = [
        (b"\x01\x01\x01", BodyFault::Short),
        (b"\x00", BodyFault::ZeroCount),
        (b"\x01\x01\x02\x00\x00", BodyFault::Status(2)),
        (b"\x01\x01\x01\x00\x00", BodyFault::ZeroInterval),
        (b"\x01\x01\x01\x10\x01", BodyFault::LongInterval(4097)),
        (
            b"\x02\x01\x01\x00\x04\x01\x01\x00\x04",
            BodyFault::RepeatedKey(1),
        ),
        (b"\x01\x01\x01\x00\x04\x00", BodyFault::Trailing(1)),
    ];
    for subtype in [35, 36] {
        reports_have_faults(&rt, rt.alloc(), &tailoring, subtype, &periodic);
    }
    Ok(())
}

#[test]
fn a_list_of_a_request_has_at_most_255_members(rt: HostRuntime) -> Result<(), Fail> {
    let tailoring = wide(rt.alloc())?;
    let lists: [(&[u8], BodyFault); 1] = [(b"\x01\x00\x00", BodyFault::TooMany(256))];
    for subtype in EACH {
        requests_have_faults(&rt, rt.alloc(), &tailoring, subtype, &lists);
    }
    for subtype in [31, 32] {
        requests_have_faults(&rt, rt.alloc(), &tailoring, subtype, &lists);
    }
    let creations: [(&[u8], BodyFault); 3] = [
        (b"\x09\x00\x04\x01\x00", BodyFault::TooMany(256)),
        (b"\x09\x00\x04\x00\x00\x01\x00", BodyFault::TooMany(256)),
        (
            b"\x09\x00\x04\x00\x00\x00\x01\x02\x01\x00",
            BodyFault::TooMany(256),
        ),
    ];
    for subtype in [1, 2] {
        requests_have_faults(&rt, rt.alloc(), &tailoring, subtype, &creations);
    }
    let additions: [(&[u8], BodyFault); 1] = [(b"\x01\x01\x00", BodyFault::TooMany(256))];
    for subtype in [29, 30] {
        requests_have_faults(&rt, rt.alloc(), &tailoring, subtype, &additions);
    }
    Ok(())
}

#[test]
fn a_list_of_a_report_has_at_most_255_members(rt: HostRuntime) -> Result<(), Fail> {
    let tailoring = wide(rt.alloc())?;
    let structures: [(&[u8], BodyFault); 1] = [(
        b"\x02\x01\x00\x04\x01\x00",
        BodyFault::TooMany(256),
    )];
    for subtype in [10, 12] {
        reports_have_faults(&rt, rt.alloc(), &tailoring, subtype, &structures);
    }
    let periodic: [(&[u8], BodyFault); 1] = [(b"\x01\x00\x00", BodyFault::TooMany(256))];
    for subtype in [35, 36] {
        reports_have_faults(&rt, rt.alloc(), &tailoring, subtype, &periodic);
    }
    Ok(())
}

#[test]
fn instructions(rt: HostRuntime) -> Result<(), Fail> {
    let tailoring = builtin(rt.alloc()).ok().ok_or("memory")?;
    let body = b"\x02\x01\x00\x02\x03\x00\x06";
    assert!(rt; knows_request(31));
    let request = decode_request(rt.alloc(), &tailoring, 31, body)
        .ok()
        .ok_or("the body is a request")?;
    let key = Key {
        kind: Kind::Housekeeping,
        id: 3,
    };
    assert!(rt;
        matches!(
            request.at(1),
            Some((
                Key {
                    kind: Kind::Housekeeping,
                    id: 1
                },
                Change::Interval(2)
            ))
        )
    );
    assert!(rt; request.at(3).is_none());
    assert!(rt;
        matches!(
            request.at(2),
            Some((
                Key {
                    kind: Kind::Housekeeping,
                    id: 3
                },
                Change::Interval(6)
            ))
        )
    );
    assert_eq!(rt; request.count(), 2);
    assert!(rt; matches!(request.on_key(key), Some((2, Change::Interval(6)))));
    Ok(())
}
