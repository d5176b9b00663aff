use super::*;
use body_fields::BodyFault;
use hk_base::{BUILTIN_WIDTHS, Form, Items, Memory, Param, Tailoring, Widths, builtin};
use std::alloc::Global;
use std::process::Abort;
use std::test::*;

const WIDE_COUNTS: Widths = Widths {
    count_octets: 2,
    ..BUILTIN_WIDTHS
};

/// A tailoring with counts of two octets.
fn wide(alloc: Global) -> Result<Tailoring, Memory> {
    let param = Param {
        id: 1,
        form: Form::Boolean,
        octets: 1,
        bits: 8,
        initial: None,
    };
    let params = Items::from_vec(Vec::from_array(alloc, [param])?);
    let boots = Items::from_vec(Vec::new(alloc));
    Tailoring::new(alloc, WIDE_COUNTS, params, boots)
}

/// The fault of a body, or none where it is decoded and encoded again to the same octets.
fn fault(
    rt: &impl Abort,
    alloc: Global,
    tailoring: &Tailoring,
    number: u8,
    body: &[u8],
) -> Option<BodyFault> {
    assert!(rt; knows(number));
    assert!(rt; body.len() < 1000);
    match decode(alloc, tailoring, number, body) {
        Err(fault) => Some(fault),
        Ok(report) => {
            let mut out = Vec::new(alloc);
            assert!(rt; encode(tailoring, &report, &mut out).is_ok());
            assert!(rt; out.as_slice() == body);
            assert!(rt; subtype(&report) == number);
            None
        }
    }
}

/// Each body has its fault under this subtype.
fn have_faults(
    rt: &impl Abort,
    alloc: Global,
    tailoring: &Tailoring,
    number: u8,
    rows: &[(&[u8], BodyFault)],
) {
    for (body, expected) in rows {
        assert_eq!(rt; fault(rt, alloc, tailoring, number, body), Some(*expected));
    }
}

#[test]
fn bodies_are_read_and_written(rt: HostRuntime) -> Result<(), Fail> {
    let tailoring = builtin(rt.alloc()).ok().ok_or("memory")?;
    let rows: [(u8, &[u8]); 9] = [
        (1, b"\x18\x64\xc0\x00"),
        (2, b"\x18\x64\xc0\x00\x00\x6a\x00\x00\x00\x02"),
        (3, b"\x18\x64\xc0\x01"),
        (4, b"\x18\x64\xc0\x01\x00\x67\x00\x00\x00\x00"),
        (5, b"\x18\x64\xc0\x00\x01"),
        (6, b"\x18\x64\xc0\x00\x02\x00\x69\x00\x00\x00\x00"),
        (7, b"\x18\x64\xc0\x00"),
        (8, b"\x18\x64\xc0\x00\x00\xc8\x02\x01\x03"),
        (10, b"\x18\x64\xc0\x00\x00\x01\x00\x00\x00\x00"),
    ];
    for (number, body) in &rows {
        assert_eq!(rt; fault(&rt, rt.alloc(), &tailoring, *number, body), None);
    }
    Ok(())
}

#[test]
fn requests_and_causes_have_the_first_fault(rt: HostRuntime) -> Result<(), Fail> {
    let tailoring = builtin(rt.alloc()).ok().ok_or("memory")?;
    let plain: [(&[u8], BodyFault); 2] = [
        (b"\x18\x64\xc0", BodyFault::Short),
        (b"\x18\x64\xc0\x00\x00\x00", BodyFault::Trailing(2)),
    ];
    for number in [1, 3, 7] {
        have_faults(&rt, rt.alloc(), &tailoring, number, &plain);
    }
    let with_cause: [(&[u8], BodyFault); 3] = [
        (b"\x18\x64\xc0\x00\x00", BodyFault::Short),
        (b"\x18\x64\xc0\x00\x00\x67\x00\x00\x00", BodyFault::Short),
        (
            b"\x18\x64\xc0\x00\x00\x67\x00\x00\x00\x00\x07",
            BodyFault::Trailing(1),
        ),
    ];
    for number in [2, 4, 10] {
        have_faults(&rt, rt.alloc(), &tailoring, number, &with_cause);
    }
    Ok(())
}

#[test]
fn steps_have_the_first_fault(rt: HostRuntime) -> Result<(), Fail> {
    let tailoring = builtin(rt.alloc()).ok().ok_or("memory")?;
    let rows: [(u8, &[u8], BodyFault); 6] = [
        (5, b"\x18\x64\xc0\x00", BodyFault::Short),
        (5, b"\x18\x64\xc0\x00\x00\x07", BodyFault::ZeroCount),
        (5, b"\x18\x64\xc0\x00\x01\x07", BodyFault::Trailing(1)),
        (6, b"\x18\x64\xc0\x00\x01\x00", BodyFault::Short),
        (6, b"\x18\x64\xc0\x00\x00", BodyFault::ZeroCount),
        (
            6,
            b"\x18\x64\xc0\x00\x02\x00\x69\x00\x00\x00\x00\x07\x07",
            BodyFault::Trailing(2),
        ),
    ];
    for (number, body, expected) in &rows {
        assert_eq!(rt;
            fault(&rt, rt.alloc(), &tailoring, *number, body),
            Some(*expected)
        );
    }
    Ok(())
}

#[test]
fn lists_of_steps_have_the_first_fault(rt: HostRuntime) -> Result<(), Fail> {
    let tailoring = builtin(rt.alloc()).ok().ok_or("memory")?;
    let rows: [(&[u8], BodyFault); 7] = [
        (b"\x18\x64\xc0\x00\x00\xc8\x01", BodyFault::Short),
        (b"\x18\x64\xc0\x00\x00\xc8\x00", BodyFault::ZeroCount),
        (
            b"\x18\x64\xc0\x00\x00\xc8\x01\x01\x02",
            BodyFault::Trailing(1),
        ),
        (
            b"\x18\x64\xc0\x00\x00\xc8\x02\x03\x03",
            BodyFault::RepeatedKey(3),
        ),
        (
            b"\x18\x64\xc0\x00\x00\xc8\x03\x01\x04\x02",
            BodyFault::RepeatedKey(2),
        ),
        (
            b"\x18\x64\xc0\x00\x00\xc8\x02\x01\x00",
            BodyFault::ZeroCount,
        ),
        (
            b"\x18\x64\xc0\x00\x00\xc8\x02\x02\x01\x00",
            BodyFault::RepeatedKey(1),
        ),
    ];
    have_faults(&rt, rt.alloc(), &tailoring, 8, &rows);
    Ok(())
}

#[test]
fn a_list_has_at_most_255_steps(rt: HostRuntime) -> Result<(), Fail> {
    let tailoring = wide(rt.alloc())?;
    let rows: [(&[u8], BodyFault); 2] = [
        (b"\x18\x64\xc0\x00\x00\xc8\x01", BodyFault::Short),
        (
            b"\x18\x64\xc0\x00\x00\xc8\x01\x00\x00",
            BodyFault::TooMany(256),
        ),
    ];
    have_faults(&rt, rt.alloc(), &tailoring, 8, &rows);
    Ok(())
}
