use crate::{
    Report20, Request20, Setting, decode_report, decode_request, encode_report, encode_request,
    knows_report, knows_request,
};
use body_fields::BodyFault;
use hk_base::{BUILTIN_WIDTHS, Form, Items, Memory, Param, Tailoring, Widths, builtin};
use std::alloc::Global;
use std::test::Fail;

const WIDE_COUNTS: Widths = Widths {
    count_octets: 2,
    ..BUILTIN_WIDTHS
};

/// A tailoring with counts of two octets, and a Boolean that can be set.
fn wide(alloc: Global) -> Result<Tailoring, Memory> {
    let param = Param {
        id: 1,
        form: Form::Boolean,
        octets: 1,
        bits: 8,
        initial: Some(0),
    };
    let params = Items::from_vec(Vec::from_array(alloc, [param])?);
    let boots = Items::from_vec(Vec::new(alloc));
    Tailoring::new(alloc, WIDE_COUNTS, params, boots)
}

fn request_fault(
    alloc: Global,
    tailoring: &Tailoring,
    subtype: u8,
    body: &[u8],
) -> Option<BodyFault> {
    if !knows_request(subtype) || body.len() > 32 {
        return None;
    }
    decode_request(alloc, tailoring, subtype, body).err()
}

fn report_fault(
    alloc: Global,
    tailoring: &Tailoring,
    subtype: u8,
    body: &[u8],
) -> Option<BodyFault> {
    if !knows_report(subtype) || body.len() > 32 {
        return None;
    }
    decode_report(alloc, tailoring, subtype, body).err()
}

#[test]
fn requests_have_the_first_fault(rt: HostRuntime) -> Result<(), Fail> {
    let tailoring = builtin(rt.alloc())?;
    let rows: [(u8, &[u8], BodyFault); 12] = [
        (1, &[], BodyFault::Short),
        (1, &[1, 0], BodyFault::Short),
        (1, &[1, 0, 1, 9], BodyFault::Trailing(1)),
        (1, &[0], BodyFault::ZeroCount),
        (1, &[2, 0, 1, 0, 1], BodyFault::RepeatedKey(1)),
        (1, &[2, 0, 1, 0, 8], BodyFault::UnknownParam(8)),
        (3, &[1, 0, 7, 1], BodyFault::Short),
        (3, &[1, 0, 7, 1, 0xf4, 0, 0], BodyFault::Trailing(2)),
        (3, &[0], BodyFault::ZeroCount),
        (3, &[2, 0, 7, 0, 1, 0, 7, 0, 2], BodyFault::RepeatedKey(7)),
        (3, &[1, 0, 8, 0], BodyFault::UnknownParam(8)),
        (3, &[1, 0, 1, 0, 5], BodyFault::NotSettable(1)),
    ];
    for (subtype, body, fault) in rows {
        assert_eq!(rt;
            request_fault(rt.alloc(), &tailoring, subtype, body),
            Some(fault)
        );
    }
    Ok(())
}

#[test]
fn reports_have_the_first_fault(rt: HostRuntime) -> Result<(), Fail> {
    let tailoring = builtin(rt.alloc())?;
    let rows: [(&[u8], BodyFault); 6] = [
        (&[1, 0, 7, 1], BodyFault::Short),
        (&[1, 0, 5, 1, 0], BodyFault::Trailing(1)),
        (&[0], BodyFault::ZeroCount),
        (&[2, 0, 5, 1, 0, 5, 1], BodyFault::RepeatedKey(5)),
        (&[1, 0, 8, 0], BodyFault::UnknownParam(8)),
        (&[1, 0, 5, 3], BodyFault::WrongValue(5)),
    ];
    for (body, fault) in rows {
        assert_eq!(rt; report_fault(rt.alloc(), &tailoring, 2, body), Some(fault));
    }
    Ok(())
}

#[test]
fn wide_counts_and_narrow_values(rt: HostRuntime) -> Result<(), Fail> {
    let tailoring = wide(rt.alloc())?;
    let rows: [(u8, &[u8], BodyFault); 3] = [
        (1, &[1, 0, 0, 1], BodyFault::TooMany(256)),
        (3, &[1, 0, 0, 1], BodyFault::TooMany(256)),
        (3, &[0, 1, 0, 1, 2], BodyFault::WrongValue(1)),
    ];
    for (subtype, body, fault) in rows {
        assert_eq!(rt;
            request_fault(rt.alloc(), &tailoring, subtype, body),
            Some(fault)
        );
    }
    let many = report_fault(rt.alloc(), &tailoring, 2, &[1, 0, 0, 1, 1]);
    assert_eq!(rt; many, Some(BodyFault::TooMany(256)));
    Ok(())
}

#[test]
fn requests_and_reports_are_read(rt: HostRuntime) -> Result<(), Fail> {
    let tailoring = builtin(rt.alloc())?;
    let request = decode_request(rt.alloc(), &tailoring, 1, &[2, 0, 1, 0, 5]);
    assert!(rt;
        matches!(&request, Ok(Request20::Report(ids)) if ids.as_slice() == [1, 5].as_slice())
    );
    let request = decode_request(rt.alloc(), &tailoring, 3, &[1, 0, 7, 1, 0xf4]);
    assert!(rt;
        matches!(&request, Ok(Request20::Set(set)) if set.as_slice() == [SET_TO_500].as_slice())
    );
    let report = decode_report(rt.alloc(), &tailoring, 2, &[1, 0, 7, 1, 0xf4]);
    assert!(rt;
        matches!(&report, Ok(report) if report.pairs.as_slice() == [SET_TO_500].as_slice())
    );
    Ok(())
}

const SET_TO_500: Setting = Setting {
    param: 7,
    value: 500,
};

/// A request that sets parameter 7 to 500, written.
fn written_request(alloc: Global) -> Result<(u8, Vec<u8>), Memory> {
    let tailoring = builtin(alloc)?;
    let settings = Items::from_slice(alloc, &[SET_TO_500])?;
    let mut out = Vec::new(alloc);
    let subtype = encode_request(&tailoring, &Request20::Set(settings), &mut out)?;
    Ok((subtype, out))
}

/// A report that parameter 7 is 500, written.
fn written_report(alloc: Global) -> Result<(u8, Vec<u8>), Memory> {
    let tailoring = builtin(alloc)?;
    let pairs = Items::from_slice(alloc, &[SET_TO_500])?;
    let mut out = Vec::new(alloc);
    let subtype = encode_report(&tailoring, &Report20 { pairs }, &mut out)?;
    Ok((subtype, out))
}

#[test]
fn requests_and_reports_are_written(rt: HostRuntime) -> Result<(), Fail> {
    let (subtype, body) = written_request(rt.alloc())?;
    assert_eq!(rt; subtype, 3);
    assert_eq!(rt; body.as_slice(), [1, 0, 7, 1, 0xf4].as_slice());
    let (subtype, body) = written_report(rt.alloc())?;
    assert_eq!(rt; subtype, 2);
    assert_eq!(rt; body.as_slice(), [1, 0, 7, 1, 0xf4].as_slice());
    Ok(())
}
