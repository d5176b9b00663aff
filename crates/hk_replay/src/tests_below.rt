//! Calls of the crates below that want memory, each once.
use hk_base::{
    Boot, Definition, Failed, Form, Items, Key, Kind, Memory, Param, Sensor, Structure, SuperList,
    TableSensor, Tailoring, builtin, put_int, put_uint,
};
use hk_world::{Act, Journal, Moment};
use report_structures::{ApplyFault, Refusal, apply, changes_of_requests};
use st03_grammar::decode_request;
use std::alloc::{AllocError, Global};
use std::fmt::Write;
use std::process::Abort;
use std::test::Fail;

#[test]
fn numbers_are_spelt(rt: HostRuntime) -> Result<(), Fail> {
    let mut octets = Vec::new(rt.alloc());
    put_uint(&mut octets, 2, 6)?;
    put_uint(&mut octets, 4, 0x0003_0008)?;
    put_int(&mut octets, 1, -4)?;
    let expected: &[u8] = &[0, 6, 0, 3, 0, 8, 0xfc];
    assert_eq!(rt; octets.as_slice(), expected);
    Ok(())
}

fn is_same_form(a: &Form, b: &Form) -> bool {
    match (a, b) {
        (Form::Unsigned, Form::Unsigned) => true,
        (Form::Signed, Form::Signed) => true,
        (Form::Enumerated(some), Form::Enumerated(others)) => some.as_slice() == others.as_slice(),
        (Form::Boolean, Form::Boolean) => true,
        _ => false,
    }
}

fn is_same_param(a: &Param, b: &Param) -> bool {
    a.id == b.id
        && is_same_form(&a.form, &b.form)
        && a.octets == b.octets
        && a.bits == b.bits
        && a.initial == b.initial
}

fn is_same_array(a: &SuperList, b: &SuperList) -> bool {
    a.repetition == b.repetition && a.params.as_slice() == b.params.as_slice()
}

fn is_same_definition(a: &Definition, b: &Definition) -> bool {
    let arrays = a.arrays.as_slice();
    let others = b.arrays.as_slice();
    a.interval == b.interval
        && a.simple.as_slice() == b.simple.as_slice()
        && arrays.len() == others.len()
        && arrays
            .iter()
            .zip(others)
            .all(|(one, other)| is_same_array(one, other))
}

fn is_same_structure(a: &Structure, b: &Structure) -> bool {
    a.enabled == b.enabled && is_same_definition(&a.def, &b.def)
}

fn is_same_boot(a: &Boot, b: &Boot) -> bool {
    a.key == b.key && is_same_structure(&a.structure, &b.structure)
}

fn are_same_boots(a: &[Boot], b: &[Boot]) -> bool {
    a.len() == b.len() && a.iter().zip(b).all(|(one, other)| is_same_boot(one, other))
}

fn is_same_param_at(a: &Tailoring, b: &Tailoring, number: u32) -> bool {
    match (a.param_at(number), b.param_at(number)) {
        (Some(one), Some(other)) => is_same_param(one, other),
        (one, other) => one.is_none() && other.is_none(),
    }
}

fn check_copies(rt: &impl Abort, alloc: Global, structure: &Structure) -> Result<(), Memory> {
    let copy = structure.copy(alloc)?;
    assert!(rt; is_same_structure(&copy, structure));
    let copy = structure.def.copy(alloc)?;
    assert!(rt; is_same_definition(&copy, &structure.def));
    Ok(())
}

fn check_copy(rt: &impl Abort, alloc: Global, tailoring: &Tailoring) -> Result<(), Memory> {
    let copy = tailoring.copy(alloc)?;
    assert_eq!(rt; copy.widths(), tailoring.widths());
    assert!(rt; are_same_boots(copy.boots(), tailoring.boots()));
    for number in 0..=14 {
        assert!(rt;
            is_same_param_at(&copy, tailoring, number),
            "parameter {number}"
        );
    }
    Ok(())
}

#[test]
fn copies_are_equal(rt: HostRuntime) -> Result<(), Fail> {
    let tailoring = builtin(rt.alloc())?;
    check_copy(&rt, rt.alloc(), &tailoring)?;
    for boot in tailoring.boots() {
        check_copies(&rt, rt.alloc(), &boot.structure)?;
    }
    Ok(())
}

#[test]
fn a_table_is_read(rt: HostRuntime) -> Result<(), Fail> {
    let alloc = rt.alloc();
    let tailoring = builtin(alloc)?;
    let param = tailoring.param(6).ok_or("no parameter")?;
    let rows = Items::from_slice(alloc, &[(6, 2, 9)])?;
    let mut sensor = TableSensor::new(rows, Items::from_slice(alloc, &[1])?);
    assert_eq!(rt; sensor.read(param, 2), Err(Failed));
    assert_eq!(rt; sensor.read(param, 2), Ok(9));
    assert_eq!(rt; sensor.read(param, 3), Err(Failed));
    Ok(())
}

fn moment(alloc: Global, tag: u64) -> Result<Moment, Memory> {
    Ok(Moment {
        tag,
        act: Act::Emitted,
        packet: Items::from_slice(alloc, &[])?,
    })
}

#[test]
fn moments_are_kept_in_order(rt: HostRuntime) -> Result<(), Fail> {
    let alloc = rt.alloc();
    let mut journal = Journal::new(alloc);
    let first = Vec::from_array(alloc, [moment(alloc, 1)?, moment(alloc, 2)?])?;
    journal.add(Items::from_vec(first))?;
    let second = Vec::from_array(alloc, [moment(alloc, 3)?])?;
    journal.add(Items::from_vec(second))?;
    assert_eq!(rt; journal.len(), 3);
    for number in 0..3 {
        let moment = journal.at(number).ok_or("no moment")?;
        assert_eq!(rt; moment.tag, u64::from(number) + 1);
    }
    Ok(())
}

/// A tailoring file of 256 parameters, with a structure of all but the last.
fn full_structure_file(alloc: Global) -> Result<String, AllocError> {
    let mut text = String::from_str(alloc, "version = 1\napid = 100\nground = 1\nslot = 4096\n")?;
    for id in 0..256u32 {
        write!(
            text,
            "[[parameter]]\nid = {id}\nkind = \"unsigned\"\noctets = 1\n"
        )?;
    }
    write!(
        text,
        "[[structure]]\nkind = \"housekeeping\"\nid = 1\ninterval = 1\nsimple = [0"
    )?;
    for id in 1..255u32 {
        write!(text, ", {id}")?;
    }
    write!(text, "]\n")?;
    Ok(text)
}

/// What appending the last parameter makes of the structure.
fn appended(alloc: Global, tailoring: &Tailoring) -> Result<Option<Structure>, ApplyFault> {
    let key = Key {
        kind: Kind::Housekeeping,
        id: 1,
    };
    let Ok(request) = decode_request(alloc, tailoring, 29, &[1, 1, 0, 255, 0]) else {
        return Err(ApplyFault::Memory);
    };
    changes_of_requests();
    match request.at(1) {
        Some((_, change)) => apply(alloc, tailoring, change, tailoring.boot(key)),
        None => Err(ApplyFault::Memory),
    }
}

#[test]
fn a_structure_has_at_most_255_simple_parameters(rt: HostRuntime) -> Result<(), Fail> {
    let alloc = rt.alloc();
    let text = full_structure_file(alloc)?;
    let Ok(tailoring) = hk_tailoring::read(alloc, text.as_bytes()) else {
        return Err("no tailoring".into());
    };
    let refused = matches!(
        appended(alloc, &tailoring),
        Err(ApplyFault::Refused(Refusal::TooMany(256)))
    );
    assert!(rt; refused);
    Ok(())
}
