ghost use Rattle.std.specs.Prelude.{◌≡◌, ◌≤◌, length, None};

use crate::{PayloadFault, Place, Window, place, place_count, read_payload, size, write_payload};
use hk_base::{
    BUILTIN_WIDTHS, Boot, Definition, Form, Items, Key, Kind, Memory, Param, Structure, SuperList,
    Tailoring, Value, Widths, builtin,
};
use std::alloc::Global;
use std::process::Abort;
use std::test::Fail;

const FIRST: Key = Key {
    kind: Kind::Housekeeping,
    id: 1,
};

const SECOND: Key = Key {
    kind: Kind::Housekeeping,
    id: 2,
};

const STATUS: Key = Key {
    kind: Kind::Diagnostic,
    id: 1,
};

#[test]
fn places_of_an_array(rt: HostRuntime) -> Result<(), Fail> {
    let tailoring = builtin(rt.alloc())?;
    let def = &tailoring.boot(SECOND).ok_or("no structure")?.def;
    assert_eq!(rt; size(&tailoring, def), 6);
    assert_eq!(rt; place_count(def), 5);
    assert_eq!(rt; def.interval, 8);
    let slots = [(1, 7), (3, 1), (3, 3), (3, 5), (3, 7)];
    for (number, (param, slot)) in (0..).zip(slots) {
        assert_eq!(rt; place(def, 7, number), Some(Place { param, slot }));
    }
    assert_eq!(rt; place(def, 7, 5), None);
    Ok(())
}

#[test]
fn payloads_are_read_and_written(rt: HostRuntime) -> Result<(), Fail> {
    let alloc = rt.alloc();
    let tailoring = builtin(alloc)?;
    let cases: [(Key, &[u8], Result<&[Value], PayloadFault>); 7] = [
        (FIRST, &[0, 42], Ok(&[42])),
        (SECOND, &[0, 1, 10, 11, 12, 13], Ok(&[1, 10, 11, 12, 13])),
        (SECOND, &[0, 1], Err(PayloadFault::WrongSize(6, 2))),
        (
            SECOND,
            &[0, 1, 10, 11, 12, 13, 14],
            Err(PayloadFault::WrongSize(6, 7)),
        ),
        (STATUS, &[1, 7], Ok(&[1, 7])),
        (STATUS, &[2, 3], Err(PayloadFault::WrongValue(0))),
        (STATUS, &[1, 3], Err(PayloadFault::WrongValue(1))),
    ];
    for (key, bytes, expected) in cases {
        check(&rt, alloc, &tailoring, key, bytes, expected)?;
    }
    Ok(())
}

const PACKED_WIDTHS: Widths = Widths {
    packed: true,
    ..BUILTIN_WIDTHS
};

/// A tailoring whose values have a few bits each.
fn packed(alloc: Global) -> Result<Tailoring, Memory> {
    let params = Vec::from_array(
        alloc,
        [
            small(1, Form::Unsigned, 3),
            small(2, Form::Signed, 5),
            small(3, Form::Boolean, 1),
            small(4, Form::Unsigned, 3),
        ],
    )?;
    let array = SuperList {
        repetition: 2,
        params: Items::from_slice(alloc, &[4])?,
    };
    let def = Definition {
        interval: 2,
        simple: Items::from_slice(alloc, &[1, 2, 3])?,
        arrays: Items::from_vec(Vec::from_array(alloc, [array])?),
    };
    let structure = Structure { def, enabled: true };
    let key = FIRST;
    let boots = Vec::from_array(alloc, [Boot { key, structure }])?;
    Tailoring::new(
        alloc,
        PACKED_WIDTHS,
        Items::from_vec(params),
        Items::from_vec(boots),
    )
}

/// A sensed parameter in so many bits of one octet.
fn small(id: u32, form: Form, bits: u8) -> Param
    ensures { result ≡ record { id = id; form = form; octets = 1; bits = bits; initial = None } }
{
    Param {
        id,
        form,
        octets: 1,
        bits,
        initial: None,
    }
}

#[test]
fn packed_payloads_are_read_and_written(rt: HostRuntime) -> Result<(), Fail> {
    let alloc = rt.alloc();
    let tailoring = packed(alloc)?;
    let cases: [(&[u8], Result<&[Value], PayloadFault>); 2] = [
        (&[0xbd, 0x80, 0x40, 0xe0], Ok(&[5, -3, 1, 2, 7])),
        (&[0xbd, 0x80, 0x40, 0xe1], Err(PayloadFault::Padding(2))),
    ];
    for (bytes, expected) in cases {
        check(&rt, alloc, &tailoring, FIRST, bytes, expected)?;
    }
    Ok(())
}

#[test]
fn windows_keep_the_latest(rt: HostRuntime) -> Result<(), Fail> {
    let mut window = Window::new(rt.alloc(), 2)?;
    window.push(1, 10);
    window.push(3, 30);
    window.push(4, 40);
    for (slot, value) in [
        (0, None),
        (1, None),
        (2, None),
        (3, Some(30)),
        (4, Some(40)),
        (5, None),
    ] {
        assert_eq!(rt; window.at(slot), value);
    }
    Ok(())
}

/// Octets are read as expected, and values that were read are written as these octets.
fn check(
    rt: &impl Abort,
    alloc: Global,
    tailoring: &Tailoring,
    key: Key,
    bytes: &[u8],
    expected: Result<&[Value], PayloadFault>,
) -> Result<(), Fail>
    requires { length bytes.now ≤ 16 }
{
    let def = &tailoring.boot(key).ok_or("no structure")?.def;
    match (read_payload(alloc, tailoring, def, bytes), expected) {
        (Ok(values), Ok(expected)) => {
            assert!(rt; values.as_slice() == expected);
            let mut octets = Vec::new(alloc);
            write_payload(tailoring, def, values.as_slice(), &mut octets)?;
            assert!(rt; octets.as_slice() == bytes);
        }
        (Err(fault), Err(expected)) => assert_eq!(rt; fault, expected),
        (found, _) => assert!(rt; false, "{found:?}"),
    }
    Ok(())
}
