ghost use Rattle.std.specs.Prelude.{◌≤◌};
ghost use Rattle.hk_base.specs.Fit.{IsFitForm, IsFitShape};

use crate::sensor::SeedSensor;
use hk_base::{Form, Items, Memory, Param, Sensor, Value};
use std::alloc::Global;
use std::test::Fail;

/// What is read of parameters of each form at slots 0, 1, 2 and 99999, as in another implementation.
#[test]
fn readings(rt: HostRuntime) -> Result<(), Fail> {
    assert_eq!(rt; read(1, 16, Form::Unsigned), [60329, 36753, 614, 5494]);
    assert_eq!(rt; read(2, 8, Form::Signed), [-26, 41, 55, -12]);
    assert_eq!(rt; read(3, 3, Form::Unsigned), [7, 1, 7, 4]);
    assert_eq!(rt; read(4, 1, Form::Boolean), [1, 0, 0, 0]);
    assert_eq!(rt; listed(rt.alloc())?, [0, 0, 2, 1]);
    assert_eq!(rt;
        read(6, 32, Form::Unsigned),
        [1370425950, 3682281251, 751650196, 948342444]
    );
    assert_eq!(rt;
        read(7, 64, Form::Signed),
        [-1395833452, -228350996, 1140947317, -511560733]
    );
    assert_eq!(rt;
        read(8, 64, Form::Unsigned),
        [3288430965, 3605107503, 3449741651, 707449510]
    );
    assert_eq!(rt; read(65535, 1, Form::Signed), [-1, -1, -1, -1]);
    Ok(())
}

/// The same of an enumerated parameter.
fn listed(alloc: Global) -> Result<[Value; 4], Memory> {
    let values: [Value; 4] = [0, 1, 2, 7];
    let values = Items::from_slice(alloc, values.as_slice())?;
    Ok(read(5, 8, Form::Enumerated(values)))
}

fn read(id: u32, bits: u8, form: Form) -> [Value; 4]
    requires { (1 ≤ bits) × (bits ≤ 64) × IsFitForm form bits }
{
    let param = Param {
        id,
        form,
        octets: (bits + 7) / 8,
        bits,
        initial: None,
    };
    [
        read_at(&param, 0),
        read_at(&param, 1),
        read_at(&param, 2),
        read_at(&param, 99_999),
    ]
}

fn read_at(param: &Param, slot: u64) -> Value
    requires { IsFitShape param.now }
{
    let mut sensor = SeedSensor;
    sensor.read(param, slot).unwrap_or(0)
}
