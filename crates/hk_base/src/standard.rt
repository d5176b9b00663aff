//! The tailoring that is built in.
ghost use Rattle.std.specs.Prelude.{◌≡◌, ◌≤◌, IfOk};
ghost use Rattle.hk_base.specs.Builtin as standard;

use crate::list::Items;
use crate::tailoring::Tailoring;
use crate::types::{
    BUILTIN_WIDTHS, Boot, Definition, Form, Key, Kind, Memory, Param, Structure, SuperList, Value,
};
use std::alloc::Global;

/// The values of the one enumerated parameter.
const LISTED: [Value; 4] = [0, 1, 2, 7];

/// The tailoring that is built in.
pub fn builtin(alloc: Global) -> Result<Tailoring, Memory>
    ensures { IfOk result (λ tailoring. tailoring ≡ standard.builtin) }
{
    let params = params(alloc)?;
    let boots = boots(alloc)?;
    Tailoring::new(alloc, BUILTIN_WIDTHS, params, boots)
}

/// Its parameters.
fn params(alloc: Global) -> Result<Items<Param>, Memory>
    ensures { IfOk result (λ params. params ≡ standard.builtin_params) }
{
    let listed = Form::Enumerated(Items::from_slice(alloc, &LISTED)?);
    let settable = Param {
        id: 7,
        form: Form::Unsigned,
        octets: 2,
        bits: 16,
        initial: Some(100),
    };
    let params = Vec::from_array(
        alloc,
        [
            sensed(1, Form::Unsigned, 2),
            sensed(2, Form::Signed, 1),
            sensed(3, Form::Unsigned, 1),
            sensed(4, Form::Boolean, 1),
            sensed(5, listed, 1),
            sensed(6, Form::Unsigned, 4),
            settable,
            sensed(10, Form::Unsigned, 1),
            sensed(11, Form::Unsigned, 1),
            sensed(12, Form::Unsigned, 1),
            sensed(13, Form::Unsigned, 1),
            sensed(14, Form::Unsigned, 1),
            sensed(15, Form::Unsigned, 1),
            sensed(16, Form::Unsigned, 1),
        ],
    )?;
    Ok(Items::from_vec(params))
}

/// A parameter with no initial value, whose values fill its octets.
fn sensed(id: u32, form: Form, octets: u8) -> Param
    requires { octets ≤ 8 }
    ensures { result ≡ standard.sensed id form octets }
{
    Param {
        id,
        form,
        octets,
        bits: 8 * octets,
        initial: None,
    }
}

/// Its structures.
fn boots(alloc: Global) -> Result<Items<Boot>, Memory>
    ensures { IfOk result (λ boots. boots ≡ standard.builtin_boots) }
{
    let array = SuperList {
        repetition: 4,
        params: Items::from_slice(alloc, &[3])?,
    };
    let arrays = Items::from_vec(Vec::from_array(alloc, [array])?);
    let none = Items::from_vec(Vec::new(alloc));
    let first = boot(alloc, Kind::Housekeeping, 1, 4, true, &[1], none)?;
    let second = boot(alloc, Kind::Housekeeping, 2, 8, true, &[1], arrays)?;
    let none = Items::from_vec(Vec::new(alloc));
    let third = boot(alloc, Kind::Housekeeping, 3, 2, false, &[6], none)?;
    let none = Items::from_vec(Vec::new(alloc));
    let fourth = boot(alloc, Kind::Diagnostic, 1, 1, false, &[4, 5], none)?;
    let boots = Vec::from_array(alloc, [first, second, third, fourth])?;
    Ok(Items::from_vec(boots))
}

/// A structure that is there from the start.
fn boot(
    alloc: Global,
    kind: Kind,
    id: u32,
    interval: u32,
    enabled: bool,
    simple: &[u32],
    arrays: Items<SuperList>,
) -> Result<Boot, Memory>
    ensures { IfOk result (λ boot. boot ≡ standard.boot kind id interval enabled simple.now arrays) }
{
    let def = Definition {
        interval,
        simple: Items::from_slice(alloc, simple)?,
        arrays,
    };
    let structure = Structure { def, enabled };
    Ok(Boot {
        key: Key { kind, id },
        structure,
    })
}
