//! The parameters and the structures of a session.
ghost use Rattle.std.specs.Prelude.{◌≡◌, ◌≤◌, ◌<◌, ◌+◌, ◌^◌, map, IfOk};
ghost use Rattle.hk_base.specs.Builtin as standard;
ghost use Rattle.generated_sessions.specs.Generated.{numbers_from, made_arrays, made_boot, made_tailoring};
ghost use Rattle.generated_sessions.specs.Parts.{made_param, definition_with};

use hk_base::{
    BUILTIN_WIDTHS, Boot, Definition, Form, Items, Key, Kind, Memory, Param, Structure, SuperList,
    Tailoring,
};
use std::alloc::Global;

/// The tailoring of the session.
pub fn tailoring(alloc: Global) -> Result<Tailoring, Memory>
    ensures { IfOk result (λ tailoring. tailoring ≡ made_tailoring) }
{
    let params = params(alloc, 40)?;
    let boots = boots(alloc, 6)?;
    Tailoring::new(alloc, BUILTIN_WIDTHS, params, boots)
}

/// So many parameters, numbered from 1.
fn params(alloc: Global, count: u32) -> Result<Items<Param>, Memory>
    requires { count ≤ 65535 }
    ensures { IfOk result (λ params. params ≡ map made_param (numbers_from 1 count)) }
{
    let mut params = Vec::new(alloc);
    for number in 0..count {
        params.push(param(1 + number))?;
    }
    Ok(Items::from_vec(params))
}

/// An unsigned parameter of two octets that is sensed.
fn param(id: u32) -> Param
    ensures { result ≡ made_param id }
{
    Param {
        id,
        form: Form::Unsigned,
        octets: 2,
        bits: 16,
        initial: None,
    }
}

/// So many structures, numbered from 1.
fn boots(alloc: Global, count: u32) -> Result<Items<Boot>, Memory>
    requires { count ≤ 6 }
    ensures { IfOk result (λ boots. boots ≡ map made_boot (numbers_from 1 count)) }
{
    let mut boots = Vec::new(alloc);
    for number in 0..count {
        boots.push(boot(alloc, 1 + number)?)?;
    }
    Ok(Items::from_vec(boots))
}

/// A structure, enabled, with an interval of four slots.
fn boot(alloc: Global, structure: u32) -> Result<Boot, Memory>
    requires { (1 ≤ structure) × (structure ≤ 6) }
    ensures { IfOk result (λ boot. boot ≡ made_boot structure) }
{
    let key = Key {
        kind: Kind::Housekeeping,
        id: structure,
    };
    let def = definition(alloc, structure, 4)?;
    let structure = Structure { def, enabled: true };
    Ok(Boot { key, structure })
}

/// The definition of a structure with this interval, in slots.
pub(crate) fn definition(alloc: Global, structure: u32, interval: u32) -> Result<Definition, Memory>
    requires { (1 ≤ structure) × (structure ≤ 6) }
    ensures { IfOk result (λ def. def ≡ definition_with structure interval) }
{
    Ok(Definition {
        interval,
        simple: numbers(alloc, 6 * (structure - 1) + 1, 6)?,
        arrays: arrays(alloc, structure)?,
    })
}

/// So many numbers, from the first one on.
fn numbers(alloc: Global, first: u32, count: u32) -> Result<Items<u32>, Memory>
    requires { first + count < 2 ^ 32 }
    ensures { IfOk result (λ numbers. numbers ≡ numbers_from first count) }
{
    let mut numbers = Vec::new(alloc);
    for number in 0..count {
        numbers.push(first + number)?;
    }
    Ok(Items::from_vec(numbers))
}

/// The arrays of a structure: the first four have one.
fn arrays(alloc: Global, structure: u32) -> Result<Items<SuperList>, Memory>
    requires { structure ≤ 6 }
    ensures { IfOk result (λ arrays. arrays ≡ made_arrays structure) }
{
    if structure > 4 {
        return Ok(Items::from_vec(Vec::new(alloc)));
    }
    let array = SuperList {
        repetition: 2,
        params: Items::from_slice(alloc, &[36 + structure])?,
    };
    Ok(Items::from_vec(Vec::from_array(alloc, [array])?))
}
