//! The values of a payload.
ghost use Rattle.std.specs.Prelude.{◌≡◌, ◌≤◌, ◌<◌, ◌*◌, ◌+◌, ◌^◌, ℕ, [], ◌∷◌, ◌++◌, Some, All, length, take, drop, flat_map, sum_by, is_some, IsTrue, IfOk, OnOk, IfErr};
ghost use Rattle.hk_base.specs.Definitions.{IsWellFormed};
ghost use Rattle.hk_base.specs.Fit.{IsFitShape};
ghost use Rattle.hk_base.specs.Parameters.{parameter, bits_value};
ghost use Rattle.hk_base.specs.Payload as payload;
ghost use Rattle.hk_base.specs.Payload.{repetitions, bits_of, ids_bits, ids_octets, payload_read};
ghost use Rattle.hk_base.specs.declared.types.PayloadFault.TheVariants.{Memory};
ghost use Rattle.sample_slots.specs.Slots.{IsSampled};
ghost use Rattle.sample_slots.specs.Reading.{Gives, GoesOn, AreKnown, IsReadableArray, array_groups, array_octets, simple_count, value_read, values_after, groups_after};

use crate::bits::{get_bits, is_dirty};
use hk_base::{
    Definition, Form, Items, Param, PayloadFault, SuperList, Tailoring, Value, fits, sign_extended,
};
use std::alloc::Global;

/// The number of octets of a payload.
pub fn size(tailoring: &Tailoring, def: &Definition) -> u32
    requires { IsWellFormed tailoring.now def.now }
    ensures size { result ≡ payload.payload_size tailoring.now def.now }
    ensures sampled { IsSampled def.now }
{
    tailoring.payload_size(def)
}

/// The values of a payload, one for each place. A wrong number of octets comes first, and then, group by group, a value
/// that doesn't fit its parameter before a 1 in the padding.
pub fn read_payload(
    alloc: Global,
    tailoring: &Tailoring,
    def: &Definition,
    bytes: &[u8],
) -> Result<Items<Value>, PayloadFault>
    requires formed { IsWellFormed tailoring.now def.now }
    requires limit { length bytes.now ≤ 2147483648 }
    ensures values { Gives (λ values. values) result (payload_read tailoring.now def.now bytes.now) }
    ensures count { IfOk result (λ values. (last : ℕ) → length values ≡ length (payload.places def.now last)) }
    ensures sampled { IsSampled def.now }
{
    let expected = size(tailoring, def);
    let found = bytes.len() as u32;
    if found != expected {
        return Err(PayloadFault::WrongSize(expected, found));
    }
    let mut values = Vec::new(alloc);
    let simple = def.simple.as_slice();
    let rest = read_simple(tailoring, simple, bytes, &mut values)?;
    let first = simple_groups(simple);
    read_arrays(tailoring, def.arrays.as_slice(), first, rest, &mut values)?;
    Ok(Items::from_vec(values))
}

/// The number of groups of simple parameters.
fn simple_groups(ids: &[u32]) -> u32
    ensures { result ≡ simple_count ids.now }
{
    match ids {
        [] => 0,
        _ => 1,
    }
}

/// Reads the simple parameters, which are one group where there are any, and gives the octets behind them.
fn read_simple<'a>(
    tailoring: &Tailoring,
    ids: &[u32],
    bytes: &'a [u8],
    values: &mut Vec<Value>,
) -> Result<&'a [u8], PayloadFault>
    requires known { AreKnown tailoring.now ids.now }
    requires few { length ids.now ≤ 255 }
    requires within { ids_octets tailoring.now.params ids.now ≤ length bytes.now }
    requires start { values.old.items ≡ [] }
    ensures values { GoesOn (λ rest. rest.now) tailoring.now [] values.new.items 0 (simple_count ids.now) (payload.simple_group ids.now) bytes.now result }
    ensures left { IfOk result (λ rest. length rest.now + ids_octets tailoring.now.params ids.now ≡ length bytes.now) }
    ensures count { OnOk result (length values.new.items ≡ length ids.now) }
{
    if ids.is_empty() {
        return Ok(bytes);
    }
    read_group(tailoring, ids, 0, bytes, values)
}

/// Reads arrays, the first of whose groups has this number.
fn read_arrays(
    tailoring: &Tailoring,
    arrays: &[SuperList],
    first: u32,
    bytes: &[u8],
    values: &mut Vec<Value>,
) -> Result<(), PayloadFault>
    requires readable { All (IsReadableArray tailoring.now) arrays.now }
    requires few { length arrays.now ≤ 255 }
    requires first { first ≤ 1 }
    requires count { length values.old.items ≤ 255 }
    requires whole { length bytes.now ≡ sum_by (array_octets tailoring.now) arrays.now }
    ensures { (interval : ℕ) → Gives (λ _. values.new.items) result
        (groups_after tailoring.now values.old.items first (flat_map (array_groups interval) arrays.now) (bits_of bytes.now)) }
{
    let mut rest = bytes;
    let mut group = first;
    for array in arrays {
        rest = read_array(tailoring, array, group, rest, values)?;
        group += array.repetition;
    }
    Ok(())
}

/// Reads the repetitions of an array, the first of which is the group with this number.
fn read_array<'a>(
    tailoring: &Tailoring,
    array: &SuperList,
    first: u32,
    bytes: &'a [u8],
    values: &mut Vec<Value>,
) -> Result<&'a [u8], PayloadFault>
    requires readable { IsReadableArray tailoring.now array.now }
    requires first { first ≤ 1044481 }
    requires count { length values.old.items ≤ 266342655 }
    requires within { array_octets tailoring.now array.now ≤ length bytes.now }
    ensures values { (spacing : ℕ)
        → GoesOn (λ rest. rest.now) tailoring.now values.old.items values.new.items first (first + array.now.repetition)
        (repetitions array.now.params spacing array.now.repetition) bytes.now result }
    ensures left { IfOk result (λ rest. length rest.now + array_octets tailoring.now array.now ≡ length bytes.now) }
    ensures count { OnOk result (length values.new.items ≡ length values.old.items + array.now.repetition * length array.now.params) }
{
    let mut rest = bytes;
    for repetition in 0..array.repetition {
        rest = read_group(
            tailoring,
            array.params.as_slice(),
            first + repetition,
            rest,
            values,
        )?;
    }
    Ok(rest)
}

/// Reads the group with this number, and gives the octets behind it.
fn read_group<'a>(
    tailoring: &Tailoring,
    ids: &[u32],
    group: u32,
    bytes: &'a [u8],
    values: &mut Vec<Value>,
) -> Result<&'a [u8], PayloadFault>
    requires known { AreKnown tailoring.now ids.now }
    requires few { length ids.now ≤ 255 }
    requires within { ids_octets tailoring.now.params ids.now ≤ length bytes.now }
    requires count { length values.old.items + length ids.now < 2 ^ 32 }
    ensures values { (lag : ℕ)
        → GoesOn (λ rest. rest.now) tailoring.now values.old.items values.new.items group (group + 1)
        (record { lag = lag; params = ids.now } ∷ []) bytes.now result }
    ensures left { IfOk result (λ rest. length rest.now + ids_octets tailoring.now.params ids.now ≡ length bytes.now) }
    ensures count { OnOk result (length values.new.items ≡ length values.old.items + length ids.now) }
{
    let position = read_values(tailoring, ids, bytes, values)?;
    if is_dirty(bytes, position) {
        return Err(PayloadFault::Padding(group));
    }
    let (_, rest) = bytes.split_at(position.div_ceil(8));
    Ok(rest)
}

/// Reads the values of a group, and gives the number of their bits.
fn read_values(
    tailoring: &Tailoring,
    ids: &[u32],
    bytes: &[u8],
    values: &mut Vec<Value>,
) -> Result<usize, PayloadFault>
    requires known { AreKnown tailoring.now ids.now }
    requires few { length ids.now ≤ 255 }
    requires within { ids_bits tailoring.now.params ids.now ≤ 8 * length bytes.now }
    requires count { length values.old.items + length ids.now < 2 ^ 32 }
    ensures values { Gives (λ _. values.new.items) result (values_after tailoring.now values.old.items ids.now (bits_of bytes.now)) }
    ensures position { IfOk result (λ position. position ≡ ids_bits tailoring.now.params ids.now) }
    ensures count { OnOk result (length values.new.items ≡ length values.old.items + length ids.now) }
{
    let mut position = 0;
    for id in ids {
        let param = known_param(tailoring, *id);
        let value = read_fitting(param, values.len() as u32, bytes, position)?;
        push(values, value)?;
        position += usize::from(param.bits);
    }
    Ok(position)
}

fn push(values: &mut Vec<Value>, value: Value) -> Result<(), PayloadFault>
    ensures ok { OnOk result (values.new.items ≡ values.old.items ++ value ∷ []) }
    ensures err { IfErr result (λ fault. fault ≡ Memory) }
{
    match values.push(value) {
        Ok(()) => Ok(()),
        Err(_) => Err(PayloadFault::Memory),
    }
}

/// The parameter with this ID, which the tailoring has.
pub(crate) fn known_param(tailoring: &Tailoring, id: u32) -> &Param
    requires { IsTrue (is_some (parameter tailoring.now id)) }
    ensures param { parameter tailoring.now id ≡ Some result.now }
    ensures shape { IsFitShape result.now }
{
    match tailoring.param(id) {
        Some(param) => param,
        None => unreachable!(),
    }
}

/// The value of a parameter from this bit on, where it fits. The value has this number.
fn read_fitting(
    param: &Param,
    number: u32,
    bytes: &[u8],
    position: usize,
) -> Result<Value, PayloadFault>
    requires shape { IsFitShape param.now }
    requires within { position + param.now.bits ≤ 8 * length bytes.now }
    ensures { result ≡ value_read param.now number (drop position (bits_of bytes.now)) }
{
    let value = read_value(param, bytes, position);
    if fits(param, value) {
        Ok(value)
    } else {
        Err(PayloadFault::WrongValue(number))
    }
}

/// What the bits of a parameter from this one on stand for.
fn read_value(param: &Param, bytes: &[u8], position: usize) -> Value
    requires shape { IsFitShape param.now }
    requires within { position + param.now.bits ≤ 8 * length bytes.now }
    ensures { result ≡ bits_value param.now (take param.now.bits (drop position (bits_of bytes.now))) }
{
    let number = get_bits(bytes, position, param.bits);
    match &param.form {
        Form::Signed => sign_extended(number, param.bits),
        Form::Unsigned | Form::Enumerated(_) | Form::Boolean => number as i128,
    }
}
