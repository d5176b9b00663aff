//! The payload of values.
ghost use Rattle.std.specs.Prelude.{◌≡◌, ◌++◌, ℕ, List, [], ◌∷◌, Ok, true, filter_map, flat_map, IfOk, OnOk, OnErr, take, length};
ghost use Rattle.hk_base.specs.Definitions.{IsWellFormed};
ghost use Rattle.hk_base.specs.Fit.{IsFitShape};
ghost use Rattle.hk_base.specs.Parameters as parameters;
ghost use Rattle.hk_base.specs.Payload.{Group, repetitions, bits_of, groups, places, values_bits, payload_bits, payload_read, AllFit, IsPayload};
ghost use Rattle.sample_slots.specs.Reading.{array_groups};
ghost use Rattle.sample_slots.specs.Writing.{IsPending, written, Keeps, AreFitting, GroupsFit, Writes};

use crate::packing::{Pending, pad, put_bits, unsigned};
use crate::payload::known_param;
use hk_base::{Definition, Memory, Param, SuperList, Tailoring, Value};

/// Appends the payload of the values, of which there is one for each place. Where memory is wanting, nothing is appended.
pub fn write_payload(
    tailoring: &Tailoring,
    def: &Definition,
    values: &[Value],
    out: &mut Vec<u8>,
) -> Result<(), Memory>
    requires formed { IsWellFormed tailoring.now def.now }
    requires fit { AllFit tailoring.now (places def.now def.now.interval) values.now }
    ensures ok { OnOk result ((octets : List ℕ) × (out.new.items ≡ out.old.items ++ octets) × IsPayload tailoring.now def.now values.now octets) }
    ensures again { OnOk result ((octets : List ℕ) × (out.new.items ≡ out.old.items ++ octets) × (payload_read tailoring.now def.now octets ≡ Ok values.now)) }
    ensures err { OnErr result (out.new.items ≡ out.old.items) }
{
    out.reserve(tailoring.payload_size(def) as usize)?;
    let kept = out.len();
    if let Err(memory) = write_groups(tailoring, def, values, out) {
        out.truncate(kept);
        return Err(memory);
    }
    Ok(())
}

/// Appends the groups of a definition.
fn write_groups(
    tailoring: &Tailoring,
    def: &Definition,
    values: &[Value],
    out: &mut Vec<u8>,
) -> Result<(), Memory>
    requires fit { AllFit tailoring.now (places def.now def.now.interval) values.now }
    ensures bits { OnOk result (bits_of out.new.items ≡ bits_of out.old.items ++ payload_bits tailoring.now (groups def.now) values.now) }
    ensures kept { Keeps out.old.items out.new.items }
{
    let rest = write_group(tailoring, def.simple.as_slice(), values, out)?;
    write_arrays(tailoring, def.arrays.as_slice(), rest, out)
}

/// Appends the groups of arrays.
fn write_arrays(
    tailoring: &Tailoring,
    arrays: &[SuperList],
    values: &[Value],
    out: &mut Vec<u8>,
) -> Result<(), Memory>
    requires fit { (interval : ℕ) × GroupsFit tailoring.now (flat_map (array_groups interval) arrays.now) values.now }
    ensures bits { OnOk result ((interval : ℕ) → bits_of out.new.items
        ≡ bits_of out.old.items ++ payload_bits tailoring.now (flat_map (array_groups interval) arrays.now) values.now) }
    ensures kept { Keeps out.old.items out.new.items }
{
    let mut rest = values;
    for array in arrays {
        rest = write_array(tailoring, array, rest, out)?;
    }
    Ok(())
}

/// Appends the repetitions of an array, and gives the values after theirs.
fn write_array<'a>(
    tailoring: &Tailoring,
    array: &SuperList,
    values: &'a [Value],
    out: &mut Vec<u8>,
) -> Result<&'a [Value], Memory>
    requires fit { (spacing : ℕ) × (more : List Group)
        × GroupsFit tailoring.now (repetitions array.now.params spacing array.now.repetition ++ more) values.now }
    ensures bits { IfOk result (λ rest. (spacing : ℕ)
        → Writes tailoring.now (repetitions array.now.params spacing array.now.repetition) [] out.old.items values.now out.new.items rest.now) }
    ensures kept { Keeps out.old.items out.new.items }
{
    let mut rest = values;
    for _repetition in 0..array.repetition {
        rest = write_group(tailoring, array.params.as_slice(), rest, out)?;
    }
    Ok(rest)
}

/// Appends the first values as the group of these parameters, and gives those behind them.
fn write_group<'a>(
    tailoring: &Tailoring,
    ids: &[u32],
    values: &'a [Value],
    out: &mut Vec<u8>,
) -> Result<&'a [Value], Memory>
    requires fit { AreFitting tailoring.now ids.now (take (length ids.now) values.now) }
    ensures bits { IfOk result (λ rest. (lag : ℕ)
        → Writes tailoring.now (record { lag = lag; params = ids.now } ∷ []) [] out.old.items values.now out.new.items rest.now) }
    ensures kept { Keeps out.old.items out.new.items }
{
    let (own, rest) = values.split_at(ids.len());
    let pending = write_values(tailoring, ids, own, out)?;
    pad(pending, out)?;
    Ok(rest)
}

/// Appends the values, each in the bits of its parameter.
fn write_values(
    tailoring: &Tailoring,
    ids: &[u32],
    values: &[Value],
    out: &mut Vec<u8>,
) -> Result<Pending, Memory>
    requires fit { AreFitting tailoring.now ids.now values.now }
    ensures bits { IfOk result (λ pending. written out.new.items pending
        ≡ bits_of out.old.items ++ values_bits (filter_map (parameters.parameter tailoring.now) ids.now) values.now) }
    ensures pending { IfOk result (λ pending. IsPending pending) }
    ensures kept { Keeps out.old.items out.new.items }
{
    let mut pending = Pending::NONE;
    let mut rest = values;
    for id in ids {
        let Some((value, after)) = rest.split_first() else {
            unreachable!();
        };
        pending = write_value(known_param(tailoring, *id), *value, pending, out)?;
        rest = after;
    }
    Ok(pending)
}

/// Appends the value in the bits of its parameter.
fn write_value(
    param: &Param,
    value: Value,
    pending: Pending,
    out: &mut Vec<u8>,
) -> Result<Pending, Memory>
    requires shape { IsFitShape param.now }
    requires fits { parameters.fits param.now value ≡ true }
    requires pending { IsPending pending }
    ensures bits { IfOk result (λ next. written out.new.items next ≡ written out.old.items pending ++ parameters.value_bits param.now value) }
    ensures pending { IfOk result (λ next. IsPending next) }
    ensures kept { Keeps out.old.items out.new.items }
{
    let number = unsigned(value, param.bits);
    put_bits(pending, number, param.bits, out)
}
