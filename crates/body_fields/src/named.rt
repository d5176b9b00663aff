ghost use Rattle.std.specs.Prelude.{◌≡◌, ◌≤◌, ◌++◌, length, IsSome, IfOk, OnOk, OnErr};
ghost use Rattle.body_fields.specs.Outcomes.{Gives};
ghost use Rattle.hk_base.specs.Parameters.{parameter};
ghost use Rattle.body_fields.specs.Reading.{value_of_field};
ghost use Rattle.body_fields.specs.Spelling.{IsValueOf, param_octets, value_octets};

use crate::fault::BodyFault;
use crate::list::WriteMember;
use crate::params::ParamIds;
use crate::values::{read_value, write_form_number};
use hk_base::{Memory, Tailoring, Value, put_uint};

/// A value that fits the parameter with this ID.
pub fn read_value_of<'a>(
    tailoring: &Tailoring,
    id: u32,
    octets: &'a [u8],
) -> Result<(Value, &'a [u8]), BodyFault>
    ensures gives { Gives (λ x. (x.0, x.1.now)) result (value_of_field tailoring.now id octets.now) }
    ensures left { IfOk result (λ x. length x.1.now ≤ length octets.now) }
{
    match tailoring.param(id) {
        Some(param) => read_value(param, octets),
        None => Err(BodyFault::UnknownParam(id)),
    }
}

/// Appends a value of the parameter with this ID, in the parameter's octets.
pub fn write_value_of(
    tailoring: &Tailoring,
    id: u32,
    value: Value,
    out: &mut Vec<u8>,
) -> Result<(), Memory>
    requires known { IsSome (parameter tailoring.now id) }
    requires fits { IsValueOf tailoring.now id value }
    ensures ok { OnOk result (out.new.items ≡ out.old.items ++ value_octets tailoring.now id value) }
    ensures err { OnErr result (out.new.items ≡ out.old.items) }
{
    match tailoring.param(id) {
        Some(param) => write_form_number(&param.form, param.octets, value, out),
        None => unreachable!(),
    }
}

/// Appends the ID of a known parameter.
pub fn write_known_id(tailoring: &Tailoring, id: u32, out: &mut Vec<u8>) -> Result<(), Memory>
    requires { IsSome (parameter tailoring.now id) }
    ensures ok { OnOk result (out.new.items ≡ out.old.items ++ param_octets tailoring.now id) }
    ensures err { OnErr result (out.new.items ≡ out.old.items) }
{
    put_uint(out, tailoring.widths().parameter_octets, u128::from(id))
}

impl WriteMember for ParamIds<'_> {
    type Member = u32;

    ghost fits = { λ ids id. IsSome (parameter ids.tailoring.now id) };

    ghost spelling = { λ ids id. param_octets ids.tailoring.now id };

    fn write_member(&self, member: &u32, out: &mut Vec<u8>) -> Result<(), Memory> {
        write_known_id(self.tailoring, *member, out)
    }
}
