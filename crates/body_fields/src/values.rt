ghost use Rattle.std.specs.Prelude.{◌≡◌, ◌≤◌, ◌++◌, length, pos, Ok, IfOk, OnOk, OnErr};
ghost use Rattle.hk_base.specs.Fields.{IsFieldWidth, number_of, signed_number_of, signed_octets_of};
ghost use Rattle.hk_base.specs.Fit.{IsFitShape};
ghost use Rattle.body_fields.specs.Outcomes.{Gives};
ghost use Rattle.body_fields.specs.Reading.{then_read, octets_field, form_number, value_field};
ghost use Rattle.body_fields.specs.Spelling.{IsInOctets};

use crate::fault::BodyFault;
use crate::reading::read_octets;
use hk_base::{Form, Memory, Param, Value, fits, get_int, get_uint, put_int, put_uint};

/// A number in so many octets, in two's complement where the form is signed.
pub fn read_form_number<'a>(
    form: &Form,
    width: u8,
    octets: &'a [u8],
) -> Result<(Value, &'a [u8]), BodyFault>
    requires { (1 ≤ width) × (width ≤ 15) }
    ensures gives { Gives (λ x. (x.0, x.1.now)) result (then_read (octets_field width octets.now) (λ field rest. Ok (form_number form.now field, rest))) }
    ensures left { IfOk result (λ x. length x.1.now ≤ length octets.now) }
{
    let (field, rest) = read_octets(octets, usize::from(width))?;
    Ok((number_in(form, width, field), rest))
}

/// The number that all the octets make.
fn number_in(form: &Form, width: u8, field: &[u8]) -> Value
    requires width { (1 ≤ width) × (width ≤ 15) }
    requires whole { length field.now ≡ width }
    ensures { result ≡ form_number form.now field.now }
{
    match form {
        Form::Signed => signed_in(width, field),
        Form::Unsigned | Form::Enumerated(_) | Form::Boolean => unsigned_in(width, field),
    }
}

fn signed_in(width: u8, field: &[u8]) -> Value
    requires width { (1 ≤ width) × (width ≤ 15) }
    requires whole { length field.now ≡ width }
    ensures { result ≡ signed_number_of field.now }
{
    match get_int(field, width) {
        Ok(number) => number,
        Err(_) => unreachable!(),
    }
}

fn unsigned_in(width: u8, field: &[u8]) -> Value
    requires width { (1 ≤ width) × (width ≤ 15) }
    requires whole { length field.now ≡ width }
    ensures { result ≡ pos (number_of field.now) }
{
    match get_uint(field, width) {
        Ok(number) => number as Value,
        Err(_) => unreachable!(),
    }
}

/// A value that fits its parameter.
pub fn read_value<'a>(param: &Param, octets: &'a [u8]) -> Result<(Value, &'a [u8]), BodyFault>
    requires { IsFitShape param.now }
    ensures gives { Gives (λ x. (x.0, x.1.now)) result (value_field param.now octets.now) }
    ensures left { IfOk result (λ x. length x.1.now ≤ length octets.now) }
{
    let (value, rest) = read_form_number(&param.form, param.octets, octets)?;
    if !fits(param, value) {
        return Err(BodyFault::WrongValue(param.id));
    }
    Ok((value, rest))
}

/// Appends a number in so many octets, in two's complement where the form is signed.
pub fn write_form_number(
    form: &Form,
    width: u8,
    value: Value,
    out: &mut Vec<u8>,
) -> Result<(), Memory>
    requires width { IsFieldWidth width }
    requires fits { IsInOctets form.now width value }
    ensures ok { OnOk result (out.new.items ≡ out.old.items ++ signed_octets_of width value) }
    ensures err { OnErr result (out.new.items ≡ out.old.items) }
{
    match form {
        Form::Signed => put_int(out, width, value),
        Form::Unsigned | Form::Enumerated(_) | Form::Boolean => {
            put_uint(out, width, value as u128)
        }
    }
}
