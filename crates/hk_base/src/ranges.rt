//! Which values a parameter has.
ghost use Rattle.std.specs.Prelude.{◌≡◌, ◌≤◌};
ghost use Rattle.hk_base.specs.declared.types.Form.TheVariants.{Signed};
ghost use Rattle.hk_base.specs.Fit.{IsFitShape};
ghost use Rattle.hk_base.specs.Parameters as parameters;

use crate::types::{Form, Param, Value};

/// Whether the value is in the range of the parameter's form and bits.
pub fn fits(param: &Param, value: Value) -> bool
    requires { IsFitShape param.now }
    ensures { result ≡ parameters.fits param.now value }
{
    match &param.form {
        Form::Unsigned => value >= 0 && value < (1i128 << param.bits),
        Form::Signed => is_signed(param.bits, value),
        Form::Enumerated(values) => values.as_slice().contains(&value),
        Form::Boolean => value == 0 || value == 1,
    }
}

/// Whether so many bits hold the value in two's complement.
fn is_signed(bits: u8, value: Value) -> bool
    requires { (1 ≤ bits) × (bits ≤ 64) }
    ensures { result ≡ parameters.in_range Signed bits value }
{
    let half = 1i128 << (bits - 1);
    -half <= value && value < half
}
