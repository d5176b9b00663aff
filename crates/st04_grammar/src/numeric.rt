//! IDs of parameters that have numbers.
ghost use Rattle.std.specs.Prelude.{◌≡◌, ◌≤◌, ◌==◌, List, ℕ, length, reverse, IfOk};
ghost use Rattle.std.specs.List.{list_any};
ghost use Rattle.body_fields.specs.Outcomes.{Gives, Finds};
ghost use Rattle.st04_grammar.specs.Bodies as bodies;
ghost use Rattle.st04_grammar.specs.Bodies.{form_fault, numeric_fault, numeric_field};

use body_fields::{BodyFault, ReadMember, check_param, is_listed, read_number};
use hk_base::{Form, Tailoring};

/// Tests the ID of a parameter with numbers, of which it is told whether it stood before.
pub fn check_numeric(tailoring: &Tailoring, is_repeated: bool, id: u32) -> Result<(), BodyFault>
    ensures { (earlier : List ℕ) → list_any (λ e. e == id) earlier ≡ is_repeated → Finds result (numeric_fault tailoring.now earlier id) }
{
    check_param(tailoring, is_repeated, id)?;
    check_form(tailoring, id)
}

/// Tests that a parameter has numbers, if there is one.
fn check_form(tailoring: &Tailoring, id: u32) -> Result<(), BodyFault>
    ensures { Finds result (form_fault tailoring.now id) }
{
    match tailoring.param(id) {
        Some(param) if !is_numeric(&param.form) => Err(BodyFault::NotNumeric(id)),
        Some(_) | None => Ok(()),
    }
}

fn is_numeric(form: &Form) -> bool
    ensures { result ≡ bodies.is_numeric form.now }
{
    match form {
        Form::Unsigned | Form::Signed => true,
        Form::Enumerated(_) | Form::Boolean => false,
    }
}

/// The IDs of parameters with numbers, each once.
#[derive(Drop)]
pub struct NumericIds<'t> {
    pub tailoring: &'t Tailoring,
}

impl ReadMember for NumericIds<'_> {
    type Member = u32;

    ghost reader = { λ ids earlier octets. numeric_field ids.tailoring.now earlier octets };

    fn read_member<'a>(
        &self,
        earlier: &[u32],
        octets: &'a [u8],
    ) -> Result<(u32, &'a [u8]), BodyFault> {
        let (id, rest) = read_number(octets, self.tailoring.widths().parameter_octets)?;
        check_numeric(self.tailoring, is_listed(earlier, id), id)?;
        Ok((id, rest))
    }
}
