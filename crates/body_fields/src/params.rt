ghost use Rattle.std.specs.Prelude.{◌≡◌, ◌≤◌, ◌==◌, List, ℕ, length, reverse, IfOk};
ghost use Rattle.std.specs.List.{list_any};
ghost use Rattle.body_fields.specs.Outcomes.{Gives, Finds};
ghost use Rattle.body_fields.specs.Reading.{param_fault, param_field};

use crate::fault::BodyFault;
use crate::list::ReadMember;
use crate::reading::read_number;
use hk_base::Tailoring;

/// Whether an ID is among those that were read before.
pub fn is_listed(earlier: &[u32], id: u32) -> bool
    ensures { result ≡ list_any (λ e. e == id) (reverse earlier.now) }
{
    earlier.contains(&id)
}

/// Tests a parameter ID, of which it is told whether it stood before.
pub fn check_param(tailoring: &Tailoring, is_repeated: bool, id: u32) -> Result<(), BodyFault>
    ensures { (earlier : List ℕ) → list_any (λ e. e == id) earlier ≡ is_repeated → Finds result (param_fault tailoring.now earlier id) }
{
    if is_repeated {
        return Err(BodyFault::RepeatedKey(id));
    }
    match tailoring.param(id) {
        Some(_) => Ok(()),
        None => Err(BodyFault::UnknownParam(id)),
    }
}

/// The ID of a known parameter that isn't among those before it.
pub fn read_param_id<'a>(
    tailoring: &Tailoring,
    earlier: &[u32],
    octets: &'a [u8],
) -> Result<(u32, &'a [u8]), BodyFault>
    ensures gives { Gives (λ x. (x.0, x.1.now)) result (param_field tailoring.now (reverse earlier.now) octets.now) }
    ensures left { IfOk result (λ x. length x.1.now ≤ length octets.now) }
{
    let (id, rest) = read_number(octets, tailoring.widths().parameter_octets)?;
    check_param(tailoring, is_listed(earlier, id), id)?;
    Ok((id, rest))
}

/// The IDs of known parameters, each once.
#[derive(Drop)]
pub struct ParamIds<'t> {
    pub tailoring: &'t Tailoring,
}

impl ReadMember for ParamIds<'_> {
    type Member = u32;

    ghost reader = { λ ids earlier octets. param_field ids.tailoring.now earlier octets };

    fn read_member<'a>(
        &self,
        earlier: &[u32],
        octets: &'a [u8],
    ) -> Result<(u32, &'a [u8]), BodyFault> {
        read_param_id(self.tailoring, earlier, octets)
    }
}
