//! Rows of a report: the statistics of one parameter each.
ghost use Rattle.std.specs.Prelude.{◌≡◌, ◌≤◌, ◌==◌, ◌++◌, List, ℕ, length, reverse, map, IsSome, IfOk, OnOk, OnErr};
ghost use Rattle.std.specs.List.{list_any};
ghost use Rattle.body_fields.specs.Outcomes.{Gives, Appends};
ghost use Rattle.hk_base.specs.Parameters.{parameter};
ghost use Rattle.body_fields.specs.Spelling.{mean_octets};
ghost use Rattle.st04_grammar.specs.Bodies.{row_field, samples_field, mean_field};
ghost use Rattle.st04_grammar.specs.Spelling.{ids_of, row_octets, IsMeanOf, IsKnownRow};

use crate::bodies::StatRow;
use crate::numeric::check_numeric;
use body_fields::{
    BodyFault, ReadMember, WriteMember, read_form_number, read_number, read_time, read_value_of,
    write_form_number, write_known_id, write_time, write_value_of,
};
use hk_base::{Memory, Tailoring, Value, put_uint};

/// Rows of different parameters.
#[derive(Drop)]
pub struct Rows<'t> {
    pub tailoring: &'t Tailoring,
}

impl ReadMember for Rows<'_> {
    type Member = StatRow;

    ghost reader = { λ rows earlier octets. row_field rows.tailoring.now earlier octets };

    fn read_member<'a>(
        &self,
        earlier: &[StatRow],
        octets: &'a [u8],
    ) -> Result<(StatRow, &'a [u8]), BodyFault> {
        let tailoring = self.tailoring;
        let (param, rest) = read_number(octets, tailoring.widths().parameter_octets)?;
        check_numeric(tailoring, is_listed(earlier, param), param)?;
        let (count, rest) = read_samples(rest)?;
        let (max, rest) = read_value_of(tailoring, param, rest)?;
        let (max_time, rest) = read_time(tailoring, rest)?;
        let (min, rest) = read_value_of(tailoring, param, rest)?;
        let (min_time, rest) = read_time(tailoring, rest)?;
        let (mean, rest) = read_mean(tailoring, param, rest)?;
        let row = StatRow {
            param,
            count,
            max,
            max_time,
            min,
            min_time,
            mean,
        };
        Ok((row, rest))
    }
}

/// A number of samples, 1 or more.
fn read_samples(octets: &[u8]) -> Result<(u32, &[u8]), BodyFault>
    ensures gives { Gives (λ x. (x.0, x.1.now)) result (samples_field octets.now) }
    ensures left { IfOk result (λ x. length x.1.now ≤ length octets.now) }
{
    let (count, rest) = read_number(octets, 4)?;
    if count == 0 {
        return Err(BodyFault::ZeroCount);
    }
    Ok((count, rest))
}

/// A mean of the parameter with this ID, in the parameter's octets and those of the fraction.
fn read_mean<'a>(
    tailoring: &Tailoring,
    id: u32,
    octets: &'a [u8],
) -> Result<(Value, &'a [u8]), BodyFault>
    ensures gives { Gives (λ x. (x.0, x.1.now)) result (mean_field tailoring.now id octets.now) }
    ensures left { IfOk result (λ x. length x.1.now ≤ length octets.now) }
{
    let fraction = tailoring.widths().mean_fraction;
    match tailoring.param(id) {
        Some(param) => read_form_number(&param.form, param.octets + fraction, octets),
        None => Err(BodyFault::UnknownParam(id)),
    }
}

/// Whether a parameter has one of the rows that were read before.
fn is_listed(earlier: &[StatRow], param: u32) -> bool
    ensures { result ≡ list_any (λ e. e == param) (ids_of (reverse earlier.now)) }
{
    has_param(earlier, param)
}

fn has_param(rows: &[StatRow], param: u32) -> bool
    ensures { result ≡ list_any (λ row. row.param == param) rows.now }
{
    rows.iter().any(|row| row.param == param)
}

impl WriteMember for Rows<'_> {
    type Member = StatRow;

    ghost fits = { λ rows row. IsKnownRow rows.tailoring.now row };

    ghost spelling = { λ rows row. row_octets rows.tailoring.now row };

    fn write_member(&self, member: &StatRow, out: &mut Vec<u8>) -> Result<(), Memory> {
        let tailoring = self.tailoring;
        write_known_id(tailoring, member.param, out)?;
        put_uint(out, 4, u128::from(member.count))?;
        write_value_of(tailoring, member.param, member.max, out)?;
        write_time(tailoring, member.max_time, out)?;
        write_value_of(tailoring, member.param, member.min, out)?;
        write_time(tailoring, member.min_time, out)?;
        write_mean(tailoring, member.param, member.mean, out)
    }
}

/// Appends a mean of the parameter with this ID.
fn write_mean(tailoring: &Tailoring, id: u32, mean: Value, out: &mut Vec<u8>) -> Result<(), Memory>
    requires known { IsSome (parameter tailoring.now id) }
    requires fits { IsMeanOf tailoring.now id mean }
    ensures ok { OnOk result (out.new.items ≡ out.old.items ++ mean_octets tailoring.now id mean) }
    ensures err { OnErr result (out.new.items ≡ out.old.items) }
{
    let fraction = tailoring.widths().mean_fraction;
    match tailoring.param(id) {
        Some(param) => write_form_number(&param.form, param.octets + fraction, mean, out),
        None => unreachable!(),
    }
}
