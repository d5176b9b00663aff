ghost use Rattle.std.specs.Prelude.{◌≡◌, ◌<◌, ◌≤◌, ◌^◌, ◌+◌, length, IfOk, IsErr, ◌↔◌};
ghost use Rattle.hk_base.specs.Fit.{IsWithin};
ghost use Rattle.body_fields.specs.Outcomes.{Gives};
ghost use Rattle.body_fields.specs.Reading.{Read, whole_body, octets_field, uint, flag_field, time_field, count_field, interval_field};

use crate::fault::BodyFault;
use hk_base::{Tailoring, get_uint};

/// So many octets.
pub fn read_octets(octets: &[u8], count: usize) -> Result<(&[u8], &[u8]), BodyFault>
    ensures gives { Gives (λ x. (x.0.now, x.1.now)) result (octets_field count octets.now) }
    ensures left { IfOk result (λ x. length x.1.now ≤ length octets.now) }
{
    if octets.len() < count {
        return Err(BodyFault::Short);
    }
    Ok(octets.split_at(count))
}

/// An unsigned number in 1 to 7 octets.
fn read_uint(octets: &[u8], width: u8) -> Result<(u64, &[u8]), BodyFault>
    requires { IsWithin 1 7 width }
    ensures gives { Gives (λ x. (x.0, x.1.now)) result (uint width octets.now) }
    ensures fits { IfOk result (λ x. x.0 < 256 ^ width) }
    ensures left { IfOk result (λ x. length x.1.now ≤ length octets.now) }
{
    match get_uint(octets, width) {
        Ok(number) => Ok((number as u64, &octets[usize::from(width)..])),
        Err(_) => Err(BodyFault::Short),
    }
}

/// An unsigned number in 1 to 4 octets.
pub fn read_number(octets: &[u8], width: u8) -> Result<(u32, &[u8]), BodyFault>
    requires { IsWithin 1 4 width }
    ensures gives { Gives (λ x. (x.0, x.1.now)) result (uint width octets.now) }
    ensures fits { IfOk result (λ x. x.0 < 256 ^ width) }
    ensures left { IfOk result (λ x. length x.1.now ≤ length octets.now) }
{
    let (number, rest) = read_uint(octets, width)?;
    Ok((number as u32, rest))
}

/// A time, as its tag.
pub fn read_time<'a>(tailoring: &Tailoring, octets: &'a [u8]) -> Result<(u64, &'a [u8]), BodyFault>
    ensures gives { Gives (λ x. (x.0, x.1.now)) result (time_field tailoring.now octets.now) }
    ensures left { IfOk result (λ x. length x.1.now ≤ length octets.now) }
{
    let widths = tailoring.widths();
    read_uint(octets, widths.coarse + widths.fine)
}

/// A status or a flag: an octet that is 0 or 1.
pub fn read_flag(octets: &[u8]) -> Result<(bool, &[u8]), BodyFault>
    ensures gives { Gives (λ x. (x.0, x.1.now)) result (flag_field octets.now) }
    ensures left { IfOk result (λ x. length x.1.now ≤ length octets.now) }
{
    let (number, rest) = read_number(octets, 1)?;
    if number > 1 {
        return Err(BodyFault::Status(number as u8));
    }
    Ok((number == 1, rest))
}

/// A number of members, which is `least` or more, and 255 at most.
pub fn read_count<'a>(
    tailoring: &Tailoring,
    least: u32,
    octets: &'a [u8],
) -> Result<(u32, &'a [u8]), BodyFault>
    ensures gives { Gives (λ x. (x.0, x.1.now)) result (count_field tailoring.now least octets.now) }
    ensures few { IfOk result (λ x. x.0 ≤ 255) }
    ensures left { IfOk result (λ x. length x.1.now ≤ length octets.now) }
{
    let (count, rest) = read_number(octets, tailoring.widths().count_octets)?;
    if count < least {
        return Err(BodyFault::ZeroCount);
    }
    if count > 255 {
        return Err(BodyFault::TooMany(count));
    }
    Ok((count, rest))
}

/// An interval in slots, from 1 to the greatest of the tailoring.
pub fn read_interval<'a>(
    tailoring: &Tailoring,
    octets: &'a [u8],
) -> Result<(u32, &'a [u8]), BodyFault>
    ensures gives { Gives (λ x. (x.0, x.1.now)) result (interval_field tailoring.now octets.now) }
    ensures left { IfOk result (λ x. length x.1.now ≤ length octets.now) }
{
    let widths = tailoring.widths();
    let (interval, rest) = read_number(octets, widths.interval_octets)?;
    if interval == 0 {
        return Err(BodyFault::ZeroInterval);
    }
    if interval > widths.max_interval {
        return Err(BodyFault::LongInterval(interval));
    }
    Ok((interval, rest))
}

/// A whole body: what was read, where no octet is left.
pub fn whole<T: Drop>(read: Result<(T, &[u8]), BodyFault>) -> Result<T, BodyFault>
    requires { IfOk read (λ x. length x.1.now < 2 ^ 32) }
    ensures { (given : Read T) → Gives (λ x. (x.0, x.1.now)) read.entry given → Gives (λ x. x) result (whole_body given) }
{
    let (value, rest) = read?;
    if !rest.is_empty() {
        return Err(BodyFault::Trailing(rest.len() as u32));
    }
    Ok(value)
}
