//! Numbers that are written as bits of octets, the most significant bit first.
ghost use Rattle.std.specs.Prelude.{◌≡◌, ◌++◌, ◌+◌, ◌-◌, ◌%◌, ◌^◌, ◌<◌, ◌≤◌, replicate, IfOk, OnOk, OnErr};
ghost use Rattle.hk_base.specs.Fields.{digits, octets_of, twos_complement};
ghost use Rattle.hk_base.specs.Payload.{bits_of};
ghost use Rattle.sample_slots.specs.Writing.{IsPending, written, Keeps, IsHeld};

use hk_base::{Memory, Value, put_uint};

/// The bits that wait to fill an octet, as a number. There are fewer than eight.
#[derive(Clone, Copy)]
pub(crate) struct Pending {
    held: u128,
    count: u8,
}

impl Pending {
    /// No bit waits.
    pub(crate) const NONE: Pending = Pending { held: 0, count: 0 };
}

/// The number that stands for a value in so many bits, in two's complement.
pub(crate) fn unsigned(value: Value, bits: u8) -> u128
    requires width { bits ≤ 64 }
    requires held { IsHeld bits value }
    ensures number { result ≡ twos_complement bits value }
    ensures fits { result < 2 ^ bits }
{
    value.cast_unsigned() & ((1 << bits) - 1)
}

/// Appends the number in so many bits. Those that don't fill an octet wait.
pub(crate) fn put_bits(
    pending: Pending,
    value: u128,
    width: u8,
    out: &mut Vec<u8>,
) -> Result<Pending, Memory>
    requires pending { IsPending pending }
    requires width { width ≤ 64 }
    requires fits { value < 2 ^ width }
    ensures bits { IfOk result (λ next. written out.new.items next ≡ written out.old.items pending ++ digits 2 width value) }
    ensures pending { IfOk result (λ next. IsPending next) }
    ensures count { IfOk result (λ next. next.count ≡ (pending.count + width) % 8) }
    ensures kept { Keeps out.old.items out.new.items }
{
    let whole = pending.held * (1 << width) + value;
    let bits = pending.count + width;
    let count = bits % 8;
    put_octets(whole >> count, bits / 8, out)?;
    let held = whole & ((1 << count) - 1);
    Ok(Pending { held, count })
}

/// Appends the number in so many octets, of which there may be none.
fn put_octets(value: u128, octets: u8, out: &mut Vec<u8>) -> Result<(), Memory>
    requires width { octets ≤ 16 }
    requires fits { value < 256 ^ octets }
    ensures ok { OnOk result (out.new.items ≡ out.old.items ++ octets_of octets value) }
    ensures err { OnErr result (out.new.items ≡ out.old.items) }
{
    if octets == 0 {
        return Ok(());
    }
    put_uint(out, octets, value)
}

/// Appends zeros, 0 to 7, up to a whole octet.
pub(crate) fn pad(pending: Pending, out: &mut Vec<u8>) -> Result<(), Memory>
    requires { IsPending pending }
    ensures bits { OnOk result (bits_of out.new.items ≡ written out.old.items pending ++ replicate ((8 - pending.count) % 8) 0) }
    ensures kept { Keeps out.old.items out.new.items }
{
    put_bits(pending, 0, (8 - pending.count) % 8, out)?;
    Ok(())
}
