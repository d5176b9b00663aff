//! Numbers in the bits of octets, the most significant bit first.
ghost use Rattle.std.specs.Prelude.{◌≡◌, ◌+◌, ◌-◌, ◌*◌, ◌/◌, ◌^◌, ◌<◌, ◌≤◌, length, take, drop};
ghost use Rattle.std.specs.List.{list_any};
ghost use Rattle.hk_base.specs.Fields.{number};
ghost use Rattle.hk_base.specs.Payload.{bits_of};
ghost use Rattle.sample_slots.specs.Reading.{is_set};

use hk_base::get_uint;

/// The number in so many bits from this one on.
pub(crate) fn get_bits(bytes: &[u8], position: usize, width: u8) -> u128
    requires width { (1 ≤ width) × (width ≤ 64) }
    requires within { position + width ≤ 8 * length bytes.now }
    ensures value { result ≡ number 2 (take width (drop position (bits_of bytes.now))) }
    ensures fits { result < 2 ^ width }
{
    let before = (position % 8) as u8;
    let octets = (before + width).div_ceil(8);
    let (_, field) = bytes.split_at(position / 8);
    let whole = match get_uint(field, octets) {
        Ok(whole) => whole,
        Err(_) => unreachable!(),
    };
    (whole >> (8 * octets - before - width)) & ((1 << width) - 1)
}

/// Whether a bit is 1 from this one on up to a whole octet.
pub(crate) fn is_dirty(bytes: &[u8], position: usize) -> bool
    requires { position ≤ 8 * length bytes.now }
    ensures { result ≡ is_set (drop position (take (8 * ((position + 7) / 8)) (bits_of bytes.now))) }
{
    let over = (position % 8) as u8;
    over != 0 && get_bits(bytes, position, 8 - over) != 0
}
