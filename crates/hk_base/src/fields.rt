//! Numbers in the octets of a packet, the most significant octet first.
ghost use Rattle.std.specs.Prelude.{◌≡◌, ◌<◌, ◌≤◌, ◌*◌, ◌^◌, ◌++◌, ◌↔◌, length, take, IsErr, IfOk, OnOk, OnErr};
ghost use Rattle.hk_base.specs.Fields.{IsFieldWidth, FitsSignedOctets, number_of, signed_of, signed_number_of, octets_of, signed_octets_of};

use crate::types::{Memory, Short};

/// The unsigned number in the first octets.
pub fn get_uint(bytes: &[u8], octets: u8) -> Result<u128, Short>
    requires { IsFieldWidth octets }
    ensures short { IsErr result ↔ (length bytes.now < octets) }
    ensures enough { OnOk result (octets ≤ length bytes.now) }
    ensures value { IfOk result (λ value. value ≡ number_of (take octets bytes.now)) }
    ensures fits { IfOk result (λ value. value < 256 ^ octets) }
{
    let width = usize::from(octets);
    if bytes.len() < width {
        return Err(Short);
    }
    Ok(big_endian(&bytes[..width]))
}

/// The number that all the octets make.
fn big_endian(field: &[u8]) -> u128
    requires { length field.now ≤ 16 }
    ensures value { result ≡ number_of field.now }
    ensures fits { result < 256 ^ length field.now }
{
    let mut value = 0u128;
    for octet in field {
        value = value * 256 + u128::from(*octet);
    }
    value
}

/// The number in the first octets, in two's complement.
pub fn get_int(bytes: &[u8], octets: u8) -> Result<i128, Short>
    requires { IsFieldWidth octets }
    ensures short { IsErr result ↔ (length bytes.now < octets) }
    ensures enough { OnOk result (octets ≤ length bytes.now) }
    ensures value { IfOk result (λ value. value ≡ signed_number_of (take octets bytes.now)) }
{
    let number = get_uint(bytes, octets)?;
    Ok(sign_extended(number, 8 * octets))
}

/// What so many bits stand for in two's complement.
pub fn sign_extended(number: u128, bits: u8) -> i128
    requires width { (1 ≤ bits) × (bits ≤ 128) }
    requires fits { number < 2 ^ bits }
    ensures { result ≡ signed_of bits number }
{
    let half = 1u128 << (bits - 1);
    if number < half {
        number as i128
    } else {
        -((half - 1 - (number - half)) as i128) - 1
    }
}

/// Appends the number in so many octets.
pub fn put_uint(out: &mut Vec<u8>, octets: u8, value: u128) -> Result<(), Memory>
    requires width { IsFieldWidth octets }
    requires fits { value < 256 ^ octets }
    ensures ok { OnOk result (out.new.items ≡ out.old.items ++ octets_of octets value) }
    ensures err { OnErr result (out.new.items ≡ out.old.items) }
{
    let all = value.to_be_bytes();
    out.extend_from_slice(&all[16 - usize::from(octets)..])?;
    Ok(())
}

/// Appends the number in so many octets, in two's complement.
pub fn put_int(out: &mut Vec<u8>, octets: u8, value: i128) -> Result<(), Memory>
    requires width { IsFieldWidth octets }
    requires fits { FitsSignedOctets octets value }
    ensures ok { OnOk result (out.new.items ≡ out.old.items ++ signed_octets_of octets value) }
    ensures err { OnErr result (out.new.items ≡ out.old.items) }
{
    let all = value.to_be_bytes();
    out.extend_from_slice(&all[16 - usize::from(octets)..])?;
    Ok(())
}
