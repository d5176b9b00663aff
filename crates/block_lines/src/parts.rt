//! The parts of lines.
ghost use Rattle.std.specs.Prelude.{◌≡◌, flat_map};
ghost use Rattle.body_fields.specs.Outcomes.{Appends};
ghost use Rattle.block_lines.specs.Parts.{part_octets};

use hk_base::{Memory, Value};
use itoa::Buffer;

/// A part of a line.
#[derive(Clone, Copy)]
pub(crate) enum Part<'a> {
    Text(&'a str),
    Number(u64),
    Value(Value),
}

/// Appends parts one after the other.
pub(crate) fn put_parts(out: &mut Vec<u8>, parts: &[Part<'_>]) -> Result<(), Memory>
    ensures { Appends out.old.items result out.new.items (flat_map part_octets parts.now) }
{
    for part in parts {
        put_part(out, *part)?;
    }
    Ok(())
}

/// Appends a part. Numbers are decimal.
pub(crate) fn put_part(out: &mut Vec<u8>, part: Part<'_>) -> Result<(), Memory>
    ensures { Appends out.old.items result out.new.items (part_octets part.entry) }
{
    let mut digits = Buffer::new();
    let text = match part {
        Part::Text(text) => text,
        Part::Number(number) => digits.format(number),
        Part::Value(value) => digits.format(value),
    };
    out.extend_from_slice(text.as_bytes())?;
    Ok(())
}
