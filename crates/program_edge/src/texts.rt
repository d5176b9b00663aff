//! The texts of the answers that the programs share, each a line without its end.
ghost use Rattle.std.specs.Prelude.{◌≡◌, IfOk};
ghost use Rattle.std.specs.String.{string_bytes};
ghost use Rattle.program_edge.specs.Texts as texts;

use hk_base::{Items, Memory, Octets};
use hk_tailoring::TailoringFault;
use session_record::RecordFault;
use std::alloc::{AllocError, Global};
use std::fmt::Write;

/// A text that names nothing: `usage`, `read fault`, `write fault` or `no memory`.
pub fn plain_text(alloc: Global, text: &str) -> Result<Octets, Memory>
    ensures { IfOk result (λ octets. octets ≡ text.now) }
{
    Ok(Items::from_slice(alloc, text.as_bytes())?)
}

/// The text of a fault of the tailoring.
pub fn tailoring_text(alloc: Global, fault: &TailoringFault) -> Result<Octets, Memory>
    ensures { IfOk result (λ text. text ≡ texts.tailoring_text fault.now) }
{
    let mut text = Vec::from_slice(alloc, b"tailoring: ")?;
    text.extend_from_slice(fault.text(alloc)?.as_slice())?;
    Ok(Items::from_vec(text))
}

/// The text of a line that is refused.
pub fn line_text(alloc: Global, line: u32) -> Result<Octets, Memory>
    ensures { IfOk result (λ text. text ≡ texts.line_text line) }
{
    let text = format!(in alloc; "line {line}")?;
    Ok(Items::from_vec(text.into_bytes()))
}

/// The text of a fault of a record's octets.
pub fn format_text(alloc: Global, fault: RecordFault) -> Result<Octets, Memory>
    ensures { IfOk result (λ text. text ≡ texts.format_text fault) }
{
    let text = format_string(alloc, fault)?;
    Ok(Items::from_vec(text.into_bytes()))
}

/// The same as a string.
fn format_string(alloc: Global, fault: RecordFault) -> Result<String, AllocError>
    ensures { IfOk result (λ text. string_bytes text ≡ texts.format_text fault) }
{
    let mut text = String::new(alloc);
    match fault {
        RecordFault::BadMagic => write!(text, "record: bad magic")?,
        RecordFault::BadKind(octet, offset) => write!(
            text,
            "record: bad kind {octet} at {offset}"
        )?,
        RecordFault::Cut(offset) => write!(text, "record: cut at {offset}")?,
        RecordFault::TooLong(offset) => write!(text, "record: too long at {offset}")?,
        RecordFault::TooManyEntries(offset) => write!(
            text,
            "record: too many entries at {offset}"
        )?,
        RecordFault::ReadFault => write!(text, "read fault")?,
        RecordFault::Memory => write!(text, "no memory")?,
    }
    Ok(text)
}
