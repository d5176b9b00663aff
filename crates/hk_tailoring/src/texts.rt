//! The texts of faults, as the programs print them.
ghost use Rattle.std.specs.Prelude.{◌≡◌, ◌++◌, IfOk, codes};
ghost use Rattle.std.specs.Fmt.{decimal, signed_decimal};
ghost use Rattle.hk_tailoring.specs.Texts.{fault_text, kind_text};

use crate::fault::TailoringFault;
use hk_base::{Kind, Memory, Octets};
use std::alloc::Global;

impl TailoringFault {
    /// The text of the fault, as `out of range parameter[0].octets 9`.
    pub fn text(&self, alloc: Global) -> Result<Octets, Memory>
        ensures { IfOk result (λ text. text ≡ fault_text self.now) }
    {
        match self {
            TailoringFault::MissingKey(path) => with_path(alloc, "missing key ", path),
            TailoringFault::WrongKind(path) => with_path(alloc, "wrong kind ", path),
            TailoringFault::OutOfRange(path, value) => out_of_range(alloc, path, *value),
            TailoringFault::UnknownKey(path) => with_path(alloc, "unknown key ", path),
            TailoringFault::RepeatedStructure(key) => repeated_structure(alloc, key.kind, key.id),
            TailoringFault::RepeatedParam(id) => with_number(alloc, "repeated parameter ", *id),
            TailoringFault::UnknownParam(id) => with_number(alloc, "unknown parameter ", *id),
            TailoringFault::Doubled(id) => with_number(alloc, "doubled parameter ", *id),
            TailoringFault::TooWide(octets) => with_number(alloc, "too wide ", *octets),
            TailoringFault::BadRepetition(repetition, interval) => {
                bad_repetition(alloc, *repetition, *interval)
            }
            TailoringFault::NotToml => words(alloc, "not toml"),
            TailoringFault::TooLong => words(alloc, "too long"),
            TailoringFault::Memory => words(alloc, "no memory"),
        }
    }
}

fn words(alloc: Global, text: &str) -> Result<Octets, Memory>
    ensures { IfOk result (λ octets. octets ≡ text.now) }
{
    Octets::from_slice(alloc, text.as_bytes())
}

fn with_path(alloc: Global, words: &str, path: &Octets) -> Result<Octets, Memory>
    ensures { IfOk result (λ octets. octets ≡ words.now ++ path.now) }
{
    let mut octets = Vec::from_slice(alloc, words.as_bytes())?;
    octets.extend_from_slice(path.as_slice())?;
    Ok(Octets::from_vec(octets))
}

fn with_number(alloc: Global, words: &str, number: u32) -> Result<Octets, Memory>
    ensures { IfOk result (λ octets. octets ≡ words.now ++ decimal number) }
{
    let text = format!(in alloc; "{words}{number}")?;
    Ok(Octets::from_vec(text.into_bytes()))
}

fn out_of_range(alloc: Global, path: &Octets, value: i64) -> Result<Octets, Memory>
    ensures { IfOk result (λ octets. octets ≡ codes "out of range " ++ (path.now ++ (codes " " ++ signed_decimal value))) }
{
    let number = format!(in alloc; " {value}")?;
    let mut octets = Vec::from_slice(alloc, b"out of range ")?;
    octets.extend_from_slice(path.as_slice())?;
    octets.extend_from_slice(number.as_bytes())?;
    Ok(Octets::from_vec(octets))
}

fn repeated_structure(alloc: Global, kind: Kind, id: u32) -> Result<Octets, Memory>
    ensures { IfOk result (λ octets. octets ≡ codes "repeated structure " ++ (kind_text kind ++ (codes " " ++ decimal id))) }
{
    let text = match kind {
        Kind::Housekeeping => format!(in alloc; "repeated structure hk {id}")?,
        Kind::Diagnostic => format!(in alloc; "repeated structure diag {id}")?,
    };
    Ok(Octets::from_vec(text.into_bytes()))
}

fn bad_repetition(alloc: Global, repetition: u32, interval: u32) -> Result<Octets, Memory>
    ensures { IfOk result (λ octets. octets ≡ codes "repetition " ++ (decimal repetition ++ (codes " of interval " ++ decimal interval))) }
{
    let text = format!(in alloc; "repetition {repetition} of interval {interval}")?;
    Ok(Octets::from_vec(text.into_bytes()))
}
