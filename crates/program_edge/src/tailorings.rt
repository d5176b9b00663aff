//! The tailoring that a run goes by.
ghost use Rattle.std.specs.Prelude.{◌≡◌, [], length, nat_lt, false, Some, Result, Err, IfSome, IsSome, OnOk, IsErrOf};
ghost use Rattle.hk_base.specs.TailoringParts.{TailoringParts};
ghost use Rattle.hk_base.specs.Outside.{HasRisen};
ghost use Rattle.hk_tailoring.specs.declared.fault.TailoringFault.{TailoringFault};
ghost use Rattle.program_edge.specs.Faults.{IsOfTailoringRead};
ghost use Rattle.program_edge.specs.Inputs.{TakesAtMost};
ghost use Rattle.program_edge.specs.Names.{named, tailoring_of_word};
ghost use Rattle.program_edge.specs.Tailorings.{octets_of, IsAbsent, IsAbsentFile, IsMeaning, StandsFor, IsMeant, HasReadTailoring, HasReadFile, MovesIn, MovesInFile, most_file_octets, most_taken_of_tailoring};

use crate::fault::RunFault;
use crate::inputs::input_octets;
use hk_base::{Octets, Shelf, Tailoring, builtin};
use hk_tailoring::TailoringFault;
use std::alloc::Global;

/// The most octets that a tailoring file has.
const MOST_FILE_OCTETS: usize = 1_048_576;

/// What a word stands for where a tailoring is named.
#[derive(Clone, Copy)]
pub enum TailoringName<'a> {
    /// The built-in tailoring.
    Builtin,
    /// That of the file of this name.
    File(&'a str),
}

/// What a word stands for where a tailoring is named: `builtin` is the built-in one.
pub fn tailoring_named(word: &str) -> TailoringName<'_>
    ensures { named result ≡ tailoring_of_word word.now }
{
    if word == "builtin" {
        TailoringName::Builtin
    } else {
        TailoringName::File(word)
    }
}

/// The tailoring that a name stands for, or how the run ends without it. The built-in one reads nothing.
pub fn tailoring_of<F: Shelf>(
    alloc: Global,
    name: TailoringName<'_>,
    shelf: &mut F,
) -> Result<Tailoring, RunFault>
    ensures meant { (meant : Result TailoringParts TailoringFault) → StandsFor (F.files shelf.old) (named name.entry) meant → IsMeant result meant }
    ensures absent { IsAbsent (F.files shelf.old) (named name.entry) → result ≡ Err RunFault.ReadFault }
    ensures end { OnOk result (HasReadTailoring (named name.entry) (F.files shelf.old) (F.rest shelf.new)) }
    ensures moves { MovesIn (F.files shelf.old) (named name.entry) (F.rest shelf.old) (F.rest shelf.new) }
    ensures causes { IsOfTailoringRead result }
    ensures failed { IsErrOf result RunFault.ReadFault → HasRisen (F.faults shelf.old) (F.faults shelf.new) }
    ensures quiet { OnOk result (F.faults shelf.new ≡ F.faults shelf.old) }
    ensures sound { F.is_sound shelf.old → (meant : Result TailoringParts TailoringFault) → StandsFor (F.files shelf.old) (named name.entry) meant → F.faults shelf.new ≡ F.faults shelf.old }
    ensures files { F.files shelf.new ≡ F.files shelf.old }
    ensures stays_sound { F.is_sound shelf.old → F.is_sound shelf.new }
{
    match name {
        TailoringName::Builtin => Ok(builtin(alloc)?),
        TailoringName::File(name) => tailoring_in_file(alloc, name, shelf),
    }
}

/// The tailoring of the file of this name.
fn tailoring_in_file<F: Shelf>(
    alloc: Global,
    name: &str,
    shelf: &mut F,
) -> Result<Tailoring, RunFault>
    ensures meant { IfSome (octets_of (F.files shelf.old) name.now) (λ octets. (meant : Result TailoringParts TailoringFault) → IsMeaning octets meant → IsMeant result meant) }
    ensures absent { IsAbsentFile (F.files shelf.old) name.now → result ≡ Err RunFault.ReadFault }
    ensures end { OnOk result (HasReadFile (F.files shelf.old) (F.rest shelf.new)) }
    ensures moves { MovesInFile (F.files shelf.old) name.now (F.rest shelf.old) (F.rest shelf.new) }
    ensures causes { IsOfTailoringRead result }
    ensures failed { IsErrOf result RunFault.ReadFault → HasRisen (F.faults shelf.old) (F.faults shelf.new) }
    ensures quiet { OnOk result (F.faults shelf.new ≡ F.faults shelf.old) }
    ensures sound { F.is_sound shelf.old → IsSome (octets_of (F.files shelf.old) name.now) → F.faults shelf.new ≡ F.faults shelf.old }
    ensures files { F.files shelf.new ≡ F.files shelf.old }
    ensures stays_sound { F.is_sound shelf.old → F.is_sound shelf.new }
{
    if shelf.select(name).is_err() {
        return Err(RunFault::ReadFault);
    }
    tailoring_read(alloc, shelf)
}

/// The tailoring in what the shelf has selected.
fn tailoring_read<F: Shelf>(alloc: Global, shelf: &mut F) -> Result<Tailoring, RunFault>
    ensures meant { IfSome (F.rest shelf.old) (λ octets. (meant : Result TailoringParts TailoringFault) → IsMeaning octets meant → IsMeant result meant) }
    ensures end { OnOk result (IfSome (F.rest shelf.old) (λ octets. F.rest shelf.new ≡ Some [])) }
    ensures bounded { TakesAtMost most_taken_of_tailoring (F.rest shelf.old) (F.rest shelf.new) }
    ensures causes { IsOfTailoringRead result }
    ensures failed { IsErrOf result RunFault.ReadFault → HasRisen (F.faults shelf.old) (F.faults shelf.new) }
    ensures quiet { OnOk result (F.faults shelf.new ≡ F.faults shelf.old) }
    ensures sound { F.is_sound shelf.old → IsSome (F.rest shelf.old) → F.faults shelf.new ≡ F.faults shelf.old }
    ensures files { F.files shelf.new ≡ F.files shelf.old }
    ensures stays_sound { F.is_sound shelf.old → F.is_sound shelf.new }
{
    let Some(octets) = input_octets(alloc, MOST_FILE_OCTETS, shelf)? else {
        return Err(RunFault::Tailoring(TailoringFault::TooLong));
    };
    tailoring_in(alloc, &octets)
}

/// The tailoring that a file of these octets states.
fn tailoring_in(alloc: Global, octets: &Octets) -> Result<Tailoring, RunFault>
    requires { nat_lt most_file_octets (length octets.now) ≡ false }
    ensures meant { (meant : Result TailoringParts TailoringFault) → IsMeaning octets.now meant → IsMeant result meant }
    ensures causes { IsOfTailoringRead result }
    ensures unread { IsErrOf result RunFault.ReadFault → ⊥ }
{
    match hk_tailoring::read(alloc, octets.as_slice()) {
        Ok(tailoring) => Ok(tailoring),
        Err(fault) => Err(fault.into()),
    }
}
