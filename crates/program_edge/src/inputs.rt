//! A whole input, up to a limit.
ghost use Rattle.std.specs.Prelude.{◌≡◌, ◌<◌, ◌≤◌, ◌^◌, ◌+◌, length, IfSome, IsSome, IfOk, OnOk, IsErrOf};
ghost use Rattle.hk_base.specs.Outside.{HasRisen};
ghost use Rattle.session_record.specs.Reading.{ahead, KeepsAhead, IsAtEnd};
ghost use Rattle.program_edge.specs.Faults.{IsOfInput};
ghost use Rattle.program_edge.specs.Inputs.{piece_octets, IsWhole, IsReadOutIfWhole, TakesAtMost};

use crate::fault::RunFault;
use hk_base::{Items, Octets, Shelf};
use std::alloc::{AllocError, Global};

/// The most octets that are asked of a shelf at a time, and that are gathered before they are written.
pub const PIECE_OCTETS: u32 = 65_536;

/// All octets of what the shelf has selected, and none where they are more than so many. It takes at most one piece more of the
/// shelf than that.
pub fn input_octets<F: Shelf>(
    alloc: Global,
    most: usize,
    shelf: &mut F,
) -> Result<Option<Octets>, RunFault>
    requires { most < 2 ^ 31 }
    ensures whole { IfSome (F.rest shelf.old) (λ octets. IsWhole most octets result) }
    ensures within { IfOk result (λ found. IfSome found (λ octets. length octets ≤ most)) }
    ensures end { IsReadOutIfWhole result (F.rest shelf.old) (F.rest shelf.new) }
    ensures bounded { TakesAtMost (most + piece_octets) (F.rest shelf.old) (F.rest shelf.new) }
    ensures causes { IsOfInput result }
    ensures failed { IsErrOf result RunFault.ReadFault → HasRisen (F.faults shelf.old) (F.faults shelf.new) }
    ensures quiet { OnOk result (F.faults shelf.new ≡ F.faults shelf.old) }
    ensures sound { F.is_sound shelf.old → IsSome (F.rest shelf.old) → F.faults shelf.new ≡ F.faults shelf.old }
    ensures files { F.files shelf.new ≡ F.files shelf.old }
    ensures stays_sound { F.is_sound shelf.old → F.is_sound shelf.new }
{
    let mut piece = buffer(alloc, PIECE_OCTETS as usize)?;
    octets_by_pieces(alloc, most, &mut piece, shelf)
}

/// A buffer of so many octets.
fn buffer(alloc: Global, octets: usize) -> Result<Vec<u8>, AllocError>
    ensures { IfOk result (λ buffer. length buffer.items ≡ octets) }
{
    vec![in alloc; 0u8; octets]
}

/// The same by pieces of at most the buffer's octets.
fn octets_by_pieces<F: Shelf>(
    alloc: Global,
    most: usize,
    piece: &mut [u8],
    shelf: &mut F,
) -> Result<Option<Octets>, RunFault>
    requires limit { most < 2 ^ 31 }
    requires room { 0 < length piece.old }
    ensures whole { IfSome (F.rest shelf.old) (λ octets. IsWhole most octets result) }
    ensures within { IfOk result (λ found. IfSome found (λ octets. length octets ≤ most)) }
    ensures end { IsReadOutIfWhole result (F.rest shelf.old) (F.rest shelf.new) }
    ensures bounded { TakesAtMost (most + length piece.old) (F.rest shelf.old) (F.rest shelf.new) }
    ensures causes { IsOfInput result }
    ensures failed { IsErrOf result RunFault.ReadFault → HasRisen (F.faults shelf.old) (F.faults shelf.new) }
    ensures quiet { OnOk result (F.faults shelf.new ≡ F.faults shelf.old) }
    ensures sound { F.is_sound shelf.old → IsSome (F.rest shelf.old) → F.faults shelf.new ≡ F.faults shelf.old }
    ensures files { F.files shelf.new ≡ F.files shelf.old }
    ensures stays_sound { F.is_sound shelf.old → F.is_sound shelf.new }
{
    let mut octets = Vec::new(alloc);
    while octets.len() <= most {
        if append_piece(&mut octets, piece, shelf)? == 0 {
            return Ok(Some(Items::from_vec(octets)));
        }
    }
    Ok(None)
}

/// Appends the next piece to the octets, and answers how many octets it has: none at the end.
fn append_piece<F: Shelf>(
    octets: &mut Vec<u8>,
    piece: &mut [u8],
    shelf: &mut F,
) -> Result<usize, RunFault>
    requires { 0 < length piece.old }
    ensures ahead { OnOk result (KeepsAhead (ahead octets.old.items (F.rest shelf.old)) (ahead octets.new.items (F.rest shelf.new))) }
    ensures more { IfOk result (λ count. length octets.new.items ≡ length octets.old.items + count) }
    ensures end { IfOk result (λ count. IsAtEnd count (F.rest shelf.old) (F.rest shelf.new)) }
    ensures few { IfOk result (λ count. count ≤ length piece.old) }
    ensures size { length piece.new ≡ length piece.old }
    ensures bounded { TakesAtMost (length piece.old) (F.rest shelf.old) (F.rest shelf.new) }
    ensures causes { IsOfInput result }
    ensures failed { IsErrOf result RunFault.ReadFault → HasRisen (F.faults shelf.old) (F.faults shelf.new) }
    ensures quiet { OnOk result (F.faults shelf.new ≡ F.faults shelf.old) }
    ensures sound { F.is_sound shelf.old → IsSome (F.rest shelf.old) → F.faults shelf.new ≡ F.faults shelf.old }
    ensures files { F.files shelf.new ≡ F.files shelf.old }
    ensures stays_sound { F.is_sound shelf.old → F.is_sound shelf.new }
{
    let Ok(count) = shelf.read(piece) else {
        return Err(RunFault::ReadFault);
    };
    octets.extend_from_slice(&piece[..count])?;
    Ok(count)
}
