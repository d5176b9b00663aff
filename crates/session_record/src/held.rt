//! Octets that were read and not given yet.
ghost use Rattle.std.specs.Prelude.{◌≡◌, ◌++◌, ◌+◌, ◌<◌, ◌≤◌, [], drop, take, length, IfOk, IfErr, IsSome, IsErrOf};
ghost use Rattle.hk_base.specs.Outside.{Reads};
ghost use Rattle.session_record.specs.Faults.{IsReadError};
ghost use Rattle.session_record.specs.Reading.{ahead, Gains, Grows, KeepsAhead, ReadCounts, IsAtEnd};

use crate::entry::RecordFault;
use hk_base::{Memory, Shelf};
use std::alloc::Global;
use std::marker::Model;

/// Octets in the order in which the shelf gave them. Contracts see the list of them.
#[derive(Drop)]
pub(crate) struct Held {
    /// What was read, with some octets in front that were given already.
    octets: Vec<u8>,
    /// How many octets in front were given already.
    given: usize,
}

impl Model for Held {
    ghost use Rattle.std.specs.Prelude.{ℕ, List, drop, vec_len, ◌≤◌};
    ghost use Rattle.std.specs.Coded.{coded_list, coded_ℕ};

    ghost Value = { List ℕ };

    ghost coded = { coded_list coded_ℕ };

    ghost view = { λ held. drop held.given held.octets.items };

    ghost invariant = { λ held. held.given ≤ vec_len held.octets };
}

impl Held {
    /// Nothing.
    pub fn new(alloc: Global) -> Held
        ensures { result ≡ [] }
    {
        Held {
            octets: Vec::new(alloc),
            given: 0,
        }
    }

    pub fn as_slice(&self) -> &[u8]
        ensures { result.now ≡ self.now }
    {
        &self.octets.as_slice()[self.given..]
    }

    /// Gives so many octets away.
    pub fn skip(&mut self, count: usize)
        requires { count ≤ length self.old }
        ensures { self.new ≡ drop count self.old }
    {
        self.given += count;
    }

    /// Moves the octets to the front, once at least as many before them were given away: so each is moved for one that was given.
    fn compact(&mut self)
        ensures { self.new ≡ self.old }
    {
        let left = self.octets.len() - self.given;
        if left <= self.given {
            self.octets.rotate_left(self.given);
            self.octets.truncate(left);
            self.given = 0;
        }
    }

    /// Reads one piece more by way of a buffer, and answers how many octets it has: none at the end.
    pub fn read_more<F: Shelf>(
        &mut self,
        piece: &mut [u8],
        shelf: &mut F,
    ) -> Result<usize, RecordFault>
        requires { 0 < length piece.old }
        ensures count { ReadCounts result (F.faults shelf.old) (F.faults shelf.new) }
        ensures more { IfOk result (λ count. length self.new ≡ length self.old + count) }
        ensures grows { IfOk result (λ count. Grows (length piece.old) self.old self.new) }
        ensures ahead { KeepsAhead (ahead self.old (F.rest shelf.old)) (ahead self.new (F.rest shelf.new)) }
        ensures gains { Gains self.old (F.rest shelf.old) self.new (F.rest shelf.new) }
        ensures end { IfOk result (λ count. IsAtEnd count (F.rest shelf.old) (F.rest shelf.new)) }
        ensures err { IfErr result (λ fault. IsReadError fault × (self.new ≡ self.old)) }
        ensures files { F.files shelf.new ≡ F.files shelf.old }
        ensures sound { F.is_sound shelf.old → IsSome (F.rest shelf.old) → IsErrOf result RecordFault.ReadFault → ⊥ }
        ensures stays_sound { F.is_sound shelf.old → F.is_sound shelf.new }
    {
        self.compact();
        let count = append_piece(&mut self.octets, piece, shelf)?;
        Ok(count)
    }
}

/// Reads one piece, and appends it to the octets.
fn append_piece<F: Shelf>(
    octets: &mut Vec<u8>,
    piece: &mut [u8],
    shelf: &mut F,
) -> Result<usize, RecordFault>
    requires { 0 < length piece.old }
    ensures count { ReadCounts result (F.faults shelf.old) (F.faults shelf.new) }
    ensures more { IfOk result (λ count. octets.new.items ≡ octets.old.items ++ take count piece.new) }
    ensures within { IfOk result (λ count. count ≤ length piece.new) }
    ensures moved { IfOk result (λ count. Reads (F.rest shelf.old) count piece.new (F.rest shelf.new)) }
    ensures err { IfErr result (λ fault. IsReadError fault × (octets.new.items ≡ octets.old.items) × (F.rest shelf.new ≡ F.rest shelf.old)) }
    ensures files { F.files shelf.new ≡ F.files shelf.old }
    ensures sound { F.is_sound shelf.old → IsSome (F.rest shelf.old) → IsErrOf result RecordFault.ReadFault → ⊥ }
    ensures stays_sound { F.is_sound shelf.old → F.is_sound shelf.new }
{
    // What the shelf gives must not be lost, so the memory comes first.
    octets.reserve(piece.len())?;
    let count = shelf.read(piece)?;
    match octets.extend_from_slice(&piece[..count]) {
        Ok(()) => Ok(count),
        Err(_) => unreachable!(),
    }
}
