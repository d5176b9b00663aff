//! Reading a record piece by piece.
ghost use Rattle.std.specs.Prelude.{◌≡◌, ◌<◌, ◌+◌, length, false, None, Some, IfOk, IfErr, OnOk, IfSome, IsSome, IsTrue, IsErrOf};
ghost use Rattle.std.specs.Option.{option_map};
ghost use Rattle.session_record.specs.Reading.{reading_by, Answers, GoesOn, Gains, AreTaken, octets_taken, TakesFew, HoldsLess, Moves, HasHeader, ReadCounts, is_settled, lasting_fault, ahead, KeepsAhead};
ghost use Rattle.session_record.specs.Faults.{IsReadError};
ghost use Rattle.session_record.specs.Records.{next_entry};
ghost use Rattle.session_record.specs.Steps.{is_ready, HeldAlone, HeaderTaken, EntryTaken, IsEnough, HasRoomFor, behind};

use crate::entry::{Entry, RecordFault};
use crate::found::{FRONT_OCTETS, find_entry};
use crate::header::{HEADER_OCTETS, Header};
use crate::held::Held;
use hk_base::{Memory, Shelf};
use std::alloc::Global;
use std::marker::Model;

/// The most entries that a record has.
const MOST_ENTRIES: u32 = 1_000_000;

/// Reads a record, entry by entry, whatever pieces the shelf gives. Each octet is moved a bounded number of times,
/// and memory grows with what was read, and not with what a length claims.
#[derive(Drop)]
pub struct RecordReader {
    alloc: Global,
    /// The buffer of one read.
    piece: Vec<u8>,
    held: Held,
    header: Option<Header>,
    offset: u64,
    room: u32,
    fault: Option<RecordFault>,
}

impl Model for RecordReader {
    ghost use Rattle.std.specs.Prelude.{◌≡◌, ◌≤◌, ◌<◌, vec_len};
    ghost use Rattle.session_record.specs.Records.{most_octets};
    ghost use Rattle.session_record.specs.Reading.{Reading, Lasts, IsWithin};

    ghost Value = { Reading };

    ghost view = { λ r. record { header = r.header; offset = r.offset; room = r.room; held = r.held; fault = r.fault; most = vec_len r.piece } };

    ghost invariant = { λ r. (r.offset ≤ most_octets) × Lasts r.header r.fault × (0 < vec_len r.piece)
        × IsWithin (record { header = r.header; offset = r.offset; room = r.room; held = r.held; fault = r.fault; most = vec_len r.piece }) };
}

impl RecordReader {
    /// A reader before the first octet, which takes up to `most` octets from the shelf at a time.
    pub fn new(alloc: Global, most: u32) -> Result<RecordReader, Memory>
        requires { 0 < most }
        ensures { IfOk result (λ reader. reader ≡ reading_by most) }
    {
        let piece = vec![in alloc; 0u8; most as usize]?;
        Ok(RecordReader {
            alloc,
            piece,
            held: Held::new(alloc),
            header: None,
            offset: HEADER_OCTETS as u64,
            room: MOST_ENTRIES,
            fault: None,
        })
    }

    /// Whether the board's state at the start is known. None before the header was read, which the first call of `next` does.
    pub fn known_start(&self) -> Option<bool>
        ensures { result ≡ option_map (λ header. header.known) self.now.header }
    {
        self.header.map(|header| header.known)
    }

    /// Whether counts of requests are used again in the session. None before the header was read.
    pub fn long_session(&self) -> Option<bool>
        ensures { result ≡ option_map (λ header. header.long) self.now.header }
    {
        self.header.map(|header| header.long)
    }

    /// The next entry, with the offset of its first octet in the record, and None at the end. The first call reads the header too.
    ///
    /// A fault of the octets is answered from then on. After `ReadFault` or `Memory` the reader keeps what it has read,
    /// and answers what would have come when it is asked again.
    pub fn next<F: Shelf>(&mut self, shelf: &mut F) -> Result<Option<(u64, Entry)>, RecordFault>
        // The entries, their offsets, the end and the faults are those of the octets, in whatever pieces they come. What the
        // answer says of the octets that the shelf gave stands whatever it would have given after them.
        ensures answer { Answers result self.old (F.rest shelf.old) self.new (F.rest shelf.new) }
        ensures goes_on { GoesOn result self.old (F.rest shelf.old) self.new (F.rest shelf.new) }
        ensures header { HasHeader result self.new.header }
        ensures same_header { IfSome self.old.header (λ header. self.new.header ≡ Some header) }
        ensures moves { Moves result self.old self.new }
        // What the shelf gave was taken by the reader: behind an entry that is given less than a piece, and never more than a
        // piece behind the longest record.
        ensures taken { AreTaken self.old (F.rest shelf.old) self.new (F.rest shelf.new) }
        ensures few { TakesFew self.old self.new }
        ensures ahead { HoldsLess result self.new }
        // A fault of the octets is answered from then on, and the other two aren't.
        ensures again { IfSome self.old.fault (λ fault. (result ≡ Err fault) × (self.new ≡ self.old)) }
        ensures fault { self.new.fault ≡ lasting_fault result }
        // The shelf isn't read where the octets that are held have the answer in full, so after ReadFault they don't.
        ensures settled { IsTrue (is_settled self.old) → shelf.new ≡ shelf.old }
        ensures unsettled { IsErrOf result RecordFault.ReadFault → is_settled self.new ≡ false }
        ensures count { ReadCounts result (F.faults shelf.old) (F.faults shelf.new) }
        ensures files { F.files shelf.new ≡ F.files shelf.old }
        ensures sound { F.is_sound shelf.old → IsSome (F.rest shelf.old) → IsErrOf result RecordFault.ReadFault → ⊥ }
        ensures stays_sound { F.is_sound shelf.old → F.is_sound shelf.new }
    {
        if let Some(fault) = self.fault {
            return Err(fault);
        }
        let answer = self.read_next(shelf);
        self.fault = lasting_fault(&answer);
        answer
    }

    /// The header, if it wasn't read before, and the next entry.
    fn read_next<F: Shelf>(&mut self, shelf: &mut F) -> Result<Option<(u64, Entry)>, RecordFault>
        requires { self.old.fault ≡ None }
        ensures answer { Answers result self.old (F.rest shelf.old) self.new (F.rest shelf.new) }
        ensures goes_on { GoesOn result self.old (F.rest shelf.old) self.new (F.rest shelf.new) }
        ensures header { HasHeader result self.new.header }
        ensures same_header { IfSome self.old.header (λ header. self.new.header ≡ Some header) }
        ensures moves { Moves result self.old self.new }
        ensures taken { AreTaken self.old (F.rest shelf.old) self.new (F.rest shelf.new) }
        ensures few { TakesFew self.old self.new }
        ensures ahead { HoldsLess result self.new }
        ensures fault { self.new.fault ≡ None }
        ensures settled { IsTrue (is_settled self.old) → shelf.new ≡ shelf.old }
        ensures unsettled { IsErrOf result RecordFault.ReadFault → is_settled self.new ≡ false }
        ensures count { ReadCounts result (F.faults shelf.old) (F.faults shelf.new) }
        ensures files { F.files shelf.new ≡ F.files shelf.old }
        ensures sound { F.is_sound shelf.old → IsSome (F.rest shelf.old) → IsErrOf result RecordFault.ReadFault → ⊥ }
        ensures stays_sound { F.is_sound shelf.old → F.is_sound shelf.new }
    {
        self.gather(shelf)?;
        self.take_header()?;
        self.gather(shelf)?;
        self.take_entry()
    }

    /// Reads until the header, or else the next entry, is held in full or can't come any more.
    fn gather<F: Shelf>(&mut self, shelf: &mut F) -> Result<(), RecordFault>
        ensures held { HeldAlone self.old self.new }
        ensures ahead { KeepsAhead (ahead self.old.held (F.rest shelf.old)) (ahead self.new.held (F.rest shelf.new)) }
        ensures gains { Gains self.old.held (F.rest shelf.old) self.new.held (F.rest shelf.new) }
        ensures enough { OnOk result (IsEnough self.new (F.rest shelf.old) (F.rest shelf.new)) }
        ensures err { IfErr result (λ fault. IsReadError fault × (is_ready self.new ≡ false)) }
        ensures few { TakesFew self.old self.new }
        ensures ready { IsTrue (is_ready self.old) → (self.new ≡ self.old) × (shelf.new ≡ shelf.old) }
        ensures count { ReadCounts result (F.faults shelf.old) (F.faults shelf.new) }
        ensures files { F.files shelf.new ≡ F.files shelf.old }
        ensures sound { F.is_sound shelf.old → IsSome (F.rest shelf.old) → IsErrOf result RecordFault.ReadFault → ⊥ }
        ensures stays_sound { F.is_sound shelf.old → F.is_sound shelf.new }
    {
        while !self.is_ready() {
            if self.held.read_more(&mut self.piece, shelf)? == 0 {
                return Ok(());
            }
        }
        Ok(())
    }

    /// Whether the header, or else the next entry, is held in full, or a fault of it.
    fn is_ready(&self) -> bool
        ensures { result ≡ is_ready self.now }
    {
        let octets = self.held.as_slice();
        if self.header.is_none() {
            return octets.len() >= HEADER_OCTETS;
        }
        match find_entry(octets, self.room, self.offset) {
            Ok(None) => false,
            Ok(Some(_)) => true,
            Err(fault) => !fault.is_cut(),
        }
    }

    /// Takes the header off what is held, unless it was taken before.
    fn take_header(&mut self) -> Result<(), RecordFault>
        requires { self.old.fault ≡ None }
        ensures header { HeaderTaken result self.old self.new }
        ensures same { octets_taken self.new ≡ octets_taken self.old }
        ensures few { TakesFew self.old self.new }
    {
        if self.header.is_some() {
            return Ok(());
        }
        let Some(header) = Header::at_front(self.held.as_slice()) else {
            return Err(RecordFault::BadMagic);
        };
        self.held.skip(HEADER_OCTETS);
        self.header = Some(header);
        Ok(())
    }

    /// Takes the next entry off what is held.
    fn take_entry(&mut self) -> Result<Option<(u64, Entry)>, RecordFault>
        requires { IsSome self.old.header }
        ensures taken { EntryTaken result (next_entry self.old.room self.old.offset self.old.held) self.old self.new }
        ensures same { octets_taken self.new ≡ octets_taken self.old }
        ensures few { TakesFew self.old self.new }
        ensures ahead { HoldsLess result self.new }
    {
        let Some(found) = find_entry(self.held.as_slice(), self.room, self.offset)? else {
            return Ok(None);
        };
        let entry = found.to_entry(self.alloc)?;
        let size = FRONT_OCTETS + found.held.len();
        let offset = self.offset;
        self.skip_entry(size);
        Ok(Some((offset, entry)))
    }

    /// Goes behind an entry of so many octets, which is held in full.
    fn skip_entry(&mut self, size: usize)
        requires header { IsSome self.old.header }
        requires room { HasRoomFor size self.old.room self.old.offset (length self.old.held) }
        requires near { length self.old.held < size + self.old.most }
        ensures { self.new ≡ behind self.old size }
    {
        self.held.skip(size);
        self.offset += size as u64;
        self.room -= 1;
    }
}

/// The fault that is answered from then on, if it is one.
fn lasting_fault(answer: &Result<Option<(u64, Entry)>, RecordFault>) -> Option<RecordFault>
    ensures { result ≡ lasting_fault answer.now }
{
    match answer {
        Err(fault) if fault.is_lasting() => Some(*fault),
        _ => None,
    }
}
