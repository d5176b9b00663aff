//! The next entry among octets that were read.
ghost use Rattle.std.specs.Prelude.{◌≡◌, ◌≤◌};
ghost use Rattle.std.specs.Option.{option_map};
ghost use Rattle.session_record.specs.Records.{entry_of_kind, most_octets, next_entry};
ghost use Rattle.session_record.specs.Finding.{entry_by, Finds, FindsWithin, IsEntry};

use crate::entry::{Entry, RecordFault};
use hk_base::{Items, Memory, get_uint};
use std::alloc::Global;

/// The most octets that a record has.
pub(crate) const MOST_OCTETS: u64 = 268_435_456;

/// How many octets an entry has before what it holds: one of its kind, and its length in four.
pub(crate) const FRONT_OCTETS: usize = 5;

/// Which of the kinds of `Entry` one is.
#[derive(Clone, Copy, Debug, PartialEq, Eq, Drop)]
pub(crate) enum EntryKind {
    Sent,
    Got,
    Line,
}

impl EntryKind {
    fn of_octet(octet: u8) -> Option<EntryKind>
        ensures { option_map entry_by result ≡ entry_of_kind octet }
    {
        match octet {
            b'S' => Some(EntryKind::Sent),
            b'G' => Some(EntryKind::Got),
            b'J' => Some(EntryKind::Line),
            _ => None,
        }
    }
}

/// An entry among octets that were read.
#[derive(Clone, Copy)]
pub(crate) struct Found<'a> {
    pub kind: EntryKind,
    pub held: &'a [u8],
}

impl Found<'_> {
    /// An entry of its own.
    pub(crate) fn to_entry(&self, alloc: Global) -> Result<Entry, Memory>
        ensures { IsEntry self.now.kind self.now.held.now result }
    {
        let held = Items::from_slice(alloc, self.held)?;
        Ok(match self.kind {
            EntryKind::Sent => Entry::Sent(held),
            EntryKind::Got => Entry::Got(held),
            EntryKind::Line => Entry::Line(held),
        })
    }
}

/// The entry that the octets begin with, at that offset, where `room` more entries may come. None where there are no octets.
pub(crate) fn find_entry(
    octets: &[u8],
    room: u32,
    offset: u64,
) -> Result<Option<Found<'_>>, RecordFault>
    requires { offset ≤ most_octets }
    ensures next { Finds result (next_entry room offset octets.now) }
    ensures within { FindsWithin result room offset octets.now }
{
    let Some((first, rest)) = octets.split_first() else {
        return Ok(None);
    };
    if room == 0 {
        return Err(RecordFault::TooManyEntries(offset));
    }
    let Some(kind) = EntryKind::of_octet(*first) else {
        return Err(RecordFault::BadKind(*first, offset));
    };
    let Ok(size) = get_uint(rest, 4) else {
        return Err(RecordFault::Cut(offset));
    };
    if offset + 5 + size as u64 > MOST_OCTETS {
        return Err(RecordFault::TooLong(offset));
    }
    let size = size as usize;
    if rest.len() < 4 + size {
        return Err(RecordFault::Cut(offset));
    }
    let held = &rest[4..4 + size];
    Ok(Some(Found { kind, held }))
}
