//! Octets that are written to memory before they go out.
ghost use Rattle.std.specs.Prelude.{◌≡◌, ◌≤◌, ◌^◌, [], ◌++◌, Some, None, OnOk, length};
ghost use Rattle.hk_base.specs.Outside.{most_faults};
ghost use Rattle.session_record.specs.Records.{entry_octets, header_octets, header_of, held_octets};

use hk_base::{Failed, Memory, Sink};
use session_record::{Entry, RecordWriter};
use std::alloc::Global;

/// A sink in memory that grows. It fails where memory runs out.
#[derive(Drop)]
pub struct Draft {
    octets: Vec<u8>,
    faults: u64,
    ghost counted: { faults ≤ most_faults },
}

impl Draft {
    /// Nothing was written.
    pub fn new(alloc: Global) -> Draft
        ensures { result.octets.items ≡ [] }
    {
        Draft {
            octets: Vec::new(alloc),
            faults: 0,
        }
    }

    /// Puts the header of a record behind what was written: whether the start is known, and whether the session is long.
    pub fn begin(&mut self, known: bool, long: bool) -> Result<(), Memory>
        ensures { OnOk result (self.new.octets.items ≡ self.old.octets.items ++ header_octets (header_of known long)) }
    {
        match RecordWriter::begin(self, known, long) {
            Ok(()) => Ok(()),
            Err(_) => Err(Memory),
        }
    }

    /// Puts an entry of a record behind what was written.
    pub fn put(&mut self, entry: &Entry) -> Result<(), Memory>
        requires { length (held_octets entry.now) ≤ 2 ^ 31 }
        ensures { OnOk result (self.new.octets.items ≡ self.old.octets.items ++ entry_octets entry.now) }
    {
        match RecordWriter::put(self, entry) {
            Ok(()) => Ok(()),
            Err(_) => Err(Memory),
        }
    }

    /// What was written.
    pub fn into_octets(self) -> Vec<u8>
        ensures { result ≡ self.octets }
    {
        let Draft { octets, faults: _ } = self;
        octets
    }
}

impl Sink for Draft {
    ghost faults = { λ draft. draft.faults };

    ghost taken = { λ draft. Some draft.octets.items };

    ghost room = { λ _. None };

    fn write(&mut self, piece: &[u8]) -> Result<usize, Failed> {
        match self.octets.extend_from_slice(piece) {
            Ok(()) => Ok(piece.len()),
            Err(_) => {
                self.faults = self.faults.saturating_add(1);
                Err(Failed)
            }
        }
    }
}
