//! What a record holds, and what can be wrong with one.
ghost use Rattle.std.specs.Prelude.{◌≡◌, is_some};
ghost use Rattle.session_record.specs.Faults.{is_cut, lasting};
ghost use Rattle.session_record.specs.declared.entry.RecordFault.TheVariants as fault;
ghost use Rattle.session_record.specs.declared.entry.WriteFault.TheVariants as write;

use hk_base::{Failed, Memory, Octets};
use std::alloc::AllocError;
use thiserror::Error;

/// What the ground saw or did: a request packet that it sent, a packet that it received, or a line of the journal.
#[derive(Debug, Drop)]
pub enum Entry {
    Sent(Octets),
    Got(Octets),
    Line(Octets),
}

/// Why no entry was read. A fault of the octets names the offset of the entry's first octet in the record.
#[derive(Clone, Copy, Debug, PartialEq, Eq, Drop, Error)]
pub enum RecordFault {
    #[error("the first 8 octets are no header of a record")]
    BadMagic,
    #[error("octet {0} at offset {1} is no kind of entry")]
    BadKind(u8, u64),
    #[error("the entry at offset {0} isn't all there")]
    Cut(u64),
    #[error("the entry at offset {0} ends past the most octets of a record")]
    TooLong(u64),
    #[error("the entry at offset {0} is one too many")]
    TooManyEntries(u64),
    #[error("the shelf failed")]
    ReadFault,
    #[error("out of memory")]
    Memory,
}

impl RecordFault {
    /// Whether an entry isn't all there.
    pub(crate) fn is_cut(&self) -> bool
        ensures { result ≡ is_cut self.now }
    {
        matches!(self, RecordFault::Cut(_))
    }

    /// Whether it is a fault of the octets.
    pub(crate) fn is_lasting(&self) -> bool
        ensures { result ≡ is_some (lasting self.now) }
    {
        !matches!(self, RecordFault::ReadFault | RecordFault::Memory)
    }
}

impl From<Failed> for RecordFault {
    ghost from_gives = { λ _ e. e ≡ fault.ReadFault };

    fn from(_: Failed) -> RecordFault {
        RecordFault::ReadFault
    }
}

impl From<Memory> for RecordFault {
    ghost from_gives = { λ _ e. e ≡ fault.Memory };

    fn from(_: Memory) -> RecordFault {
        RecordFault::Memory
    }
}

impl From<AllocError> for RecordFault {
    ghost from_gives = { λ _ e. e ≡ fault.Memory };

    fn from(_: AllocError) -> RecordFault {
        RecordFault::Memory
    }
}

/// Why an entry wasn't written, or only a first part of it.
#[derive(Clone, Copy, Debug, PartialEq, Eq, Drop, Error)]
pub enum WriteFault {
    #[error("the sink failed")]
    Failed,
    #[error("out of memory")]
    Memory,
}

impl From<Failed> for WriteFault {
    ghost from_gives = { λ _ e. e ≡ write.Failed };

    fn from(_: Failed) -> WriteFault {
        WriteFault::Failed
    }
}

impl From<Memory> for WriteFault {
    ghost from_gives = { λ _ e. e ≡ write.Memory };

    fn from(_: Memory) -> WriteFault {
        WriteFault::Memory
    }
}
