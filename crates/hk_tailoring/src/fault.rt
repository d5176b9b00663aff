ghost use Rattle.std.specs.Prelude.{◌≡◌};
ghost use Rattle.hk_tailoring.specs.declared.fault.TailoringFault.TheVariants.{Memory as NoMemory};

use hk_base::{Key, Memory, Octets};
use std::alloc::{AllocError, AllocFailed};

/// The first fault of a tailoring file, with the path of the key and the value that was found.
#[derive(Debug, Drop)]
pub enum TailoringFault {
    NotToml,
    MissingKey(Octets),
    WrongKind(Octets),
    OutOfRange(Octets, i64),
    RepeatedParam(u32),
    UnknownParam(u32),
    RepeatedStructure(Key),
    BadRepetition(u32, u32),
    TooWide(u32),
    Doubled(u32),
    UnknownKey(Octets),
    TooLong,
    Memory,
}

impl From<Memory> for TailoringFault {
    ghost from_gives = { λ _ fault. fault ≡ NoMemory };

    fn from(_: Memory) -> TailoringFault {
        TailoringFault::Memory
    }
}

impl From<AllocError> for TailoringFault {
    ghost from_gives = { λ _ fault. fault ≡ NoMemory };

    fn from(_: AllocError) -> TailoringFault {
        TailoringFault::Memory
    }
}

impl<T: Drop> From<AllocFailed<T>> for TailoringFault {
    ghost from_gives = { λ _ fault. fault ≡ NoMemory };

    fn from(_: AllocFailed<T>) -> TailoringFault {
        TailoringFault::Memory
    }
}
