//! The faults of bodies.
ghost use Rattle.std.specs.Prelude.{◌≡◌};
ghost use Rattle.body_fields.specs.declared.fault.BodyFault.TheVariants.{Memory};

use hk_base::Memory;
use std::alloc::{AllocError, AllocFailed};

/// The first fault of a body, numbered from 1 in this order.
#[derive(Clone, Copy, Debug, PartialEq, Eq, Drop)]
pub enum BodyFault {
    Short,
    Trailing(u32),
    ZeroCount,
    RepeatedKey(u32),
    UnknownParam(u32),
    BadRepetition(u32, u32),
    ZeroInterval,
    TooMany(u32),
    NotSettable(u32),
    LongInterval(u32),
    WrongValue(u32),
    NotNumeric(u32),
    Status(u8),
    Memory,
}

impl From<AllocError> for BodyFault {
    ghost from_gives = { λ _ fault. fault ≡ Memory };

    fn from(_: AllocError) -> BodyFault {
        BodyFault::Memory
    }
}

impl<T: Drop> From<AllocFailed<T>> for BodyFault {
    ghost from_gives = { λ _ fault. fault ≡ Memory };

    fn from(_: AllocFailed<T>) -> BodyFault {
        BodyFault::Memory
    }
}

impl From<Memory> for BodyFault {
    ghost from_gives = { λ _ fault. fault ≡ Memory };

    fn from(_: Memory) -> BodyFault {
        BodyFault::Memory
    }
}
