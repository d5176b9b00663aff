//! How a run ends early, as far as the programs share it.
ghost use Rattle.std.specs.Prelude.{◌≡◌};
ghost use Rattle.program_edge.specs.Faults.{fault_of_record, fault_of_tailoring, fault_of_writing};
ghost use Rattle.program_edge.specs.declared.fault.RunFault.TheVariants as run;

use hk_base::Memory;
use hk_tailoring::TailoringFault;
use session_record::{RecordFault, WriteFault};
use std::alloc::AllocError;

/// Why a run ended early, by a cause that programs share. A program's status is made from it by `From`.
#[derive(Debug, Drop)]
pub enum RunFault {
    /// The tailoring has a fault. `Memory` never stands here: it is a fault of its own.
    Tailoring(TailoringFault),
    /// The octets of a record have a fault. `ReadFault` and `Memory` never stand here: they are faults of their own.
    Record(RecordFault),
    /// The line of an input with this number, from 1, is refused. With 0 the lines are too long.
    Line(u32),
    /// An input couldn't be selected or read.
    ReadFault,
    /// The output couldn't be written.
    WriteFault,
    /// Memory ran out.
    NoMemory,
}

impl From<Memory> for RunFault {
    ghost from_gives = { λ _ e. e ≡ run.NoMemory };

    fn from(_: Memory) -> RunFault {
        RunFault::NoMemory
    }
}

impl From<AllocError> for RunFault {
    ghost from_gives = { λ _ e. e ≡ run.NoMemory };

    fn from(_: AllocError) -> RunFault {
        RunFault::NoMemory
    }
}

impl From<TailoringFault> for RunFault {
    ghost from_gives = { λ fault e. e ≡ fault_of_tailoring fault };

    fn from(fault: TailoringFault) -> RunFault {
        match fault {
            TailoringFault::Memory => RunFault::NoMemory,
            fault => RunFault::Tailoring(fault),
        }
    }
}

impl From<RecordFault> for RunFault {
    ghost from_gives = { λ fault e. e ≡ fault_of_record fault };

    fn from(fault: RecordFault) -> RunFault {
        match fault {
            RecordFault::ReadFault => RunFault::ReadFault,
            RecordFault::Memory => RunFault::NoMemory,
            fault => RunFault::Record(fault),
        }
    }
}

impl From<WriteFault> for RunFault {
    ghost from_gives = { λ fault e. e ≡ fault_of_writing fault };

    fn from(fault: WriteFault) -> RunFault {
        match fault {
            WriteFault::Failed => RunFault::WriteFault,
            WriteFault::Memory => RunFault::NoMemory,
        }
    }
}
