//! Why not all of a record was followed.
ghost use Rattle.std.specs.Prelude.{◌≡◌};
ghost use Rattle.followed_records.specs.Faults.{fault_of_entry, fault_of_following, fault_of_reading, fault_of_writing};
ghost use Rattle.followed_records.specs.declared.fault.FollowingFault.TheVariants as following;

use decommutator::FollowFault;
use ground_history::SentFault;
use hk_base::Memory;
use session_record::{RecordFault, WriteFault};
use session_texts::RecordProblem;

/// Why not all of a record was followed.
#[derive(Clone, Copy, Debug, PartialEq, Eq, Drop)]
pub enum FollowingFault {
    /// The first problem of the record. `ReadFault` and `Memory` never stand here.
    Record(RecordProblem),
    /// The shelf failed.
    ReadFault,
    /// The sink failed.
    WriteFault,
    /// There was no memory.
    Memory,
}

impl From<Memory> for FollowingFault {
    ghost from_gives = { λ _ e. e ≡ following.Memory };

    fn from(_: Memory) -> FollowingFault {
        FollowingFault::Memory
    }
}

impl From<RecordFault> for FollowingFault {
    ghost from_gives = { λ fault e. e ≡ fault_of_reading fault };

    fn from(fault: RecordFault) -> FollowingFault {
        match fault {
            RecordFault::ReadFault => FollowingFault::ReadFault,
            RecordFault::Memory => FollowingFault::Memory,
            fault => FollowingFault::Record(RecordProblem::Format(fault)),
        }
    }
}

impl From<WriteFault> for FollowingFault {
    ghost from_gives = { λ fault e. e ≡ fault_of_writing fault };

    fn from(fault: WriteFault) -> FollowingFault {
        match fault {
            WriteFault::Failed => FollowingFault::WriteFault,
            WriteFault::Memory => FollowingFault::Memory,
        }
    }
}

impl FollowingFault {
    /// A request that can't stand in the entry at this offset.
    pub fn of_entry(fault: SentFault, offset: u64) -> FollowingFault
        ensures { result ≡ fault_of_entry fault offset }
    {
        match fault {
            SentFault::Memory => FollowingFault::Memory,
            fault => FollowingFault::Record(RecordProblem::Entry(fault, offset)),
        }
    }

    /// An entry at this offset that wasn't followed.
    pub fn of_following(fault: FollowFault, offset: u64) -> FollowingFault
        ensures { result ≡ fault_of_following fault offset }
    {
        match fault {
            FollowFault::Sent(fault) => FollowingFault::of_entry(fault, offset),
            FollowFault::Write(fault) => fault.into(),
        }
    }
}
