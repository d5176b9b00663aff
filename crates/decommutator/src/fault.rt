ghost use Rattle.std.specs.Prelude.{◌≡◌};
ghost use Rattle.session_record.specs.declared.entry.WriteFault.TheVariants as write;
ghost use Rattle.decommutator.specs.declared.fault.FollowFault.TheVariants as fault;

use ground_history::SentFault;
use hk_base::Memory;
use session_record::WriteFault;
use thiserror::Error;

/// Why an entry wasn't followed.
#[derive(Clone, Copy, Debug, PartialEq, Eq, Drop, Error)]
pub enum FollowFault {
    #[error("{0}")]
    Sent(SentFault),
    #[error("{0}")]
    Write(WriteFault),
}

impl From<SentFault> for FollowFault {
    ghost from_gives = { λ given e. e ≡ fault.Sent given };

    fn from(given: SentFault) -> FollowFault {
        FollowFault::Sent(given)
    }
}

impl From<WriteFault> for FollowFault {
    ghost from_gives = { λ given e. e ≡ fault.Write given };

    fn from(given: WriteFault) -> FollowFault {
        FollowFault::Write(given)
    }
}

impl From<Memory> for FollowFault {
    ghost from_gives = { λ _ e. e ≡ fault.Write write.Memory };

    fn from(_: Memory) -> FollowFault {
        FollowFault::Write(WriteFault::Memory)
    }
}
