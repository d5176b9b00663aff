use hk_base::{Memory, Octets, Value};

/// What a parameter was in a slot.
#[derive(Clone, Copy, Debug, PartialEq, Eq, Drop)]
pub struct Sample {
    pub param: u32,
    pub slot: u64,
    pub value: Value,
}

/// What a board is given to do.
#[derive(Debug, Drop)]
pub enum Event {
    /// A request packet came, or octets that are none.
    Uplink(Octets),
    /// The time is at least this tag.
    Clock(u64),
    /// The first waiting request goes one step on.
    Work,
    /// A sensed parameter was sampled.
    Filing(Sample),
    /// The slot that runs ends.
    CloseSlot,
}

/// Why a step wasn't made.
#[derive(Clone, Copy, Debug, PartialEq, Eq, Drop)]
pub enum BoardFault {
    /// The journal would have more moments than it can hold.
    JournalFull,
    /// A tag would be greater than a packet can carry.
    TimeExhausted,
    /// There was no memory.
    Memory,
}

impl From<Memory> for BoardFault {
    ghost use Rattle.std.specs.Prelude.{◌≡◌};
    ghost use Rattle.board_steps.specs.declared.event.BoardFault.TheVariants as fault;

    ghost from_gives = { λ _ given. given ≡ fault.Memory };

    fn from(_: Memory) -> BoardFault {
        BoardFault::Memory
    }
}
