//! How a run ended.
ghost use Rattle.std.specs.Prelude.{◌≡◌, IfOk};
ghost use Rattle.hk_board.specs.Faults as told;
ghost use Rattle.hk_board.specs.Faults.{fault_text, status_number, status_of_board, status_of_run, status_of_script, status_of_writing};
ghost use Rattle.hk_board.specs.declared.status.BoardStatus.TheVariants as status;

use board_core::BoardFault;
use board_scripts::ScriptFault;
use hk_base::{Memory, Octets};
use hk_tailoring::TailoringFault;
use program_edge::{
    BAD_LINE, BAD_TAILORING, DONE, NO_MEMORY, READ_FAULT, RunFault, USAGE, WRITE_FAULT, line_text,
    plain_text, tailoring_text,
};
use session_record::WriteFault;
use std::alloc::Global;

/// The board can't go on.
const BOARD_STOPPED: u8 = 9;

/// How a run ended.
#[derive(Debug, Drop)]
pub enum BoardStatus {
    /// All was read and all was written.
    Done,
    /// The words are no form of the command.
    Usage,
    /// The tailoring has a fault. `Memory` never stands here: it is a status of its own.
    Tailoring(TailoringFault),
    /// An input couldn't be selected or read.
    ReadFault,
    /// The output couldn't be written.
    WriteFault,
    /// Memory ran out.
    NoMemory,
    /// The line of the script with this number, from 1, is refused. With 0 the script is too long.
    Script(u32),
    /// The board can't go on: its journal is full, or its time is exhausted. `Memory` never stands here: it is a status of its own.
    Board(BoardFault),
}

impl From<Memory> for BoardStatus {
    ghost from_gives = { λ _ e. e ≡ status.NoMemory };

    fn from(_: Memory) -> BoardStatus {
        BoardStatus::NoMemory
    }
}

impl From<RunFault> for BoardStatus {
    ghost from_gives = { λ fault e. e ≡ status_of_run fault };

    fn from(fault: RunFault) -> BoardStatus {
        match fault {
            RunFault::Tailoring(fault) => BoardStatus::Tailoring(fault),
            RunFault::ReadFault => BoardStatus::ReadFault,
            RunFault::WriteFault => BoardStatus::WriteFault,
            _ => BoardStatus::NoMemory,
        }
    }
}

impl From<ScriptFault> for BoardStatus {
    ghost from_gives = { λ fault e. e ≡ status_of_script fault };

    fn from(fault: ScriptFault) -> BoardStatus {
        match fault {
            ScriptFault::Line(line) => BoardStatus::Script(line),
            ScriptFault::ReadFault => BoardStatus::ReadFault,
            ScriptFault::Memory => BoardStatus::NoMemory,
        }
    }
}

impl From<WriteFault> for BoardStatus {
    ghost from_gives = { λ fault e. e ≡ status_of_writing fault };

    fn from(fault: WriteFault) -> BoardStatus {
        match fault {
            WriteFault::Failed => BoardStatus::WriteFault,
            WriteFault::Memory => BoardStatus::NoMemory,
        }
    }
}

impl From<BoardFault> for BoardStatus {
    ghost from_gives = { λ fault e. e ≡ status_of_board fault };

    fn from(fault: BoardFault) -> BoardStatus {
        match fault {
            BoardFault::Memory => BoardStatus::NoMemory,
            fault => BoardStatus::Board(fault),
        }
    }
}

impl BoardStatus {
    /// The exit status of the program.
    pub fn number(&self) -> u8
        ensures { result ≡ status_number self.now }
    {
        match self {
            BoardStatus::Done => DONE,
            BoardStatus::Usage => USAGE,
            BoardStatus::Tailoring(_) => BAD_TAILORING,
            BoardStatus::ReadFault => READ_FAULT,
            BoardStatus::WriteFault => WRITE_FAULT,
            BoardStatus::NoMemory => NO_MEMORY,
            BoardStatus::Script(_) => BAD_LINE,
            BoardStatus::Board(_) => BOARD_STOPPED,
        }
    }

    /// What is printed of it: nothing of `Done`, else a line without its end.
    pub fn fault_text(&self, alloc: Global) -> Result<Octets, Memory>
        ensures { IfOk result (λ text. text ≡ fault_text self.now) }
    {
        match self {
            BoardStatus::Done => plain_text(alloc, ""),
            BoardStatus::Usage => plain_text(alloc, "usage"),
            BoardStatus::Tailoring(fault) => tailoring_text(alloc, fault),
            BoardStatus::ReadFault => plain_text(alloc, "read fault"),
            BoardStatus::WriteFault => plain_text(alloc, "write fault"),
            BoardStatus::NoMemory => plain_text(alloc, "no memory"),
            BoardStatus::Script(line) => line_text(alloc, *line),
            BoardStatus::Board(fault) => plain_text(alloc, board_text(*fault)),
        }
    }
}

/// The text of a fault of the board.
fn board_text(fault: BoardFault) -> &'static str
    ensures { result.now ≡ told.board_text fault }
{
    match fault {
        BoardFault::JournalFull => "board: journal full",
        BoardFault::TimeExhausted => "board: time exhausted",
        BoardFault::Memory => "no memory",
    }
}
