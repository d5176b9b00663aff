//! How a run ended.
ghost use Rattle.std.specs.Prelude.{◌≡◌, IfOk};
ghost use Rattle.std.specs.String.{string_bytes};
ghost use Rattle.hk_replay.specs.Faults.{entry_text, fault_text, problem_text, status_number, status_of_entry, status_of_fault, status_of_following, status_of_run};
ghost use Rattle.hk_replay.specs.declared.status.ReplayStatus.TheVariants as status;

use followed_records::FollowingFault;
use ground_history::SentFault;
use hk_base::{Items, Memory, Octets};
use hk_tailoring::TailoringFault;
use program_edge::{
    BAD_LINE, BAD_RECORD, BAD_TAILORING, DONE, NO_MEMORY, READ_FAULT, RunFault, USAGE, WRITE_FAULT,
    format_text, line_text, plain_text, tailoring_text,
};
use session_record::RecordFault;
use session_texts::RecordProblem;
use std::alloc::{AllocError, Global};
use std::fmt::Write;

/// How a run ended.
#[derive(Debug, Drop)]
pub enum ReplayStatus {
    /// All was read and all was written.
    Done,
    /// The words are no form of the command.
    Usage,
    /// The tailoring has a fault. `Memory` never stands here: it is a status of its own.
    Tailoring(TailoringFault),
    /// The record has a fault: of its format, or of a request in it. `ReadFault` and `Memory` never stand here: they are statuses of
    /// their own.
    Record(RecordProblem),
    /// An input couldn't be selected or read.
    ReadFault,
    /// The output couldn't be written.
    WriteFault,
    /// Memory ran out.
    NoMemory,
    /// The line with this number, from 1, isn't the words of the request that stands there. With 0 the lines are too long.
    Text(u32),
}

impl From<Memory> for ReplayStatus {
    ghost from_gives = { λ _ e. e ≡ status.NoMemory };

    fn from(_: Memory) -> ReplayStatus {
        ReplayStatus::NoMemory
    }
}

impl From<RunFault> for ReplayStatus {
    ghost from_gives = { λ fault e. e ≡ status_of_run fault };

    fn from(fault: RunFault) -> ReplayStatus {
        match fault {
            RunFault::Tailoring(fault) => ReplayStatus::Tailoring(fault),
            RunFault::Record(fault) => ReplayStatus::Record(RecordProblem::Format(fault)),
            RunFault::Line(line) => ReplayStatus::Text(line),
            RunFault::ReadFault => ReplayStatus::ReadFault,
            RunFault::WriteFault => ReplayStatus::WriteFault,
            RunFault::NoMemory => ReplayStatus::NoMemory,
        }
    }
}

impl From<AllocError> for ReplayStatus {
    ghost from_gives = { λ _ e. e ≡ status.NoMemory };

    fn from(_: AllocError) -> ReplayStatus {
        ReplayStatus::NoMemory
    }
}

impl From<RecordFault> for ReplayStatus {
    ghost from_gives = { λ fault e. e ≡ status_of_fault fault };

    fn from(fault: RecordFault) -> ReplayStatus {
        match fault {
            RecordFault::ReadFault => ReplayStatus::ReadFault,
            RecordFault::Memory => ReplayStatus::NoMemory,
            fault => ReplayStatus::Record(RecordProblem::Format(fault)),
        }
    }
}

impl From<FollowingFault> for ReplayStatus {
    ghost from_gives = { λ fault e. e ≡ status_of_following fault };

    fn from(fault: FollowingFault) -> ReplayStatus {
        match fault {
            FollowingFault::Record(problem) => ReplayStatus::Record(problem),
            FollowingFault::ReadFault => ReplayStatus::ReadFault,
            FollowingFault::WriteFault => ReplayStatus::WriteFault,
            FollowingFault::Memory => ReplayStatus::NoMemory,
        }
    }
}

impl ReplayStatus {
    /// How a run ends by a request that can't stand in the entry at this offset.
    pub fn of_entry(fault: SentFault, offset: u64) -> ReplayStatus
        ensures { result ≡ status_of_entry fault offset }
    {
        match fault {
            SentFault::Memory => ReplayStatus::NoMemory,
            fault => ReplayStatus::Record(RecordProblem::Entry(fault, offset)),
        }
    }

    /// The exit status of the program.
    pub fn number(&self) -> u8
        ensures { result ≡ status_number self.now }
    {
        match self {
            ReplayStatus::Done => DONE,
            ReplayStatus::Usage => USAGE,
            ReplayStatus::Tailoring(_) => BAD_TAILORING,
            ReplayStatus::Record(_) => BAD_RECORD,
            ReplayStatus::ReadFault => READ_FAULT,
            ReplayStatus::WriteFault => WRITE_FAULT,
            ReplayStatus::NoMemory => NO_MEMORY,
            ReplayStatus::Text(_) => BAD_LINE,
        }
    }

    /// What is printed of it: nothing of `Done`, else a line without its end.
    pub fn fault_text(&self, alloc: Global) -> Result<Octets, Memory>
        ensures { IfOk result (λ text. text ≡ fault_text self.now) }
    {
        match self {
            ReplayStatus::Done => plain_text(alloc, ""),
            ReplayStatus::Usage => plain_text(alloc, "usage"),
            ReplayStatus::Tailoring(fault) => tailoring_text(alloc, fault),
            ReplayStatus::Record(problem) => problem_text(alloc, *problem),
            ReplayStatus::ReadFault => plain_text(alloc, "read fault"),
            ReplayStatus::WriteFault => plain_text(alloc, "write fault"),
            ReplayStatus::NoMemory => plain_text(alloc, "no memory"),
            ReplayStatus::Text(line) => line_text(alloc, *line),
        }
    }
}

/// The text of what is wrong with a record.
fn problem_text(alloc: Global, problem: RecordProblem) -> Result<Octets, Memory>
    ensures { IfOk result (λ text. text ≡ problem_text problem) }
{
    match problem {
        RecordProblem::Format(fault) => format_text(alloc, fault),
        RecordProblem::Entry(fault, offset) => {
            let text = entry_text(alloc, fault, offset)?;
            Ok(Items::from_vec(text.into_bytes()))
        }
    }
}

/// The text of a request that can't stand in the entry at this offset.
fn entry_text(alloc: Global, fault: SentFault, offset: u64) -> Result<String, AllocError>
    ensures { IfOk result (λ text. string_bytes text ≡ entry_text fault offset) }
{
    let mut text = String::new(alloc);
    match fault {
        SentFault::BadRequest => write!(text, "record: bad request at {offset}")?,
        SentFault::WrongCount(expected, found) => write!(
            text,
            "record: wrong count {found} for {expected} at {offset}"
        )?,
        SentFault::Reused(count) => write!(text, "record: reused count {count} at {offset}")?,
        SentFault::SessionFull => write!(text, "record: session full at {offset}")?,
        SentFault::WindowFull(_) => write!(text, "record: window full at {offset}")?,
        SentFault::Memory => write!(text, "no memory")?,
    }
    Ok(text)
}
