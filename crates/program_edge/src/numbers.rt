//! The exit statuses that the programs share. Numbers from 9 on are a program's own.

/// All was read and all was written.
pub const DONE: u8 = 0;

/// The words are no form of the command.
pub const USAGE: u8 = 2;

/// A tailoring has a fault.
pub const BAD_TAILORING: u8 = 3;

/// A record has a fault.
pub const BAD_RECORD: u8 = 4;

/// An input couldn't be selected or read.
pub const READ_FAULT: u8 = 5;

/// The output couldn't be written.
pub const WRITE_FAULT: u8 = 6;

/// Memory ran out.
pub const NO_MEMORY: u8 = 7;

/// A line of an input is refused.
pub const BAD_LINE: u8 = 8;
