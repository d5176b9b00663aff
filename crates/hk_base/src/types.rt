use crate::list::Items;
use std::alloc::{AllocError, AllocFailed};

/// An engineering value before calibration.
pub type Value = i128;

/// Whether a report structure is of housekeeping or of diagnostics.
#[derive(Clone, Copy, Debug, PartialEq, Eq, PartialOrd, Ord, Drop)]
pub enum Kind {
    Housekeeping,
    Diagnostic,
}

/// What names a report structure.
#[derive(Clone, Copy, Debug, PartialEq, Eq, PartialOrd, Ord, Drop)]
pub struct Key {
    pub kind: Kind,
    pub id: u32,
}

/// How a parameter's octets are read.
#[derive(Debug, Drop)]
pub enum Form {
    Unsigned,
    Signed,
    Enumerated(Items<Value>),
    Boolean,
}

/// A parameter. One with an initial value is settable, every other one is sensed.
#[derive(Debug, Drop)]
pub struct Param {
    pub id: u32,
    pub form: Form,
    pub octets: u8,
    pub bits: u8,
    pub initial: Option<Value>,
}

/// A super-commutated array: its parameters are sampled `repetition` times an interval.
#[derive(Debug, Drop)]
pub struct SuperList {
    pub repetition: u32,
    pub params: Items<u32>,
}

/// What a report structure samples, and how often.
#[derive(Debug, Drop)]
pub struct Definition {
    pub interval: u32,
    pub simple: Items<u32>,
    pub arrays: Items<SuperList>,
}

/// A report structure with its status.
#[derive(Debug, Drop)]
pub struct Structure {
    pub def: Definition,
    pub enabled: bool,
}

/// A structure that is there from the start.
#[derive(Debug, Drop)]
pub struct Boot {
    pub key: Key,
    pub structure: Structure,
}

/// The field widths and limits of a tailoring.
#[derive(Clone, Copy, Debug, PartialEq, Eq, Drop)]
pub struct Widths {
    pub apid: u16,
    pub ground: u16,
    pub coarse: u8,
    pub fine: u8,
    pub slot: u64,
    pub tc_checksum: bool,
    pub tm_checksum: bool,
    pub packed: bool,
    pub structure_octets: u8,
    pub parameter_octets: u8,
    pub interval_octets: u8,
    pub count_octets: u8,
    pub repetition_octets: u8,
    pub step_octets: u8,
    pub mean_fraction: u8,
    pub max_interval: u32,
    pub max_payload: u32,
}

/// The first four octets of a request packet.
#[derive(Clone, Copy, Debug, PartialEq, Eq, Drop)]
pub struct RequestId {
    pub word: u32,
}

/// Where a sample of a report was taken.
#[derive(Clone, Copy, Debug, PartialEq, Eq, Drop)]
pub struct Place {
    pub param: u32,
    pub slot: u64,
}

/// Why octets are no payload of a definition.
#[derive(Clone, Copy, Debug, PartialEq, Eq, Drop)]
pub enum PayloadFault {
    WrongSize(u32, u32),
    WrongValue(u32),
    Padding(u32),
    Memory,
}

/// There was no memory.
#[derive(Clone, Copy, Debug, PartialEq, Eq, Drop)]
pub struct Memory;

impl From<AllocError> for Memory {
    fn from(_: AllocError) -> Memory {
        Memory
    }
}

impl<T: Drop> From<AllocFailed<T>> for Memory {
    fn from(_: AllocFailed<T>) -> Memory {
        Memory
    }
}

/// There were too few octets.
#[derive(Clone, Copy, Debug, PartialEq, Eq, Drop)]
pub struct Short;

/// The widths of the built-in tailoring.
pub const BUILTIN_WIDTHS: Widths = Widths {
    apid: 100,
    ground: 1,
    coarse: 4,
    fine: 2,
    slot: 4096,
    tc_checksum: false,
    tm_checksum: false,
    packed: false,
    structure_octets: 1,
    parameter_octets: 2,
    interval_octets: 2,
    count_octets: 1,
    repetition_octets: 1,
    step_octets: 1,
    mean_fraction: 0,
    max_interval: 4096,
    max_payload: 1024,
};
