//! What every other crate stands on: values, parameters, definitions of structures, the tailoring, the fields of packets,
//! and the traits of the outside.
#![tactic(auto)]

mod copies;
mod fields;
mod list;
mod listed;
mod mem_shelf;
mod mem_sink;
mod outside;
mod payload;
mod ranges;
mod standard;
mod table_sensor;
mod tailoring;
mod types;

pub use fields::{get_int, get_uint, put_int, put_uint, sign_extended};
pub use list::{Items, Octets};
pub use mem_shelf::MemShelf;
pub use mem_sink::MemSink;
pub use outside::{Failed, Sensor, Shelf, Sink};
pub use payload::payload_size;
pub use ranges::fits;
pub use standard::builtin;
pub use table_sensor::TableSensor;
pub use tailoring::{Tailoring, greatest_tag, slot_of};
pub use types::{
    BUILTIN_WIDTHS, Boot, Definition, Form, Key, Kind, Memory, Param, PayloadFault, Place,
    RequestId, Short, Structure, SuperList, Value, Widths,
};
