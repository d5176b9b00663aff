//! The fields that the bodies of all services are made of, read and written.
//!
//! A body is read from left to right. Each reader answers a value and the octets after it, or the fault of the first field
//! that can't stand. Each writer puts the one spelling of a value last.
#![tactic(auto)]

mod fault;
mod list;
mod named;
mod params;
mod reading;
mod values;
mod writing;

pub use fault::BodyFault;
pub use list::{ReadMember, WriteMember, read_list, write_list};
pub use named::{read_value_of, write_known_id, write_value_of};
pub use params::{ParamIds, check_param, is_listed, read_param_id};
pub use reading::{
    read_count, read_flag, read_interval, read_number, read_octets, read_time, whole,
};
pub use values::{read_form_number, read_value, write_form_number};
pub use writing::{
    or_undo, write_count, write_flag, write_interval, write_param_id, write_structure_id,
    write_time,
};
