//! What the samplers file in the slots of a run.
#![tactic(auto)]

mod laws;

pub use laws::{
    samplers_can_be_ordered, samplers_go_on, samplers_hold_ends, slots_are_counted,
    slots_are_sampled, slots_begin_unfiled,
};
