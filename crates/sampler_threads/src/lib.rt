//! Samplers in threads of their own beside the executor of a board, joined by rings.
#![tactic(auto)]

mod arms;
mod crew;
mod end;
mod executor;
mod gate;
mod item;
mod laws;
mod orders;
mod rings;
mod slot;
mod steps;
#[cfg(test)]
mod tests;

pub use crew::samplers_of;
pub use end::SamplerEnd;
pub use executor::Executor;
pub use gate::{At, Freeway, Gate};
pub use item::{Item, Order, Taken};
pub use laws::orders_are_due;
pub use slot::{Sampler, run_slot};
