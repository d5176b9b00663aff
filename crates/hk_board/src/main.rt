//! The simulated board: it runs a script, and writes the session record with the board's journal.
#![tactic(auto)]

ghost use Rattle.std.specs.Prelude.{◌≡◌, length, IfOk};

mod board;
mod running;
mod status;
mod words;

use crate::board::board_main;
use crate::status::BoardStatus;
use program_edge::{FileShelf, OutSink, complain, words};
use sampler_threads::Freeway;
use seed_sensors::SeedSensor;
use std::alloc::{AllocError, Global};
use std::io;
use std::process::ExitCode;

/// How many samplers the board has.
const SAMPLERS: usize = 4;

fn main(rt: HostRuntime) -> ExitCode {
    let status = match (words(&rt), simulated_sensors(rt.alloc())) {
        (Ok(words), Ok(mut sensors)) => {
            let mut shelf = FileShelf::new(&rt);
            let mut sink = OutSink::new(io::writer(&rt));
            board_main(
                &rt,
                rt.alloc(),
                &words,
                &mut shelf,
                &mut sink,
                &mut sensors,
                &Freeway,
            )
        }
        _ => BoardStatus::NoMemory,
    };
    if let Ok(text) = status.fault_text(rt.alloc()) {
        complain(&rt, &text);
    }
    ExitCode::from(status.number())
}

/// A sensor for each sampler.
fn simulated_sensors(alloc: Global) -> Result<Vec<SeedSensor>, AllocError>
    ensures { IfOk result (λ sensors. length sensors.items ≡ 4) }
{
    vec![in alloc; SeedSensor; SAMPLERS]
}
