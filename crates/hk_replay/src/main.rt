//! The ground's decoder of housekeeping reports.
#![tactic(auto)]

mod checking;
mod entries;
mod generated;
mod jobs;
mod records;
mod replay;
mod rounds;
mod session;
mod status;
#[cfg(test)]
mod tests;
#[cfg(test)]
mod tests_below;
mod words;

use crate::replay::replay_main;
use crate::status::ReplayStatus;
use program_edge::{FileShelf, OutSink, complain, words};
use std::io;
use std::process::ExitCode;

fn main(rt: HostRuntime) -> ExitCode {
    let status = match words(&rt) {
        Ok(words) => {
            let mut sink = OutSink::new(io::writer(&rt));
            replay_main(rt.alloc(), &words, &mut FileShelf::new(&rt), &mut sink)
        }
        Err(_) => ReplayStatus::NoMemory,
    };
    if let Ok(text) = status.fault_text(rt.alloc()) {
        complain(&rt, &text);
    }
    ExitCode::from(status.number())
}
