//! Transcripts are replayed.
use crate::filing::{file, uplink};
use board_core::{BoardCore, Event};
use hk_base::{Items, Key, Kind, Memory, Octets, builtin};
use hk_world::Journal;
use journal_texts::journal_text;
use message_words::{number_in, wide_number_in};
use std::alloc::Global;

/// The transcript of what the lines of a transcript ask of a new board. A line that is indented tells what a board did, and is
/// passed over; another one has commands, which a comma and a blank divide.
pub(crate) fn replayed(alloc: Global, transcript: &str) -> Result<String, Memory> {
    let mut core = BoardCore::new(alloc, builtin(alloc)?)?;
    replay(alloc, &mut core, transcript)
}

fn replay(alloc: Global, core: &mut BoardCore, transcript: &str) -> Result<String, Memory> {
    let mut text = String::new(alloc);
    for line in transcript.lines() {
        if !line.starts_with(' ') {
            let first = core.journal().len();
            let answers = answers(alloc, core, line)?;
            text.push_str(line)?;
            text.push_str(answers.as_str())?;
            push_moments(alloc, &mut text, core.journal(), first)?;
        }
    }
    Ok(text)
}

/// The answers to the commands of a line.
fn answers(alloc: Global, core: &mut BoardCore, line: &str) -> Result<String, Memory> {
    let mut text = String::new(alloc);
    text.push_str("\n ")?;
    for command in line.split(", ") {
        let answer = answer(alloc, core, command)?;
        text.push_str(" ")?;
        text.push_str(answer.as_str())?;
    }
    text.push_str("\n")?;
    Ok(text)
}

/// Does what a command asks, and gives the answer.
fn answer(alloc: Global, core: &mut BoardCore, command: &str) -> Result<String, Memory> {
    let (word, rest) = command.split_once(' ').unwrap_or((command, ""));
    let answer = match word {
        "uplink" => Some(uplink(core, octets_in(alloc, rest)?)),
        "work" => Some(core.step(Event::Work)),
        "close" => Some(core.step(Event::CloseSlot)),
        "clock" => Some(core.step(Event::Clock(wide_number_in(rest)))),
        "file" => file(core, rest),
        _ => return shown(alloc, core, word, number_in(rest)),
    };
    match answer {
        Some(answer) => Ok(format!(in alloc; "{answer:?}")?),
        None => Ok(format!(in alloc; "no event")?),
    }
}

/// What a board shows.
fn shown(alloc: Global, core: &BoardCore, word: &str, number: u32) -> Result<String, Memory> {
    let hk = Key {
        kind: Kind::Housekeeping,
        id: number,
    };
    Ok(match word {
        "slot" => format!(in alloc; "{}", core.slot_now())?,
        "waiting" => format!(in alloc; "{}", core.waiting())?,
        "apid" => format!(in alloc; "{}", core.tailoring().widths().apid)?,
        "value" => format!(in alloc; "{:?}", core.value(number))?,
        "filed" => format!(in alloc; "{}", core.filed(number))?,
        "hk" => match core.structure(hk) {
            Some(structure) => format!(in alloc;
                "{} {}",
                structure.enabled, structure.def.interval
            )?,
            None => format!(in alloc; "none")?,
        },
        _ => format!(in alloc; "no command")?,
    })
}

/// The octets with these digits. None, where they are no such digits.
fn octets_in(alloc: Global, digits: &str) -> Result<Octets, Memory> {
    match hex::decode(alloc, digits) {
        Ok(octets) => Ok(Items::from_vec(octets)),
        Err(_) => Err(Memory),
    }
}

/// Appends the moments from this one on.
fn push_moments(
    alloc: Global,
    text: &mut String,
    journal: &Journal,
    first: u32,
) -> Result<(), Memory> {
    for number in first..journal.len() {
        if let Some(moment) = journal.at(number) {
            let line = journal_text(alloc, moment)?;
            if let Ok(line) = str::from_utf8(line.as_slice()) {
                text.push_str("    ")?;
                text.push_str(line)?;
                text.push_str("\n")?;
            }
        }
    }
    Ok(())
}
