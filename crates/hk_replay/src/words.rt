//! The words of the command line.
ghost use Rattle.std.specs.Prelude.{◌≡◌, map};
ghost use Rattle.std.specs.Option.{option_map};
ghost use Rattle.std.specs.String.{string_bytes};
ghost use Rattle.program_edge.specs.Decimals.{number_within};
ghost use Rattle.program_edge.specs.Names.{named};
ghost use Rattle.hk_replay.specs.Words.{command_of, command_of_two, command_with, generate_with};
ghost use Rattle.hk_replay.specs.Asked.{asked};

use crate::rounds::Rounds;
use program_edge::{TailoringName, decimal_within, tailoring_named};

/// What a run is asked to do.
#[derive(Clone, Copy)]
pub enum Command<'a> {
    /// To make something of its inputs, and to write it when it is whole.
    Make(Job<'a>),
    /// To do something with the record of this name under a tailoring.
    OnRecord(RecordCommand, TailoringName<'a>, &'a str),
}

/// What is done with a record under a tailoring.
#[derive(Clone, Copy)]
pub enum RecordCommand {
    /// The text of its session is written when all of it was read.
    Replay,
    /// What can be told for sure is written as it is read, and the rest at the end.
    Follow,
    /// A line for each entry is written as it is read.
    Show,
}

/// What is made of the inputs.
#[derive(Clone, Copy)]
pub enum Job<'a> {
    /// The record of the requests whose words are the lines of this name.
    Encode(TailoringName<'a>, &'a str),
    /// The line that says that a tailoring is without fault.
    Check(TailoringName<'a>),
    /// The whole entries of the record of this name.
    Trim(&'a str),
    /// The numbers of the session that this seed and so many rounds make.
    Generate(u32, Rounds),
}

/// The command that the words are, if they are one of the forms `replay TAILORING RECORD`, `follow TAILORING RECORD`,
/// `show TAILORING RECORD`, `encode TAILORING LINES`, `generate SEED ROUNDS`, `check TAILORING` and `trim RECORD`.
pub fn command_in(words: &[String]) -> Option<Command<'_>>
    ensures { option_map asked result ≡ command_of (map string_bytes words.now) }
{
    match words {
        [form, first, second] => command_on(form.as_str(), first.as_str(), second.as_str()),
        [form, tailoring] if form.as_str() == "check" => {
            Some(Command::Make(Job::Check(tailoring_named(tailoring.as_str()))))
        }
        [form, name] if form.as_str() == "trim" => Some(Command::Make(Job::Trim(name.as_str()))),
        _ => None,
    }
}

/// The command of a form with two words.
#[tactic(auto, unfolding(crate::specs::Words::command_of_two))]
fn command_on<'a>(form: &str, first: &'a str, second: &'a str) -> Option<Command<'a>>
    ensures { option_map asked result ≡ command_of_two form.now first.now second.now }
{
    if form == "generate" {
        return generation(first, second);
    }
    command_under(form, tailoring_named(first), second)
}

/// The command of a form with a tailoring and another input.
fn command_under<'a>(form: &str, tailoring: TailoringName<'a>, name: &'a str) -> Option<Command<'a>>
    ensures { option_map asked result ≡ command_with form.now (named tailoring.entry) name.now }
{
    if form == "replay" {
        Some(Command::OnRecord(RecordCommand::Replay, tailoring, name))
    } else if form == "follow" {
        Some(Command::OnRecord(RecordCommand::Follow, tailoring, name))
    } else if form == "show" {
        Some(Command::OnRecord(RecordCommand::Show, tailoring, name))
    } else if form == "encode" {
        Some(Command::Make(Job::Encode(tailoring, name)))
    } else {
        None
    }
}

/// The command of a seed and a number of rounds.
fn generation<'a>(seed: &str, rounds: &str) -> Option<Command<'a>>
    ensures { option_map asked result ≡ generate_with (number_within 0 4294967295 seed.now) (number_within 1 100000 rounds.now) }
{
    let seed = decimal_within(0, u64::from(u32::MAX), seed)? as u32;
    let count = decimal_within(1, 100_000, rounds)? as u32;
    Some(Command::Make(Job::Generate(seed, Rounds { count })))
}
