//! The bodies that words stand for.
ghost use Rattle.std.specs.Prelude.{◌≡◌};
ghost use Rattle.message_words.specs.Lines.{texts};
ghost use Rattle.message_words.specs.Outcomes.{Gives};
ghost use Rattle.message_words.specs.Reading.{most_octets, sound_body, housekeeping_in, statistics_in, request20_in, body_in};
ghost use Rattle.st03_grammar.specs.Bodies.{request_body as body03};
ghost use Rattle.st04_grammar.specs.Bodies.{request_body as body04};
ghost use Rattle.st20_grammar.specs.Bodies.{request_body as body20};

use crate::commands::{
    Command, StatisticsCommand, StructureCommand, ValueCommand, command_in, kind_in,
    statistics_subtype, structure_subtype, value_subtype,
};
use crate::fault::WordsFault;
use crate::octets::{put_statistics_request, put_structure_request, put_value_request};
use hk_base::Tailoring;
use pus_messages::RequestBody;
use st03_grammar::Request03;
use st04_grammar::Request04;
use st20_grammar::Request20;
use std::alloc::Global;

/// The most octets of a body that is looked at. A body of the grammar has fewer by far.
const MOST_OCTETS: usize = 1_048_576;

/// A body with its service and subtype.
#[derive(Debug, Drop)]
pub struct TypedBody {
    pub service: u8,
    pub subtype: u8,
    pub body: RequestBody,
}

/// The body that words are.
pub fn body_in(
    alloc: Global,
    tailoring: &Tailoring,
    words: &[&str],
) -> Result<TypedBody, WordsFault>
    ensures { Gives result (body_in tailoring.now (texts words.now)) }
{
    let [what, rest @ ..] = words else {
        return Err(WordsFault::Form);
    };
    match command_in(what) {
        Some(Command::Hk(command)) => structure_body(alloc, tailoring, command, rest),
        Some(Command::Stat(command)) => statistics_body(alloc, tailoring, command, rest),
        Some(Command::Par(command)) => value_body(alloc, tailoring, command, rest),
        None => Err(WordsFault::Form),
    }
}

/// The request on structures that words behind the first one are.
fn structure_body(
    alloc: Global,
    tailoring: &Tailoring,
    command: StructureCommand,
    words: &[&str],
) -> Result<TypedBody, WordsFault>
    ensures { Gives result (housekeeping_in tailoring.now command (texts words.now)) }
{
    let [kind, rest @ ..] = words else {
        return Err(WordsFault::Form);
    };
    let subtype = structure_subtype(command, kind_in(kind));
    let mut octets = Vec::new(alloc);
    put_structure_request(alloc, tailoring, command, rest, &mut octets)?;
    let request = decode03(alloc, tailoring, subtype, &octets)?;
    Ok(TypedBody {
        service: 3,
        subtype,
        body: RequestBody::Hk(request),
    })
}

fn decode03(
    alloc: Global,
    tailoring: &Tailoring,
    subtype: u8,
    octets: &[u8],
) -> Result<Request03, WordsFault>
    ensures { Gives result (sound_body (body03 tailoring.now subtype) octets.now) }
{
    if octets.len() > MOST_OCTETS || !st03_grammar::knows_request(subtype) {
        return Err(WordsFault::Form);
    }
    Ok(st03_grammar::decode_request(alloc, tailoring, subtype, octets)?)
}

/// The statistics request that words behind the first one are.
fn statistics_body(
    alloc: Global,
    tailoring: &Tailoring,
    command: StatisticsCommand,
    words: &[&str],
) -> Result<TypedBody, WordsFault>
    ensures { Gives result (statistics_in tailoring.now command (texts words.now)) }
{
    let subtype = statistics_subtype(command);
    let mut octets = Vec::new(alloc);
    put_statistics_request(tailoring, command, words, &mut octets)?;
    let request = decode04(alloc, tailoring, subtype, &octets)?;
    Ok(TypedBody {
        service: 4,
        subtype,
        body: RequestBody::Stat(request),
    })
}

fn decode04(
    alloc: Global,
    tailoring: &Tailoring,
    subtype: u8,
    octets: &[u8],
) -> Result<Request04, WordsFault>
    ensures { Gives result (sound_body (body04 tailoring.now subtype) octets.now) }
{
    if octets.len() > MOST_OCTETS || !st04_grammar::knows_request(subtype) {
        return Err(WordsFault::Form);
    }
    Ok(st04_grammar::decode_request(alloc, tailoring, subtype, octets)?)
}

/// The request on parameter values that words behind the first one are.
fn value_body(
    alloc: Global,
    tailoring: &Tailoring,
    command: ValueCommand,
    words: &[&str],
) -> Result<TypedBody, WordsFault>
    ensures { Gives result (request20_in tailoring.now command (texts words.now)) }
{
    let subtype = value_subtype(command);
    let mut octets = Vec::new(alloc);
    put_value_request(tailoring, command, words, &mut octets)?;
    let request = decode20(alloc, tailoring, subtype, &octets)?;
    Ok(TypedBody {
        service: 20,
        subtype,
        body: RequestBody::Par(request),
    })
}

fn decode20(
    alloc: Global,
    tailoring: &Tailoring,
    subtype: u8,
    octets: &[u8],
) -> Result<Request20, WordsFault>
    ensures { Gives result (sound_body (body20 tailoring.now subtype) octets.now) }
{
    if octets.len() > MOST_OCTETS || !st20_grammar::knows_request(subtype) {
        return Err(WordsFault::Form);
    }
    Ok(st20_grammar::decode_request(alloc, tailoring, subtype, octets)?)
}
