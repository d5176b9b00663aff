ghost use Rattle.std.specs.Prelude.{◌≡◌, ◌≤◌, ◌^◌, length, option_map};
ghost use Rattle.st03_grammar.specs.Instructions.{change_of, changes, numbered_change, structure_changes};
ghost use Rattle.st04_grammar.specs.Instructions.{statistics_changes};
ghost use Rattle.pus_messages.specs.Instructions as specs;
ghost use Rattle.pus_messages.specs.Instructions.{on_structures};
ghost use Rattle.pus_messages.specs.Changes.{change_among, change_by};

use crate::message::{Request, RequestBody};
use hk_base::Key;
use st03_grammar::{Change, Each, Request03};
use st04_grammar::Request04;

/// The number of instructions: 1 to 255 in a request of the grammar.
pub fn instructions(request: &Request) -> u32
    requires { length (specs.instructions request.now) ≤ 2 ^ 31 }
    ensures { result ≡ length (specs.instructions request.now) }
{
    match &request.body {
        RequestBody::Hk(request) => request.count(),
        RequestBody::Stat(request) => statistics_instructions(request),
        RequestBody::Par(_) => 1,
    }
}

/// The change that a request makes of this structure, with the number of its instruction, from 1: the first one, where it
/// makes several. An instruction that only orders a report is none.
pub fn changes_on(request: &Request, key: Key) -> Option<(u32, Change<'_>)>
    requires { length (specs.instructions request.now) ≤ 2 ^ 31 }
    ensures { option_map numbered_change result ≡ change_by key request.now }
{
    match &request.body {
        RequestBody::Hk(request) => structure_change(request, key),
        RequestBody::Stat(_) | RequestBody::Par(_) => None,
    }
}

fn structure_change(request: &Request03, key: Key) -> Option<(u32, Change<'_>)>
    requires { length (structure_changes request.now) ≤ 2 ^ 31 }
    ensures { option_map numbered_change result ≡ change_among key (on_structures (structure_changes request.now)) }
{
    let (number, change) = request.on_key(key)?;
    if can_change(&change) {
        Some((number, change))
    } else {
        None
    }
}

fn statistics_instructions(request: &Request04) -> u32
    requires { length (statistics_changes request.now) ≤ 2 ^ 31 }
    ensures { result ≡ length (statistics_changes request.now) }
{
    match request {
        Request04::Add(ids) => ids.as_slice().len() as u32,
        Request04::Delete(ids) if !ids.as_slice().is_empty() => ids.as_slice().len() as u32,
        _ => 1,
    }
}

/// Whether an instruction can change its structure.
fn can_change(change: &Change<'_>) -> bool
    ensures { result ≡ changes (change_of change.now) }
{
    match change {
        Change::Plain(Each::Show | Each::OneShot | Each::ShowPeriodic) => false,
        _ => true,
    }
}
