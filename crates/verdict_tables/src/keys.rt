//! The structures that a request can change.
ghost use Rattle.std.specs.Prelude.{◌≡◌, ◌∷◌, [], IfOk, map, filter_map, if◌then◌else◌};
ghost use Rattle.st03_grammar.specs.Instructions.{each_changes, key_of, structure_changes};
ghost use Rattle.pus_messages.specs.Instructions.{on_structures};
ghost use Rattle.verdict_tables.specs.Places as places;
ghost use Rattle.verdict_tables.specs.Places.{changed_key};

use hk_base::{Key, Kind, Memory};
use pus_messages::{Request, RequestBody};
use st03_grammar::{Each, Pair, Request03};
use std::alloc::Global;

/// The structures that a request can change, in the order of its instructions.
pub(crate) fn changed_keys(alloc: Global, request: &Request) -> Result<Vec<Key>, Memory>
    ensures { IfOk result (λ keys. keys.items ≡ places.changed_keys request.now) }
{
    match &request.body {
        RequestBody::Hk(request) => changed_structures(alloc, request),
        RequestBody::Stat(_) | RequestBody::Par(_) => Ok(Vec::new(alloc)),
    }
}

fn changed_structures(alloc: Global, request: &Request03) -> Result<Vec<Key>, Memory>
    ensures { IfOk result (λ keys. keys.items ≡ filter_map changed_key (on_structures (structure_changes request.now))) }
{
    match request {
        Request03::Create(key, _) | Request03::Append(key, _) => only_key(alloc, *key),
        Request03::OnEach(each, kind, ids) => each_key(alloc, *each, *kind, ids.as_slice()),
        Request03::Intervals(kind, pairs) => interval_keys(alloc, *kind, pairs.as_slice()),
    }
}

fn only_key(alloc: Global, key: Key) -> Result<Vec<Key>, Memory>
    ensures { IfOk result (λ keys. keys.items ≡ key ∷ []) }
{
    let mut keys = Vec::new(alloc);
    keys.push(key)?;
    Ok(keys)
}

/// The structures of an instruction that names many, unless it only orders reports.
fn each_key(alloc: Global, each: Each, kind: Kind, ids: &[u32]) -> Result<Vec<Key>, Memory>
    ensures { IfOk result (λ keys. keys.items ≡ (if each_changes each then map (key_of kind) ids.now else [])) }
{
    if can_change(each) {
        keys_of(alloc, kind, ids)
    } else {
        Ok(Vec::new(alloc))
    }
}

fn can_change(each: Each) -> bool
    ensures { result ≡ each_changes each }
{
    match each {
        Each::Delete | Each::Enable | Each::Disable => true,
        Each::Show | Each::OneShot | Each::ShowPeriodic => false,
    }
}

fn keys_of(alloc: Global, kind: Kind, ids: &[u32]) -> Result<Vec<Key>, Memory>
    ensures { IfOk result (λ keys. keys.items ≡ map (key_of kind) ids.now) }
{
    let mut keys = Vec::new(alloc);
    for id in ids {
        keys.push(Key { kind, id: *id })?;
    }
    Ok(keys)
}

fn interval_keys(alloc: Global, kind: Kind, pairs: &[Pair]) -> Result<Vec<Key>, Memory>
    ensures { IfOk result (λ keys. keys.items ≡ map (λ pair. key_of kind pair.id) pairs.now) }
{
    let mut keys = Vec::new(alloc);
    for pair in pairs {
        keys.push(Key { kind, id: pair.id })?;
    }
    Ok(keys)
}
