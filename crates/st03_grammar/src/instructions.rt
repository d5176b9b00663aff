ghost use Rattle.std.specs.Prelude.{◌≡◌, ◌≤◌, ◌<◌, ◌^◌, ◌∷◌, [], length, position, slice_get, option_map, IfSome, ℕ, Some};
ghost use Rattle.hk_base.specs.Parameters.{key_eq};
ghost use Rattle.st03_grammar.specs.Instructions as instructions;
ghost use Rattle.st03_grammar.specs.Instructions.{change_of, keyed_change, numbered_change, key_of, StructureChange, structure_changes, instruction_at, instruction_on, AreKeysApart};

use crate::bodies::{Change, Pair, Request03};
use hk_base::{Items, Key, Kind};

impl Request03 {
    /// The number of instructions: one for each structure that is named.
    pub fn count(&self) -> u32
        requires { length (structure_changes self.now) ≤ 2 ^ 31 }
        ensures { result ≡ length (structure_changes self.now) }
    {
        match self {
            Request03::Create(_, _) | Request03::Append(_, _) => 1,
            Request03::OnEach(_, _, ids) => ids.as_slice().len() as u32,
            Request03::Intervals(_, pairs) => pairs.as_slice().len() as u32,
        }
    }

    /// The instruction with this number, from 1, and the structure that it is on.
    pub fn at(&self, number: u32) -> Option<(Key, Change<'_>)>
        ensures { option_map keyed_change result ≡ instruction_at self.now number }
    {
        if number == 0 {
            return None;
        }
        self.instruction(number as usize - 1)
    }

    /// The instruction on this structure, with its number from 1: the first one, where a request names a structure twice.
    pub fn on_key(&self, key: Key) -> Option<(u32, Change<'_>)>
        requires { length (structure_changes self.now) ≤ 2 ^ 31 }
        ensures first { option_map numbered_change result ≡ instruction_on self.now key }
        ensures only { (n : ℕ) (change : StructureChange) → AreKeysApart self.now
            → instruction_at self.now n ≡ Some (key, change) → option_map numbered_change result ≡ Some (n, change) }
    {
        self.first_on(key)
    }

    /// The first instruction on this structure, with its number from 1.
    fn first_on(&self, key: Key) -> Option<(u32, Change<'_>)>
        requires { length (structure_changes self.now) ≤ 2 ^ 31 }
        ensures { option_map numbered_change result ≡ instruction_on self.now key }
    {
        let place = self.place_on(key)?;
        let (_, change) = self.instruction(place)?;
        Some((place as u32 + 1, change))
    }

    /// The instruction at this place, from 0.
    fn instruction(&self, place: usize) -> Option<(Key, Change<'_>)>
        ensures { option_map keyed_change result ≡ slice_get (structure_changes self.now) place }
    {
        match self {
            Request03::Create(key, def) => only(place, *key, Change::Create(def)),
            Request03::Append(key, added) => only(place, *key, Change::Append(added)),
            Request03::OnEach(each, kind, ids) => {
                let id = item_at(ids, place)?;
                Some((Key { kind: *kind, id }, Change::Plain(*each)))
            }
            Request03::Intervals(kind, pairs) => {
                let pair = item_at(pairs, place)?;
                let key = Key {
                    kind: *kind,
                    id: pair.id,
                };
                Some((key, Change::Interval(pair.interval)))
            }
        }
    }

    /// The place of the first instruction on this structure.
    fn place_on(&self, key: Key) -> Option<usize>
        ensures place { result ≡ instructions.place_on self.now key }
        ensures within { IfSome result (λ place. place < length (structure_changes self.now)) }
    {
        match self {
            Request03::Create(own, _) | Request03::Append(own, _) => {
                if is_same(*own, key) { Some(0) } else { None }
            }
            Request03::OnEach(_, kind, ids) => place_of_id(*kind, ids, key),
            Request03::Intervals(kind, pairs) => place_of_pair(*kind, pairs, key),
        }
    }
}

/// The one instruction, at place 0.
fn only(place: usize, key: Key, change: Change<'_>) -> Option<(Key, Change<'_>)>
    ensures { option_map keyed_change result ≡ slice_get ((key, change_of change.entry) ∷ []) place }
{
    if place == 0 {
        Some((key, change))
    } else {
        None
    }
}

fn item_at<T: Copy>(items: &Items<T>, place: usize) -> Option<T>
    ensures { result ≡ slice_get items.now place }
{
    items.as_slice().get(place).copied()
}

fn place_of_id(kind: Kind, ids: &Items<u32>, key: Key) -> Option<usize>
    ensures place { result ≡ position (λ id. key_eq (key_of kind id) key) ids.now }
    ensures within { IfSome result (λ place. place < length ids.now) }
{
    ids.as_slice()
        .iter()
        .position(|id| is_same(Key { kind, id: *id }, key))
}

fn place_of_pair(kind: Kind, pairs: &Items<Pair>, key: Key) -> Option<usize>
    ensures place { result ≡ position (λ p. key_eq (key_of kind p.id) key) pairs.now }
    ensures within { IfSome result (λ place. place < length pairs.now) }
{
    pairs
        .as_slice()
        .iter()
        .position(|pair| is_same(Key { kind, id: pair.id }, key))
}

fn is_same(a: Key, b: Key) -> bool
    ensures { result ≡ key_eq a b }
{
    a == b
}
