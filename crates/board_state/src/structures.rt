//! The report structures, with the slots that their intervals go by.
ghost use Rattle.std.specs.Prelude.{◌≡◌, ◌≤◌, ◌+◌, ◌==◌, [], map, Some, None, IsSome, IfSome, IfOk, OnOk, OnErr};
ghost use Rattle.std.specs.List.{AllByRecursion, IsDistinct};
ghost use Rattle.std.specs.Option.{option_copied};
ghost use Rattle.board_state.specs.Holdings.{held_at, held_structure, ChangesAt, SetsAt, new_held, with_one_shot, with_structure, ends_one_shot, is_due_in, due_keys, after_slot, all_after_slot, one_shots_of, AreRisingKeys, AreBoots, AreStructures};
ghost use Rattle.board_steps.specs.Slots as slots;
ghost use Rattle.hk_base.specs.Parameters.{key_eq};

use hk_base::{Boot, Key, Memory, Structure, Tailoring};
use std::alloc::Global;
use std::collections::BTreeMap;
use std::marker::Model;

/// A structure with its first slot, and the first slot of its one-shot, if one is pending.
#[derive(Drop)]
pub struct Held {
    pub structure: Structure,
    pub first_slot: u64,
    pub one_shot: Option<u64>,
}

impl Held {
    /// Whether the one-shot is due in this slot.
    pub fn is_spent(&self, slot: u64) -> bool
        ensures { result ≡ ends_one_shot slot self.now }
    {
        match self.one_shot {
            Some(first) => ends_with(first, self.structure.def.interval, slot),
            None => false,
        }
    }

    /// Whether a report is due in this slot.
    pub fn is_due(&self, slot: u64) -> bool
        requires { 1 ≤ self.now.structure.def.interval }
        ensures { result ≡ is_due_in slot self.now }
    {
        let interval = u64::from(self.structure.def.interval);
        (self.structure.enabled && ends_interval(self.first_slot, interval, slot))
            || self.is_spent(slot)
    }

    /// Ends the one-shot where it is due in this slot.
    fn end_slot(&mut self, slot: u64)
        ensures { self.new ≡ after_slot slot self.old }
    {
        if self.is_spent(slot) {
            self.one_shot = None;
        }
    }

    /// Begins the intervals anew with this slot.
    fn begin(&mut self, slot: u64)
        ensures { self.new ≡ with_structure self.old.structure (Some slot) self.old }
    {
        self.first_slot = slot;
        if self.one_shot.is_some() {
            self.one_shot = Some(slot);
        }
    }
}

/// Whether the first interval of so many slots, which begins with the first of these slots, ends with the other.
fn ends_with(first: u64, interval: u32, slot: u64) -> bool
    ensures { result ≡ (first + interval == slot + 1) }
{
    u128::from(first) + u128::from(interval) == u128::from(slot) + 1
}

/// Whether an interval of so many slots ends with a slot, where the first one begins with this slot.
pub fn ends_interval(first: u64, interval: u64, slot: u64) -> bool
    requires { 1 ≤ interval }
    ensures { result ≡ slots.ends_interval first interval slot }
{
    first <= slot && (u128::from(slot - first) + 1) % u128::from(interval) == 0
}

/// The report structures by their keys.
#[derive(Drop)]
pub struct Structures {
    held: BTreeMap<Key, Held>,
}

impl Model for Structures {
    ghost use Rattle.std.specs.Prelude.{List};
    ghost use Rattle.hk_base.specs.declared.types.Key.{Key};
    ghost use Rattle.board_state.specs.declared.structures.Held.{Held};

    ghost Value = { List (Key × Held) };

    ghost view = { λ s. s.held.entries };
}

impl Structures {
    /// The structures that the board has from its start.
    pub fn new(alloc: Global, tailoring: &Tailoring) -> Result<Structures, Memory>
        ensures held { IfOk result (AreStructures tailoring.now []) }
        ensures none { IfOk result (λ held. one_shots_of held ≡ []) }
    {
        of_boots(alloc, tailoring.boots())
    }

    pub fn get(&self, key: Key) -> Option<&Held>
        ensures { option_copied result ≡ held_at self.now key }
    {
        self.held.get(&key)
    }

    pub fn structure(&self, key: Key) -> Option<&Structure>
        ensures { option_copied result ≡ held_structure self.now key }
    {
        match self.held.get(&key) {
            Some(held) => Some(&held.structure),
            None => None,
        }
    }

    /// A new structure.
    pub fn create(&mut self, key: Key, structure: Structure, first_slot: u64) -> Result<(), Memory>
        ensures ok { OnOk result (ChangesAt key (Some (new_held structure first_slot)) self.old self.new) }
        ensures one_shots { OnOk result (held_at self.old key ≡ None → one_shots_of self.new ≡ one_shots_of self.old) }
        ensures rising { OnOk result (AreRisingKeys self.new) }
        ensures err { OnErr result (self.new ≡ self.old) }
    {
        let held = Held {
            structure,
            first_slot,
            one_shot: None,
        };
        self.held.insert(key, held)?;
        Ok(())
    }

    /// Takes a structure away, with its one-shot.
    pub fn delete(&mut self, key: Key)
        ensures changes { ChangesAt key None self.old self.new }
        ensures one_shots { IfSome (held_at self.old key) (λ h. h.one_shot ≡ None) → one_shots_of self.new ≡ one_shots_of self.old }
        ensures rising { AreRisingKeys self.new }
    {
        self.held.remove(&key);
    }

    /// Puts a structure in the place of the one that is there. Its intervals begin anew where a slot is given.
    pub fn replace(&mut self, key: Key, structure: Structure, begins: Option<u64>)
        requires { IsSome (held_at self.old key) }
        ensures sets { SetsAt key (with_structure structure begins) self.old self.new }
    {
        let Some(held) = self.held.get_mut(&key) else {
            unreachable!();
        };
        held.structure = structure;
        if let Some(slot) = begins {
            held.begin(slot);
        }
    }

    /// A one-shot that begins with this slot, unless one is pending.
    pub fn order_one_shot(&mut self, key: Key, slot: u64)
        requires { IsSome (held_at self.old key) }
        ensures sets { SetsAt key (with_one_shot slot) self.old self.new }
    {
        let Some(held) = self.held.get_mut(&key) else {
            unreachable!();
        };
        if held.one_shot.is_none() {
            held.one_shot = Some(slot);
        }
    }

    /// The keys of the structures that are due in this slot, in order.
    pub fn due(&self, alloc: Global, slot: u64) -> Result<Vec<Key>, Memory>
        requires { AllByRecursion (λ x. 1 ≤ x.1.structure.def.interval) self.now }
        ensures { IfOk result (λ keys. keys.items ≡ due_keys slot self.now) }
    {
        let mut keys = Vec::new(alloc);
        for (key, held) in self.held.iter() {
            if held.is_due(slot) {
                keys.push(*key)?;
            }
        }
        Ok(keys)
    }

    /// Ends the one-shots that are due in this slot.
    pub fn end_one_shots(&mut self, slot: u64)
        ensures ended { self.new ≡ all_after_slot slot self.old }
        ensures rising { AreRisingKeys self.new }
    {
        self.held.retain(|_, held| {
            held.end_slot(slot);
            true
        });
    }
}

/// The structures of boots with different keys.
fn of_boots(alloc: Global, boots: &[Boot]) -> Result<Structures, Memory>
    requires { IsDistinct key_eq (map (λ b. b.key) boots.now) }
    ensures { IfOk result (AreBoots boots.now) }
{
    let mut structures = Structures {
        held: BTreeMap::new(alloc),
    };
    for boot in boots {
        structures.create(boot.key, boot.structure.copy(alloc)?, 0)?;
    }
    Ok(structures)
}
