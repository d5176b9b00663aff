//! The numbers of a session that is made from a seed.
ghost use Rattle.std.specs.Prelude.{◌≡◌, ◌≢◌, ◌+◌, ◌*◌, ◌<◌, ◌≤◌, [], ◌∷◌, length, true, false, IfOk, OnOk};
ghost use Rattle.std.specs.Prelude.{All};
ghost use Rattle.ground_history.specs.declared.answer.SentFault.TheVariants as sent;
ghost use Rattle.decommutator.specs.Standing.{new_standing};
ghost use Rattle.generated_sessions.specs.Entries.{IsShortEntry};
ghost use Rattle.generated_sessions.specs.Generated as made;
ghost use Rattle.generated_sessions.specs.Generated.{made_tailoring};
ghost use Rattle.hk_replay.specs.Generating.{numbers_text, Follows};

use crate::rounds::Rounds;
use block_lines::write_summary;
use decommutator::{Decommutator, entries_stand};
use generated_sessions::{
    entries_are_short, last_entries, round_entries, rounds_come_one_by_one, tailoring,
};
use ground_history::SentFault;
use hk_base::{Memory, Tailoring};
use session_record::Entry;
use std::alloc::Global;

/// The numbers of a session of so many rounds, as lines.
pub fn generated_text(alloc: Global, seed: u32, rounds: Rounds) -> Result<Vec<u8>, Memory>
    ensures { IfOk result (λ text. text.items ≡ numbers_text seed rounds.count) }
{
    let tailoring = tailoring(alloc)?;
    let mut session = Decommutator::new(alloc, tailoring.copy(alloc)?, true, false);
    numbers(alloc, &tailoring, &mut session, seed, rounds.count)
}

/// Takes the entries of a session, and gives its numbers as lines.
fn numbers(
    alloc: Global,
    tailoring: &Tailoring,
    session: &mut Decommutator,
    seed: u32,
    rounds: u32,
) -> Result<Vec<u8>, Memory>
    requires tailoring { tailoring.now ≡ made_tailoring }
    requires session { session.old.standing ≡ new_standing made_tailoring true false }
    requires rounds { rounds ≤ 100000 }
    ensures { IfOk result (λ text. text.items ≡ numbers_text seed rounds) }
{
    // Laws: what stands for entries, and what the entries are. They do nothing.
    entries_stand();
    rounds_come_one_by_one();
    take_rounds(alloc, tailoring, session, seed, rounds)?;
    take_last(alloc, tailoring, session, seed, rounds)?;
    let tally = session.tally()?;
    let mut text = Vec::new(alloc);
    write_summary(&mut text, &tally)?;
    Ok(text)
}

/// Takes the entries of so many rounds.
fn take_rounds(
    alloc: Global,
    tailoring: &Tailoring,
    session: &mut Decommutator,
    seed: u32,
    rounds: u32,
) -> Result<(), Memory>
    requires tailoring { tailoring.now ≡ made_tailoring }
    requires none { session.old.standing.entries ≡ 0 }
    requires rounds { rounds ≤ 100000 }
    ensures follows { OnOk result (Follows (made.rounds seed rounds) session.old.standing session.new.standing) }
    ensures few { OnOk result (session.new.standing.entries ≤ 32 * rounds) }
{
    rounds_come_one_by_one();
    for round in 0..rounds {
        take_round(alloc, tailoring, session, seed, round)?;
    }
    Ok(())
}

/// Takes the entries that come in a round.
fn take_round(
    alloc: Global,
    tailoring: &Tailoring,
    session: &mut Decommutator,
    seed: u32,
    round: u32,
) -> Result<(), Memory>
    requires tailoring { tailoring.now ≡ made_tailoring }
    requires few { session.old.standing.entries ≤ 32 * round }
    requires round { round < 100000 }
    ensures follows { OnOk result (Follows (made.round_entries seed round) session.old.standing session.new.standing) }
    ensures few { OnOk result (session.new.standing.entries ≤ 32 * (round + 1)) }
{
    entries_are_short();
    let entries = round_entries(alloc, tailoring, seed, round)?;
    take_each(session, entries.as_slice())
}

/// Takes the entries that come after all rounds.
fn take_last(
    alloc: Global,
    tailoring: &Tailoring,
    session: &mut Decommutator,
    seed: u32,
    rounds: u32,
) -> Result<(), Memory>
    requires tailoring { tailoring.now ≡ made_tailoring }
    requires few { session.old.standing.entries ≤ 32 * rounds }
    requires rounds { rounds ≤ 100000 }
    ensures { OnOk result (Follows (made.late_entries seed rounds) session.old.standing session.new.standing) }
{
    entries_are_short();
    let entries = last_entries(alloc, tailoring, seed, rounds)?;
    take_each(session, entries.as_slice())
}

/// Takes entries in their order.
fn take_each(session: &mut Decommutator, entries: &[Entry]) -> Result<(), Memory>
    requires few { session.old.standing.entries + length entries.now ≤ 4294967295 }
    requires short { All IsShortEntry entries.now }
    ensures follows { OnOk result (Follows entries.now session.old.standing session.new.standing) }
    ensures count { OnOk result (session.new.standing.entries ≤ session.old.standing.entries + length entries.now) }
{
    for entry in entries {
        take_one(session, entry)?;
    }
    Ok(())
}

/// Takes an entry. One that is refused changes nothing.
fn take_one(session: &mut Decommutator, entry: &Entry) -> Result<(), Memory>
    requires few { session.old.standing.entries < 4294967295 }
    requires short { IsShortEntry entry.now }
    ensures follows { OnOk result (Follows (entry.now ∷ []) session.old.standing session.new.standing) }
    ensures count { session.new.standing.entries ≤ session.old.standing.entries + 1 }
{
    // A law: it says what stands for entries, and does nothing.
    entries_stand();
    match session.entry(entry) {
        Ok(()) => Ok(()),
        Err(fault) => unless_memory(fault),
    }
}

/// Want of memory is no refusal.
fn unless_memory(fault: SentFault) -> Result<(), Memory>
    ensures { OnOk result (fault ≢ sent.Memory) }
{
    match fault {
        SentFault::Memory => Err(Memory),
        _ => Ok(()),
    }
}
