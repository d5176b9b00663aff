//! The ranges of all structures, by a history.
ghost use Rattle.std.specs.Prelude.{◌≡◌, ◌≢◌, ℕ, [], ◌∷◌, IfOk};
ghost use Rattle.std.specs.List.Sorted.{IsStrictlyIncreasing};
ghost use Rattle.hk_base.specs.declared.types.Key.{Key};
ghost use Rattle.ground_history.specs.Ground.{IsGrounded};
ghost use Rattle.verdict_tables.specs.Places.{is_among, places};
ghost use Rattle.verdict_tables.specs.Collecting.{AreRangesAt, IsTable, HasTable, collected_places, held_for};

use crate::collecting::collected;
use crate::ranges::Ranges;
use crate::structures::Structures;
use ground_history::History;
use hk_base::{Items, Key, Memory};
use opening_sweeps::bases;
use std::alloc::Global;

/// Most ranges of a structure: their number has 32 bits.
const MOST_RANGES: usize = 4_294_967_295;

/// The ranges of each structure that has places.
pub(crate) fn built(alloc: Global, history: &History) -> Result<Structures, Memory>
    requires { IsGrounded history.now }
    ensures { IfOk result (λ built. (key : Key) → HasTable history.now key (held_for built key)) }
{
    let mut places = collected(alloc, history)?;
    let mut structures = Structures::new(alloc);
    while let Some((key, tags)) = places.pop() {
        let ranges = ranges_from(alloc, history, key, tags)?;
        structures.insert(key, ranges)?;
    }
    Ok(structures)
}

/// The ranges of a structure with these places.
fn ranges_from(
    alloc: Global,
    history: &History,
    key: Key,
    tags: Items<u64>,
) -> Result<Ranges, Memory>
    requires tags { tags ≡ collected_places history.now.history key }
    requires some { tags ≢ [] }
    ensures { IfOk result (IsTable history.now key) }
{
    ranges_at(alloc, history, key, tags)
}

/// The ranges of a structure that begin at 0 and at these tags.
fn ranges_at(alloc: Global, history: &History, key: Key, tags: Items<u64>) -> Result<Ranges, Memory>
    ensures { IfOk result (AreRangesAt history.now key tags) }
{
    let firsts = firsts_from(tags)?;
    let bases = bases(alloc, history, key, &firsts)?;
    if firsts.len() > MOST_RANGES {
        return Err(Memory);
    }
    Ok(Ranges::new(firsts, bases))
}

/// The first tags of ranges: 0 and the places, rising, each once.
fn firsts_from(tags: Items<u64>) -> Result<Vec<u64>, Memory>
    ensures rising { IfOk result (λ firsts. IsStrictlyIncreasing firsts.items) }
    ensures members { IfOk result (λ firsts. (tag : ℕ) → is_among tag firsts.items ≡ is_among tag (0 ∷ tags)) }
{
    let mut firsts = tags.into_vec();
    firsts.push(0)?;
    firsts.sort()?;
    firsts.dedup();
    Ok(firsts)
}
