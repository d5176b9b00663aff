ghost use Rattle.std.specs.Prelude.{◌≡◌, ◌≤◌, ◌==◌, List, ℕ, [], length, reverse, map, IfOk};
ghost use Rattle.std.specs.List.{list_any};
ghost use Rattle.body_fields.specs.Outcomes.{Gives, Finds};
ghost use Rattle.body_fields.specs.Reading.{repeat_fault};
ghost use Rattle.st03_grammar.specs.Bodies.{structure_field, key_field, pair_field, row_field};

use crate::bodies::{Pair, PeriodicRow};
use body_fields::{BodyFault, ReadMember, is_listed, read_flag, read_interval, read_number};
use hk_base::{Key, Kind, Tailoring};

/// Tests the ID of a structure, of which it is told whether it stood before.
fn check_structure(is_repeated: bool, id: u32) -> Result<(), BodyFault>
    ensures { (earlier : List ℕ) → list_any (λ e. e == id) earlier ≡ is_repeated → Finds result (repeat_fault earlier id) }
{
    if is_repeated {
        Err(BodyFault::RepeatedKey(id))
    } else {
        Ok(())
    }
}

/// The ID of a structure, as a key.
pub fn read_key<'a>(
    tailoring: &Tailoring,
    kind: Kind,
    octets: &'a [u8],
) -> Result<(Key, &'a [u8]), BodyFault>
    ensures gives { Gives (λ x. (x.0, x.1.now)) result (key_field tailoring.now kind octets.now) }
    ensures left { IfOk result (λ x. length x.1.now ≤ length octets.now) }
{
    let (id, rest) = read_number(octets, tailoring.widths().structure_octets)?;
    Ok((Key { kind, id }, rest))
}

/// The ID of a structure that isn't among those before it.
fn read_structure_id<'a>(
    tailoring: &Tailoring,
    earlier: &[u32],
    octets: &'a [u8],
) -> Result<(u32, &'a [u8]), BodyFault>
    ensures gives { Gives (λ x. (x.0, x.1.now)) result (structure_field tailoring.now (reverse earlier.now) octets.now) }
    ensures left { IfOk result (λ x. length x.1.now ≤ length octets.now) }
{
    let (id, rest) = read_number(octets, tailoring.widths().structure_octets)?;
    check_structure(is_listed(earlier, id), id)?;
    Ok((id, rest))
}

/// IDs of structures, each once.
#[derive(Drop)]
pub struct StructureIds<'t> {
    pub tailoring: &'t Tailoring,
}

impl ReadMember for StructureIds<'_> {
    type Member = u32;

    ghost reader = { λ ids earlier octets. structure_field ids.tailoring.now earlier octets };

    fn read_member<'a>(
        &self,
        earlier: &[u32],
        octets: &'a [u8],
    ) -> Result<(u32, &'a [u8]), BodyFault> {
        read_structure_id(self.tailoring, earlier, octets)
    }
}

/// IDs of structures, each once and with an interval.
#[derive(Drop)]
pub struct Pairs<'t> {
    pub tailoring: &'t Tailoring,
}

impl ReadMember for Pairs<'_> {
    type Member = Pair;

    ghost reader = { λ pairs earlier octets. pair_field pairs.tailoring.now earlier octets };

    fn read_member<'a>(
        &self,
        earlier: &[Pair],
        octets: &'a [u8],
    ) -> Result<(Pair, &'a [u8]), BodyFault> {
        let (id, rest) = read_number(octets, self.tailoring.widths().structure_octets)?;
        check_structure(is_paired(earlier, id), id)?;
        let (interval, rest) = read_interval(self.tailoring, rest)?;
        Ok((Pair { id, interval }, rest))
    }
}

fn is_paired(earlier: &[Pair], id: u32) -> bool
    ensures { result ≡ list_any (λ e. e == id) (map (λ p. p.id) (reverse earlier.now)) }
{
    has_pair(earlier, id)
}

fn has_pair(pairs: &[Pair], id: u32) -> bool
    ensures { result ≡ list_any (λ p. p.id == id) pairs.now }
{
    pairs.iter().any(|pair| pair.id == id)
}

/// IDs of structures, each once and with its status and interval.
#[derive(Drop)]
pub struct Rows<'t> {
    pub tailoring: &'t Tailoring,
}

impl ReadMember for Rows<'_> {
    type Member = PeriodicRow;

    ghost reader = { λ rows earlier octets. row_field rows.tailoring.now earlier octets };

    fn read_member<'a>(
        &self,
        earlier: &[PeriodicRow],
        octets: &'a [u8],
    ) -> Result<(PeriodicRow, &'a [u8]), BodyFault> {
        let (id, rest) = read_number(octets, self.tailoring.widths().structure_octets)?;
        check_structure(is_in_rows(earlier, id), id)?;
        let (enabled, rest) = read_flag(rest)?;
        let (interval, rest) = read_interval(self.tailoring, rest)?;
        let row = PeriodicRow {
            id,
            enabled,
            interval,
        };
        Ok((row, rest))
    }
}

fn is_in_rows(earlier: &[PeriodicRow], id: u32) -> bool
    ensures { result ≡ list_any (λ e. e == id) (map (λ r. r.id) (reverse earlier.now)) }
{
    has_row(earlier, id)
}

fn has_row(rows: &[PeriodicRow], id: u32) -> bool
    ensures { result ≡ list_any (λ r. r.id == id) rows.now }
{
    rows.iter().any(|row| row.id == id)
}
