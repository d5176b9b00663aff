ghost use Rattle.std.specs.Prelude.{◌≡◌, ◌≤◌, ◌<◌, ◌^◌, ◌++◌, List, ℕ, Result, length, reverse, [], IfOk, OnOk, OnErr, flat_map};
ghost use Rattle.std.specs.List.{AllByRecursion};
ghost use Rattle.body_fields.specs.Outcomes.{Gives, Appends};
ghost use Rattle.body_fields.specs.Spelling.{counted_octets};
ghost use Rattle.body_fields.specs.Reading.{Read, list_of, counted_list};

use crate::fault::BodyFault;
use crate::reading::read_count;
use crate::writing::{or_undo, write_count};
use hk_base::{Items, Memory, Tailoring};
use std::alloc::Global;

/// How a member of a list is read.
pub trait ReadMember {
    type Member: Drop;

    /// Its reader, which has the members before it in view, the newest first.
    ghost reader: { Self → List Self.Member → List ℕ → Read Self.Member };

    /// A member and the octets after it, or its fault.
    fn read_member<'a>(
        &self,
        earlier: &[Self::Member],
        octets: &'a [u8],
    ) -> Result<(Self::Member, &'a [u8]), BodyFault>
        ensures gives { Gives (λ x. (x.0, x.1.now)) result (reader self.now (reverse earlier.now) octets.now) }
        ensures left { IfOk result (λ x. length x.1.now ≤ length octets.now) };
}

/// So many members.
fn read_members<'a, M: ReadMember>(
    alloc: Global,
    member: &M,
    count: u32,
    octets: &'a [u8],
) -> Result<(Vec<M::Member>, &'a [u8]), BodyFault>
    ensures gives { Gives (λ x. (x.0.items, x.1.now)) result (list_of (M.reader member.now) count [] octets.now) }
    ensures left { IfOk result (λ x. length x.1.now ≤ length octets.now) }
{
    let mut members = Vec::new(alloc);
    let mut rest = octets;
    for _count in 0..count {
        let (next, after) = member.read_member(members.as_slice(), rest)?;
        members.push(next)?;
        rest = after;
    }
    Ok((members, rest))
}

/// A count that is `least` or more, and then so many members.
pub fn read_list<'a, M: ReadMember>(
    alloc: Global,
    tailoring: &Tailoring,
    least: u32,
    member: &M,
    octets: &'a [u8],
) -> Result<(Items<M::Member>, &'a [u8]), BodyFault>
    ensures gives { Gives (λ x. (x.0, x.1.now)) result (counted_list tailoring.now least (M.reader member.now) octets.now) }
    ensures left { IfOk result (λ x. length x.1.now ≤ length octets.now) }
{
    let (count, rest) = read_count(tailoring, least, octets)?;
    let (members, rest) = read_members(alloc, member, count, rest)?;
    Ok((Items::from_vec(members), rest))
}

/// How a member of a list is written.
pub trait WriteMember {
    type Member;

    /// The members that can be written.
    ghost fits: { Self → Self.Member → Type 0 };

    /// The spelling of a member.
    ghost spelling: { Self → Self.Member → List ℕ };

    /// Appends a member.
    fn write_member(&self, member: &Self::Member, out: &mut Vec<u8>) -> Result<(), Memory>
        requires { fits self.now member.now }
        ensures { Appends out.old.items result out.new.items (spelling self.now member.now) };
}

/// Appends each member.
fn write_members<M: WriteMember>(
    writer: &M,
    members: &[M::Member],
    out: &mut Vec<u8>,
) -> Result<(), Memory>
    requires { AllByRecursion (M.fits writer.now) members.now }
    ensures { Appends out.old.items result out.new.items (flat_map (M.spelling writer.now) members.now) }
{
    for member in members {
        writer.write_member(member, out)?;
    }
    Ok(())
}

/// Appends a count and the members.
fn write_counted<M: WriteMember>(
    tailoring: &Tailoring,
    writer: &M,
    members: &[M::Member],
    out: &mut Vec<u8>,
) -> Result<(), Memory>
    requires few { length members.now ≤ 255 }
    requires count { length members.now < 256 ^ tailoring.now.widths.count_octets }
    requires members { AllByRecursion (M.fits writer.now) members.now }
    ensures { Appends out.old.items result out.new.items (counted_octets tailoring.now (M.spelling writer.now) members.now) }
{
    write_count(tailoring, members.len() as u32, out)?;
    write_members(writer, members, out)
}

/// Appends a list: a count, and the members.
pub fn write_list<M: WriteMember>(
    tailoring: &Tailoring,
    writer: &M,
    members: &[M::Member],
    out: &mut Vec<u8>,
) -> Result<(), Memory>
    requires few { length members.now ≤ 255 }
    requires count { length members.now < 256 ^ tailoring.now.widths.count_octets }
    requires members { AllByRecursion (M.fits writer.now) members.now }
    ensures ok { OnOk result (out.new.items ≡ out.old.items ++ counted_octets tailoring.now (M.spelling writer.now) members.now) }
    ensures err { OnErr result (out.new.items ≡ out.old.items) }
{
    let kept = out.len();
    let written = write_counted(tailoring, writer, members, out);
    or_undo(written, kept, out)
}
