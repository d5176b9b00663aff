ghost use Rattle.std.specs.Prelude.{◌≡◌, ◌+◌, ◌≤◌, ◌++◌, ◌∷◌, ℕ, List, [], None, Some, false, find, nat_le, ◌==◌, IfOk, OnOk, OnErr, bytes_eq, drop, length, map, max, slice_get, take, if◌then◌else◌};
ghost use Rattle.std.specs.Option.{option_copied, option_map_or};
ghost use Rattle.ground_history.specs.Ground.{HasPayload, payload_of, newest_told, tells_structure};
ghost use Rattle.ground_history.specs.Histories.{tag_of, greatest, insert_kept};
ghost use Rattle.ground_history.specs.Histories as histories;

use hk_base::{Items, Memory, Octets};
use pus_messages::{Report, ReportBody};
use st03_grammar::Report03;
use std::alloc::Global;
use std::collections::BTreeMap;
use std::collections::btree_map::Values;
use std::marker::Model;
use std::ops::Bound;

/// A packet that was kept. What it holds has a place of its own, since the nodes of a map are large and half empty.
#[derive(Debug, Drop)]
pub struct KeptPacket {
    contents: Box<Contents>,
}

#[derive(Debug, Drop)]
struct Contents {
    /// The packet without the payload of a parameter report, which the report has.
    around: Octets,
    /// Where the payload is in the packet.
    place: usize,
    report: Report,
    number: Option<u64>,
}

impl Model for KeptPacket {
    ghost use Rattle.std.specs.Prelude.{◌≤◌, length};
    ghost use Rattle.ground_history.specs.Histories.{Kept};
    ghost use Rattle.ground_history.specs.Ground.{payload_of, with_payload};

    ghost Value = { Kept };

    ghost view = { λ kept. record {
      packet = with_payload kept.contents.value.around kept.contents.value.place (payload_of kept.contents.value.report.body);
      report = kept.contents.value.report;
      number = kept.contents.value.number;
    } };

    ghost invariant = { λ kept. kept.contents.value.place ≤ length kept.contents.value.around };
}

impl KeptPacket {
    /// A packet with so many octets behind its payload.
    pub(crate) fn new(
        alloc: Global,
        bytes: &[u8],
        behind: usize,
        report: Report,
        number: Option<u64>,
    ) -> Result<KeptPacket, Memory>
        requires { HasPayload behind (payload_of report.body) bytes.now }
        ensures { IfOk result (λ kept. kept ≡ record { packet = bytes.now; report = report; number = number }) }
    {
        let payload = payload(&report.body).len();
        let place = bytes.len() - behind - payload;
        let contents = Contents {
            around: without(alloc, bytes, place, payload)?,
            place,
            report,
            number,
        };
        Ok(KeptPacket {
            contents: Box::new(alloc, contents)?,
        })
    }

    pub fn tag(&self) -> u64
        ensures { result ≡ tag_of self.now }
    {
        self.contents.report.header.tag
    }

    /// The number of the request that it verifies, if it is a verification report.
    pub fn number(&self) -> Option<u64>
        ensures { result ≡ self.now.number }
    {
        self.contents.number
    }

    /// Whether it has these octets.
    pub(crate) fn is_same(&self, bytes: &[u8]) -> bool
        ensures { result ≡ bytes_eq self.now.packet bytes.now }
    {
        let contents = &self.contents;
        let (front, behind) = contents.around.as_slice().split_at(contents.place);
        match after(bytes, front) {
            Some(rest) => match after(rest, payload(&contents.report.body)) {
                Some(rest) => behind == rest,
                None => false,
            },
            None => false,
        }
    }

    pub fn report(&self) -> &Report
        ensures { result.now ≡ self.now.report }
    {
        &self.contents.report
    }
}

/// The payload of a parameter report; nothing of another body.
fn payload(body: &ReportBody) -> &[u8]
    ensures { result.now ≡ payload_of body.now }
{
    match body {
        ReportBody::Hk(Report03::Values(_, payload)) => payload.as_slice(),
        _ => &[],
    }
}

/// Octets without so many at a place.
fn without(alloc: Global, bytes: &[u8], place: usize, count: usize) -> Result<Octets, Memory>
    requires { place + count ≤ length bytes.now }
    ensures { IfOk result (λ around. around ≡ take place bytes.now ++ drop (place + count) bytes.now) }
{
    let mut around = Vec::with_capacity(alloc, bytes.len() - count)?;
    around.extend_from_slice(&bytes[..place])?;
    around.extend_from_slice(&bytes[place + count..])?;
    Ok(Items::from_vec(around))
}

/// What follows a front, if octets begin with it.
fn after<'a>(bytes: &'a [u8], front: &[u8]) -> Option<&'a [u8]>
    ensures { (more : List ℕ) → option_map_or (λ rest. bytes_eq more rest.now) result false ≡ bytes_eq (front.now ++ more) bytes.now }
{
    bytes.strip_prefix(front)
}

/// The packets that were kept, in the order of their tags.
#[derive(Debug, Drop)]
pub(crate) struct KeptPackets {
    packets: BTreeMap<u64, KeptPacket>,
    /// The greatest tag, or 0.
    newest: u64,
    /// The greatest tag of a structure report, or 0.
    told: u64,
}

impl Model for KeptPackets {
    ghost use Rattle.std.specs.Prelude.{◌≡◌, List, map};
    ghost use Rattle.ground_history.specs.Histories.{Kept, tag_of, greatest};
    ghost use Rattle.ground_history.specs.Ground.{IsByTag, packets_of, newest_told};

    ghost Value = { List Kept };

    ghost view = { λ kept. packets_of kept.packets.entries };

    ghost invariant = { λ kept. IsByTag kept.packets.entries
        × (kept.newest ≡ greatest (map tag_of (packets_of kept.packets.entries)))
        × (kept.told ≡ newest_told (packets_of kept.packets.entries)) };
}

impl KeptPackets {
    pub(crate) fn new(alloc: Global) -> KeptPackets
        ensures { result ≡ [] }
    {
        KeptPackets {
            packets: BTreeMap::new(alloc),
            newest: 0,
            told: 0,
        }
    }

    /// How many there are.
    pub(crate) fn len(&self) -> usize
        ensures { result ≡ length self.now }
    {
        self.packets.len()
    }

    /// The greatest tag, or 0.
    pub(crate) fn newest(&self) -> u64
        ensures { result ≡ greatest (map tag_of self.now) }
    {
        self.newest
    }

    /// The greatest tag of a structure report, or 0.
    pub(crate) fn told(&self) -> u64
        ensures { result ≡ newest_told self.now }
    {
        self.told
    }

    /// The packet with this tag.
    pub(crate) fn with_tag(&self, tag: u64) -> Option<&KeptPacket>
        ensures { option_copied result ≡ find (λ k. tag_of k == tag) self.now }
    {
        self.packets.get(&tag)
    }

    /// All of them.
    pub(crate) fn all(&self) -> Values<'_, u64, KeptPacket>
        ensures { result ≡ self.now }
    {
        self.packets.values()
    }

    /// The packet with this number, from 0.
    pub(crate) fn at(&self, number: usize) -> Option<&KeptPacket>
        ensures { option_copied result ≡ slice_get self.now number }
    {
        self.packets.values().nth(number)
    }

    /// The first packet whose tag isn't below this one.
    pub(crate) fn from_tag(&self, tag: u64) -> Option<&KeptPacket>
        ensures { option_copied result ≡ find (λ k. nat_le tag (tag_of k)) self.now }
    {
        let behind = (Bound::Included(tag), Bound::Unbounded);
        match self.packets.range(behind).next() {
            Some((_, kept)) => Some(kept),
            None => None,
        }
    }

    /// Keeps a packet whose tag no other has.
    pub(crate) fn keep(&mut self, kept: KeptPacket) -> Result<(), Memory>
        requires { find (λ k. tag_of k == tag_of kept) self.old ≡ None }
        ensures kept { OnOk result (self.new ≡ insert_kept kept self.old) }
        ensures same { OnErr result (self.new ≡ self.old) }
    {
        let tag = kept.tag();
        let tells = tells(&kept.report().body);
        self.packets.insert(tag, kept)?;
        self.newest = self.newest.max(tag);
        self.told = newer(tells, self.told, tag);
        Ok(())
    }
}

/// Whether a body is that of a report of a structure.
fn tells(body: &ReportBody) -> bool
    ensures { result ≡ tells_structure body.now }
{
    matches!(body, ReportBody::Hk(Report03::Structure(_, _)))
}

/// The greater of two tags, where the second counts.
fn newer(counts: bool, newest: u64, tag: u64) -> u64
    ensures { result ≡ (if counts then max newest tag else newest) }
{
    if counts { newest.max(tag) } else { newest }
}
