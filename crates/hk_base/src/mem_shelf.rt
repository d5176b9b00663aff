//! A shelf in memory, which fails at calls that are listed.
ghost use Rattle.std.specs.Prelude.{◌≡◌, ◌≤◌, ◌<◌, Some, None, is_ok, is_some, min, length, drop, IfOk, OnOk, OnErr};
ghost use Rattle.std.specs.Option.{option_map, option_copied};
ghost use Rattle.std.specs.Result.{result_ok};
ghost use Rattle.hk_base.specs.Memory as memory;
ghost use Rattle.hk_base.specs.Memory.{NoneAhead, file_at, readable, read_count, left_by_read, shelf_after};
ghost use Rattle.hk_base.specs.Outside.{file_of, IsMoved, IsCount, Counts, Selects, SelectsIfKnown, Reads, ReadsIfSelected};

use crate::list::{Items, Octets};
use crate::listed::{is_next_listed, raise};
use crate::outside::{Failed, Shelf};
use std::marker::Model;

/// Files in memory. Its calls are numbered from 1, and those whose numbers are listed fail.
#[derive(Drop)]
pub struct MemShelf {
    files: Items<(Octets, Octets)>,
    failing: Items<u32>,
    most: u32,
    calls: u64,
    faults: u64,
    selected: Option<usize>,
    read: usize,
}

impl Model for MemShelf {
    ghost use Rattle.std.specs.Prelude.{◌≤◌, drop};
    ghost use Rattle.std.specs.Option.{option_map};
    ghost use Rattle.hk_base.specs.Memory.{ShelfState, file_at};

    ghost Value = { ShelfState };

    ghost view = { λ s. record {
      files = s.files;
      failing = s.failing;
      most = s.most;
      calls = s.calls;
      faults = s.faults;
      rest = option_map (drop s.read) (file_at s.files s.selected);
    } };

    ghost invariant = { λ s. 1 ≤ s.most };
}

impl MemShelf {
    /// A shelf of these files, by their names, whose reads give at most so many octets.
    pub fn new(files: Items<(Octets, Octets)>, failing: Items<u32>, most: u32) -> MemShelf
        requires { 1 ≤ most }
        ensures { result ≡ record { files = files; failing = failing; most = most; calls = 0; faults = 0; rest = None } }
    {
        MemShelf {
            files,
            failing,
            most,
            calls: 0,
            faults: 0,
            selected: None,
            read: 0,
        }
    }
}

impl Shelf for MemShelf {
    ghost faults = { λ s. s.faults };

    ghost files = { λ s. Some s.files };

    ghost rest = { λ s. s.rest };

    ghost is_sound = { λ s. NoneAhead s.failing s.calls };

    fn select(&mut self, name: &str) -> Result<(), Failed>
        ensures count { Counts self.old.faults self.new.faults result }
        ensures bound { IsCount self.new.faults }
        ensures selected { OnOk result (Selects (Some self.old.files) name.now self.new.rest) }
        ensures kept { OnErr result (self.new.rest ≡ self.old.rest) }
        ensures files { Some self.new.files ≡ Some self.old.files }
        ensures sound { NoneAhead self.old.failing self.old.calls → SelectsIfKnown (Some self.old.files) name.now result }
        ensures stays_sound { NoneAhead self.old.failing self.old.calls → NoneAhead self.new.failing self.new.calls }
        ensures answer { is_ok result ≡ is_some (memory.selected self.old name.now) }
        ensures state { self.new ≡ shelf_after self.old (memory.selected self.old name.now) }
    {
        if is_next_listed(&mut self.calls, self.failing.as_slice()) {
            return Err(raise(&mut self.faults));
        }
        let Some(at) = position_of(self.files.as_slice(), name.as_bytes()) else {
            return Err(raise(&mut self.faults));
        };
        self.selected = Some(at);
        self.read = 0;
        Ok(())
    }

    fn read(&mut self, buf: &mut [u8]) -> Result<usize, Failed>
        requires { 0 < length buf.old }
        ensures count { Counts self.old.faults self.new.faults result }
        ensures bound { IsCount self.new.faults }
        ensures within { IfOk result (λ n. n ≤ length buf.old) }
        ensures moved { IfOk result (λ n. Reads self.old.rest n buf.new self.new.rest) }
        ensures kept { OnErr result (self.new.rest ≡ self.old.rest) }
        ensures files { Some self.new.files ≡ Some self.old.files }
        ensures sound { NoneAhead self.old.failing self.old.calls → ReadsIfSelected self.old.rest result }
        ensures stays_sound { NoneAhead self.old.failing self.old.calls → NoneAhead self.new.failing self.new.calls }
        ensures answer { result_ok result ≡ option_map (read_count self.old (length buf.old)) (readable self.old) }
        ensures state { self.new ≡ shelf_after self.old (option_map (left_by_read self.old (length buf.old)) (readable self.old)) }
    {
        if is_next_listed(&mut self.calls, self.failing.as_slice()) {
            return Err(raise(&mut self.faults));
        }
        let Some(file) = octets_at(self.files.as_slice(), self.selected) else {
            return Err(raise(&mut self.faults));
        };
        Ok(copy_part(file, &mut self.read, self.most, buf))
    }
}

/// Where the first file of that name stands.
fn position_of(files: &[(Octets, Octets)], name: &[u8]) -> Option<usize>
    ensures known { is_some result ≡ is_some (file_of files.now name.now) }
    ensures place { file_at files.now result ≡ file_of files.now name.now }
{
    for (at, file) in files.iter().enumerate() {
        if file.0.as_slice() == name {
            return Some(at);
        }
    }
    None
}

/// The octets of the file at this place.
fn octets_at(files: &[(Octets, Octets)], at: Option<usize>) -> Option<&[u8]>
    ensures { option_copied result ≡ file_at files.now at }
{
    let file = files.get(at?)?;
    Some(file.1.as_slice())
}

/// Copies what follows the part that was read, as far as the buffer and the limit let it. It gives the number of octets.
fn copy_part(file: &[u8], read: &mut usize, most: u32, buf: &mut [u8]) -> usize
    requires most { 1 ≤ most }
    requires room { 0 < length buf.old }
    ensures count { result ≡ min most (min (length (drop read.old file.now)) (length buf.old)) }
    ensures moved { IsMoved (drop read.old file.now) result buf.new (drop read.new file.now) }
{
    let start = (*read).min(file.len());
    let (_, rest) = file.split_at(start);
    let count = (most as usize).min(rest.len().min(buf.len()));
    buf[..count].copy_from_slice(&rest[..count]);
    *read = start + count;
    count
}
