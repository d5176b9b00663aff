//! The real files and the real standard output. They tell nothing of what they hold.
ghost use Rattle.std.specs.Prelude.{◌≡◌, ◌≤◌, ◌<◌, IfOk, None, length};
ghost use Rattle.std.specs.Io.KnownBytes.{WriteAppends};
ghost use Rattle.hk_base.specs.Outside.{Counts, IsCount, Takes, most_faults};

use hk_base::{Failed, Shelf, Sink};
use std::fs::File;
use std::io;
use std::io::{Read, Write};

/// Files by their paths.
#[derive(Drop)]
pub struct FileShelf<'a> {
    rt: &'a HostRuntime,
    file: Option<File>,
    faults: u64,
    ghost counted: { faults ≤ most_faults },
}

impl<'a> FileShelf<'a> {
    /// Nothing is selected.
    pub fn new(rt: &'a HostRuntime) -> FileShelf<'a> {
        FileShelf {
            rt,
            file: None,
            faults: 0,
        }
    }
}

impl Shelf for FileShelf<'_> {
    ghost faults = { λ s. s.faults };

    ghost files = { λ _. None };

    ghost rest = { λ _. None };

    ghost is_sound = { λ _. ⊥ };

    fn select(&mut self, name: &str) -> Result<(), Failed> {
        match File::open(self.rt, name) {
            Ok(file) => {
                self.file = Some(file);
                Ok(())
            }
            Err(_) => {
                self.faults = self.faults.saturating_add(1);
                Err(Failed)
            }
        }
    }

    fn read(&mut self, buf: &mut [u8]) -> Result<usize, Failed> {
        if let Some(file) = &mut self.file {
            if let Ok(count) = file.read(buf) {
                return Ok(count);
            }
        }
        self.faults = self.faults.saturating_add(1);
        Err(Failed)
    }
}

/// Standard output, or another writer.
#[derive(Drop)]
pub struct OutSink<W> {
    out: W,
    faults: u64,
    ghost counted: { faults ≤ most_faults },
}

impl<W> OutSink<W> {
    /// Nothing was written.
    pub fn new(out: W) -> OutSink<W> {
        OutSink { out, faults: 0 }
    }
}

impl<W: Write> Sink for OutSink<W> {
    ghost faults = { λ s. s.faults };

    ghost taken = { λ _. None };

    ghost room = { λ _. None };

    fn write(&mut self, piece: &[u8]) -> Result<usize, Failed>
        requires { 0 < length piece.now }
        ensures count { Counts self.old.faults self.new.faults result }
        ensures bound { IsCount self.new.faults }
        ensures within { IfOk result (λ n. (0 < n) × (n ≤ length piece.now)) }
        ensures took { IfOk result (λ n. Takes None n piece.now None) }
        ensures wrote { WriteAppends (W.contents self.old.out) (W.contents self.new.out) result piece.now }
    {
        if let Ok(count) = self.out.write(piece) {
            if count > 0 {
                return Ok(count);
            }
        }
        self.faults = self.faults.saturating_add(1);
        Err(Failed)
    }
}
