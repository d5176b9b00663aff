//! The moments of a session, as the board keeps them.
ghost use Rattle.std.specs.Prelude.{◌≡◌, ◌+◌, ◌≤◌, [], ◌++◌, length, OnOk, OnErr};
ghost use Rattle.std.specs.List.{slice_get};
ghost use Rattle.std.specs.Option.{option_copied};

use crate::moment::Moment;
use hk_base::{Items, Memory};
use std::alloc::Global;
use std::marker::Model;

/// The most moments that a journal holds.
pub const MOST_MOMENTS: u32 = 1_048_576;

/// Moments in the order in which they came.
#[derive(Debug, Drop)]
pub struct Journal {
    moments: Vec<Moment>,
}

impl Model for Journal {
    ghost use Rattle.std.specs.Prelude.{List, ◌≤◌, length};
    ghost use Rattle.hk_world.specs.declared.moment.Moment.{Moment};

    ghost Value = { List Moment };

    ghost view = { λ journal. journal.moments.items };

    ghost invariant = { λ journal. length journal.moments.items ≤ 1048576 };
}

impl Journal {
    /// A journal with no moment.
    pub fn new(alloc: Global) -> Journal
        ensures { result ≡ [] }
    {
        Journal {
            moments: Vec::new(alloc),
        }
    }

    /// Puts the moments last, in their order.
    pub fn add(&mut self, moments: Items<Moment>) -> Result<(), Memory>
        requires { length self.old + length moments ≤ MOST_MOMENTS }
        ensures ok { OnOk result (self.new ≡ self.old ++ moments) }
        ensures err { OnErr result (self.new ≡ self.old) }
    {
        let mut moments = moments.into_vec();
        self.moments.append(&mut moments)?;
        Ok(())
    }

    /// The number of moments.
    pub fn len(&self) -> u32
        ensures length { result ≡ length self.now }
        ensures most { result ≤ MOST_MOMENTS }
    {
        self.moments.len() as u32
    }

    /// The moment with this number, from 0.
    pub fn at(&self, number: u32) -> Option<&Moment>
        ensures { option_copied result ≡ slice_get self.now number }
    {
        self.moments.as_slice().get(number as usize)
    }
}
