//! A table of a document, and where it stands.
ghost use Rattle.std.specs.Prelude.{◌≡◌, true, Some, is_some};
ghost use Rattle.toml.specs.Data.{as_table};
ghost use Rattle.toml.specs.View.{view};

use std::alloc::Global;
use toml::{Table, Value};

/// Where a table stands in a document, numbers from 0.
#[derive(Clone, Copy, Debug, Drop)]
pub enum Place {
    Document,
    Parameter(usize),
    Structure(usize),
    Array(usize, usize),
}

impl Place {
    ghost use Rattle.hk_tailoring.specs.Structures.{array_place};

    /// The place of an array with this number in the structure at this place.
    pub fn array(self, n: usize) -> Place
        ensures { result ≡ array_place self n }
    {
        match self {
            Place::Structure(at) => Place::Array(at, n),
            other => other,
        }
    }
}

/// A table of a document.
#[derive(Clone, Copy)]
pub struct Section<'a> {
    pub alloc: Global,
    pub place: Place,
    pub table: &'a Table,
}

impl<'a> Section<'a> {
    ghost use Rattle.hk_tailoring.specs.Keys.{section_of};
    ghost use Rattle.hk_tailoring.specs.Params.{place_section};

    /// The section of a value that is a table.
    pub fn of_table(alloc: Global, place: Place, value: &'a Value) -> Section<'a>
        requires { is_some (as_table (view value.now)) ≡ true }
        ensures { place_section place (view value.now) ≡ Some (section_of result) }
    {
        Section {
            alloc,
            place,
            table: value.as_table().unwrap(),
        }
    }
}

/// A kind of table, by the keys that it may have: those of a parameter depend on whether its values are packed,
/// and on whether they are listed.
#[derive(Clone, Copy, Debug, Drop)]
pub enum TableKind {
    Document,
    Parameter { packed: bool, enumerated: bool },
    Structure,
    Array,
}
