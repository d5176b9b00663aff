//! A tailoring from a file.
ghost use Rattle.std.specs.Prelude.{◌≡◌, OnOk, IfOk, IfErr, Some, None};
ghost use Rattle.hk_tailoring.specs.Checks.{Passes};
ghost use Rattle.hk_tailoring.specs.Keys.{section_of};
ghost use Rattle.hk_tailoring.specs.Files.{document, document_checks, tree_of, file_fault, IsOf, Stands};

use crate::fault::TailoringFault;
use crate::ids::IdSet;
use crate::params::read_params;
use crate::section::{Place, Section, TableKind};
use crate::structures::read_structures;
use crate::widths::read_widths;
use hk_base::{Items, Tailoring};
use std::alloc::Global;

/// Reads a tailoring file: a TOML document of version 1, with widths in whole octets, or of version 2, with packed bits.
/// The fault is the first one in the order of the checks, with the path of its key and the value that was found.
pub fn read(alloc: Global, bytes: &[u8]) -> Result<Tailoring, TailoringFault>
    ensures tailoring { IfOk result (IsOf bytes.now) }
    ensures met { OnOk result (file_fault bytes.now ≡ None) }
    ensures fault { IfErr result (λ fault. ¬ (fault ≡ TailoringFault.Memory) → file_fault bytes.now ≡ Some fault) }
{
    match toml::table_from_slice(alloc, bytes) {
        Ok(table) => tailoring_of(&Section {
            alloc,
            place: Place::Document,
            table: &table,
        }),
        Err(error) => {
            if error.is_memory() {
                Err(TailoringFault::Memory)
            } else {
                Err(TailoringFault::NotToml)
            }
        }
    }
}

/// The tailoring that a document states.
#[tactic(auto, unfolding(crate::specs::Files::document_checks))]
fn tailoring_of(document: &Section<'_>) -> Result<Tailoring, TailoringFault>
    ensures checked { Passes (document_checks (section_of document.now)) result }
    ensures tailoring { IfOk result (Stands (section_of document.now)) }
{
    let alloc = document.alloc;
    let widths = read_widths(document)?;
    let param_tables = document.needed_tables("parameter", 1, 512)?;
    let structure_tables = document.tables("structure", 0, 64)?;
    document.only(TableKind::Document)?;
    let mut ids = IdSet::new(alloc);
    let params = read_params(alloc, &mut ids, &widths, param_tables)?;
    let boots = read_structures(alloc, &widths, params.as_slice(), &ids, structure_tables)?;
    let tailoring = Tailoring::new(
        alloc,
        widths,
        Items::from_vec(params),
        Items::from_vec(boots),
    )?;
    Ok(tailoring)
}
