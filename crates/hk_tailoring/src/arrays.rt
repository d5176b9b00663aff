//! The super-commutated arrays that a structure states.
ghost use Rattle.std.specs.Prelude.{◌≡◌, ◌≤◌, ◌<◌, ◌^◌, ◌∷◌, [], IfOk, OnOk, map, codes, length, is_some};
ghost use Rattle.std.specs.List.{AllByRecursion, AllPass};
ghost use Rattle.toml.specs.Data.{as_table};
ghost use Rattle.toml.specs.View.{view};
ghost use Rattle.hk_base.specs.Fit.{IsFitWidths};
ghost use Rattle.hk_tailoring.specs.Checks.{Passes};
ghost use Rattle.hk_tailoring.specs.Keys.{section_of, list_at};
ghost use Rattle.hk_tailoring.specs.Params.{sections};
ghost use Rattle.hk_tailoring.specs.Structures.{bounds_of, array_checks, array_in, array_place, array_sections, arrays_checks};
ghost use Rattle.hk_tailoring.specs.Sizes.{IsFitArray};

use crate::fault::TailoringFault;
use crate::keys::greatest_in;
use crate::section::{Section, TableKind};
use hk_base::{SuperList, Widths};
use toml::Value;

/// The array that a table states.
#[tactic(auto, unfolding(crate::specs::Structures::array_checks))]
fn read_array(section: &Section<'_>, widths: &Widths) -> Result<SuperList, TailoringFault>
    requires { IsFitWidths widths.now }
    ensures checked { Passes (array_checks (bounds_of widths.now) (section_of section.now)) result }
    ensures array { IfOk result (λ array. array ≡ array_in (section_of section.now)) }
    ensures fit { IfOk result (IsFitArray widths.now) }
{
    let repetition = section.needed_number(
        "repetition",
        1,
        greatest_in(8 * widths.repetition_octets),
    )?;
    let params = section.needed_ids(
        "parameters",
        1,
        255,
        greatest_in(8 * widths.parameter_octets),
    )?;
    section.only(TableKind::Array)?;
    Ok(SuperList {
        repetition: repetition as u32,
        params,
    })
}

/// The arrays that the tables of a structure state.
pub fn read_arrays(
    structure: &Section<'_>,
    widths: &Widths,
    tables: &[Value],
) -> Result<Vec<SuperList>, TailoringFault>
    requires widths { IsFitWidths widths.now }
    requires tables { AllPass (λ value. is_some (as_table (view value))) tables.now }
    ensures checked { Passes (arrays_checks (bounds_of widths.now) (sections (array_place structure.now.place) 0 (map view tables.now))) result }
    ensures arrays { IfOk result (λ arrays. arrays.items ≡ map array_in (sections (array_place structure.now.place) 0 (map view tables.now))) }
    ensures count { IfOk result (λ arrays. length arrays.items ≡ length tables.now) }
    ensures fit { IfOk result (λ arrays. AllByRecursion (IsFitArray widths.now) arrays.items) }
{
    let mut arrays = Vec::new(structure.alloc);
    for (n, value) in tables.iter().enumerate() {
        let section = Section::of_table(structure.alloc, structure.place.array(n), value);
        let array = read_array(&section, widths)?;
        arrays.push(array)?;
    }
    Ok(arrays)
}
