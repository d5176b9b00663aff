//! The structures that a document states.
ghost use Rattle.std.specs.Prelude.{◌≡◌, ◌≤◌, ◌<◌, ◌^◌, ◌++◌, ◌∷◌, [], false, IfOk, OnOk, map, codes, length, is_some};
ghost use Rattle.std.specs.List.{AllByRecursion, AllPass, IsDistinct, list_any};
ghost use Rattle.toml.specs.Data.{as_table};
ghost use Rattle.toml.specs.View.{view};
ghost use Rattle.hk_base.specs.Fit.{IsFitWidths, IsFitParam, IsFitBoot};
ghost use Rattle.hk_base.specs.Parameters.{key_eq};
ghost use Rattle.hk_tailoring.specs.Checks.{Answers, Passes};
ghost use Rattle.hk_tailoring.specs.Ids.{AreIdsOf};
ghost use Rattle.hk_tailoring.specs.Keys.{section_of};
ghost use Rattle.hk_tailoring.specs.Sizes.{IsFitDefinition};
ghost use Rattle.hk_tailoring.specs.Structures as structures;
ghost use Rattle.hk_tailoring.specs.Structures.{bounds_of, kind_checks, kind_in, structure_key_checks, boot_in, next_structure_checks, structures_checks};
ghost use Rattle.hk_tailoring.specs.Params.{sections};
ghost use Rattle.hk_tailoring.specs.declared.section.Place.TheVariants as place;

use crate::arrays::read_arrays;
use crate::definitions::check_definition;
use crate::fault::TailoringFault;
use crate::ids::IdSet;
use crate::keys::greatest_in;
use crate::section::{Place, Section, TableKind};
use hk_base::{Boot, Definition, Items, Key, Kind, Param, Structure, Widths};
use std::alloc::Global;
use toml::Value;

/// The kind of a name.
fn kind_named(text: &str) -> Option<Kind>
    ensures { result ≡ structures.kind_named text.now }
{
    match text {
        "housekeeping" => Some(Kind::Housekeeping),
        "diagnostic" => Some(Kind::Diagnostic),
        _ => None,
    }
}

/// The kind that a structure names.
#[tactic(auto, unfolding(crate::specs::Structures::kind_checks, crate::specs::Structures::kind_in))]
fn read_kind(section: &Section<'_>) -> Result<Kind, TailoringFault>
    ensures kind { Answers (λ kind. kind) (kind_checks (section_of section.now)) (kind_in (section_of section.now)) result }
{
    let Some(value) = section.value("kind") else {
        return Err(section.missing("kind"));
    };
    let Some(text) = value.as_str() else {
        return Err(section.wrong_kind("kind"));
    };
    match kind_named(text) {
        Some(kind) => Ok(kind),
        None => Err(section.wrong_kind("kind")),
    }
}

/// The structure that a table states, by its keys.
#[tactic(auto, unfolding(crate::specs::Structures::structure_key_checks))]
fn read_structure(section: &Section<'_>, widths: &Widths) -> Result<Boot, TailoringFault>
    requires { IsFitWidths widths.now }
    ensures checked { Passes (structure_key_checks (bounds_of widths.now) (section_of section.now)) result }
    ensures boot { IfOk result (λ boot. boot ≡ boot_in (section_of section.now)) }
    ensures id { IfOk result (λ boot. boot.key.id < 256 ^ widths.now.structure_octets) }
    ensures fit { IfOk result (λ boot. IsFitDefinition widths.now boot.structure.def) }
{
    let kind = read_kind(section)?;
    let id = section.needed_number("id", 0, greatest_in(8 * widths.structure_octets))?;
    let interval = section.needed_number("interval", 1, u64::from(widths.max_interval))?;
    let enabled = section.flag("enabled")?;
    let simple = section.ids("simple", 0, 255, greatest_in(8 * widths.parameter_octets))?;
    let tables = section.tables("array", 0, 255)?;
    let arrays = read_arrays(section, widths, tables)?;
    section.only(TableKind::Structure)?;
    let def = Definition {
        interval: interval as u32,
        simple,
        arrays: Items::from_vec(arrays),
    };
    Ok(Boot {
        key: Key {
            kind,
            id: id as u32,
        },
        structure: Structure { def, enabled },
    })
}

fn is_same(a: Key, b: Key) -> bool
    ensures { result ≡ key_eq a b }
{
    a == b
}

/// Whether a structure has this key.
fn has_key(boots: &[Boot], key: Key) -> bool
    ensures { result ≡ list_any (λ e. key_eq e.key key) boots.now }
{
    boots.iter().any(|boot| is_same(boot.key, key))
}

/// Reads the structure that a table states, and puts it last.
#[tactic(auto, unfolding(crate::specs::Structures::next_structure_checks))]
fn add_structure(
    boots: &mut Vec<Boot>,
    section: &Section<'_>,
    widths: &Widths,
    params: &[Param],
    known: &IdSet,
) -> Result<(), TailoringFault>
    requires widths { IsFitWidths widths.now }
    requires params { AllByRecursion (IsFitParam widths.now) params.now }
    requires known { AreIdsOf params.now known.now }
    ensures checked { Passes (next_structure_checks (bounds_of widths.now) params.now boots.old.items (section_of section.now)) result }
    ensures added { OnOk result (boots.new.items ≡ boots.old.items ++ boot_in (section_of section.now) ∷ []) }
    ensures fit { OnOk result (IsFitBoot (record { widths = widths.now; params = params.now; boots = [] }) (boot_in (section_of section.now))) }
    ensures other { OnOk result (list_any (λ e. key_eq e.key (boot_in (section_of section.now)).key) boots.old.items ≡ false) }
{
    let boot = read_structure(section, widths)?;
    if has_key(boots.as_slice(), boot.key) {
        return Err(TailoringFault::RepeatedStructure(boot.key));
    }
    check_definition(section, widths, params, known, &boot.structure.def)?;
    boots.push(boot)?;
    Ok(())
}

/// The structures that the tables of a document state.
pub fn read_structures(
    alloc: Global,
    widths: &Widths,
    params: &[Param],
    known: &IdSet,
    tables: &[Value],
) -> Result<Vec<Boot>, TailoringFault>
    requires widths { IsFitWidths widths.now }
    requires params { AllByRecursion (IsFitParam widths.now) params.now }
    requires known { AreIdsOf params.now known.now }
    requires tables { AllPass (λ value. is_some (as_table (view value))) tables.now }
    ensures checked { Passes (structures_checks (bounds_of widths.now) params.now [] (sections place.Structure 0 (map view tables.now))) result }
    ensures boots { IfOk result (λ boots. boots.items ≡ map boot_in (sections place.Structure 0 (map view tables.now))) }
    ensures count { IfOk result (λ boots. length boots.items ≡ length tables.now) }
    ensures fit { IfOk result (λ boots. AllByRecursion (IsFitBoot (record { widths = widths.now; params = params.now; boots = [] })) boots.items) }
    ensures keys { IfOk result (λ boots. IsDistinct key_eq (map (λ boot. boot.key) boots.items)) }
{
    let mut boots = Vec::new(alloc);
    for (n, value) in tables.iter().enumerate() {
        let section = Section::of_table(alloc, Place::Structure(n), value);
        add_structure(&mut boots, &section, widths, params, known)?;
    }
    Ok(boots)
}
