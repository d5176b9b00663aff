//! The parameters that a document states.
ghost use Rattle.std.specs.Prelude.{◌≡◌, ◌≤◌, ◌<◌, ◌^◌, ◌+◌, ◌*◌, ◌/◌, ◌++◌, ◌∷◌, [], ⊤};
ghost use Rattle.std.specs.Prelude.{IfOk, IfSome, OnOk, OnErr, IsTrue, MatchBool, false, ◌==◌, map, nat_eq, codes, length, is_some};
ghost use Rattle.std.specs.List.{AllByRecursion, AllPass, IsDistinct, list_any};
ghost use Rattle.toml.specs.Data.{as_table};
ghost use Rattle.toml.specs.View.{view};
ghost use Rattle.hk_base.specs.Parameters.{fits as value_fits};
ghost use Rattle.hk_base.specs.Fit.{IsWithin, IsFitForm, IsFitShape, IsFitParam};
ghost use Rattle.hk_tailoring.specs.Checks.{Answers, Passes};
ghost use Rattle.hk_tailoring.specs.Ids.{AreIdsOf};
ghost use Rattle.hk_tailoring.specs.Keys.{section_of};
ghost use Rattle.hk_tailoring.specs.Params as params;
ghost use Rattle.hk_tailoring.specs.Params.{form_checks, form_name_in, bits_checks, bits_in, values_checks, form_of};
ghost use Rattle.hk_tailoring.specs.Params.{initial_checks, initial_in, param_checks, param_in, next_param_checks, params_checks, sections};
ghost use Rattle.hk_tailoring.specs.declared.section.Place.TheVariants.{Parameter};

use crate::fault::TailoringFault;
use crate::ids::IdSet;
use crate::keys::greatest_in;
use crate::section::{Place, Section, TableKind};
use hk_base::{Form, Param, Widths, fits};
use std::alloc::Global;
use toml::Value;

/// The form of a parameter by its name alone.
#[derive(Clone, Copy, Debug, Drop)]
pub enum FormName {
    Unsigned,
    Signed,
    Enumerated,
    Boolean,
}

impl FormName {
    fn is_enumerated(self) -> bool
        ensures { result ≡ params.is_enumerated self }
    {
        matches!(self, FormName::Enumerated)
    }
}

/// The form of a name.
fn form_named(text: &str) -> Option<FormName>
    ensures { result ≡ params.form_named text.now }
{
    match text {
        "unsigned" => Some(FormName::Unsigned),
        "signed" => Some(FormName::Signed),
        "enumerated" => Some(FormName::Enumerated),
        "boolean" => Some(FormName::Boolean),
        _ => None,
    }
}

/// The form that a parameter names.
#[tactic(auto, unfolding(crate::specs::Params::form_checks, crate::specs::Params::form_name_in))]
fn read_form_name(section: &Section<'_>) -> Result<FormName, TailoringFault>
    ensures name { Answers (λ name. name) (form_checks (section_of section.now)) (form_name_in (section_of section.now)) result }
{
    let Some(value) = section.value("kind") else {
        return Err(section.missing("kind"));
    };
    let Some(text) = value.as_str() else {
        return Err(section.wrong_kind("kind"));
    };
    match form_named(text) {
        Some(name) => Ok(name),
        None => Err(section.wrong_kind("kind")),
    }
}

/// The bits of a parameter, which states them or its octets.
#[tactic(auto, unfolding(crate::specs::Params::bits_checks, crate::specs::Params::bits_in))]
fn read_bits(section: &Section<'_>, packed: bool) -> Result<u8, TailoringFault>
    ensures bits { Answers (λ bits. bits) (bits_checks packed (section_of section.now)) (bits_in packed (section_of section.now)) result }
    ensures within { IfOk result (IsWithin 1 64) }
    ensures whole { IfOk result (λ bits. MatchBool packed ⊤ (bits ≡ 8 * ((bits + 7) / 8))) }
{
    if packed {
        let bits = section.needed_number("bits", 1, 64)?;
        Ok(bits as u8)
    } else {
        let octets = section.needed_number("octets", 1, 8)?;
        Ok(8 * octets as u8)
    }
}

/// The form of a name, with the values that the parameter lists.
#[tactic(auto, unfolding(crate::specs::Params::values_checks))]
fn read_form(section: &Section<'_>, name: FormName, bits: u8) -> Result<Form, TailoringFault>
    requires { IsWithin 1 64 bits }
    ensures form { Answers (λ form. form) (values_checks name bits (section_of section.now)) (form_of name (section_of section.now)) result }
    ensures fit { IfOk result (λ form. IsFitForm form bits) }
{
    match name {
        FormName::Unsigned => Ok(Form::Unsigned),
        FormName::Signed => Ok(Form::Signed),
        FormName::Enumerated => {
            let values = section.needed_values("values", 1, 64, bits)?;
            Ok(Form::Enumerated(values))
        }
        FormName::Boolean => Ok(Form::Boolean),
    }
}

/// The initial value of a parameter, if it has one.
#[tactic(auto, unfolding(crate::specs::Params::initial_checks))]
fn read_initial(
    section: &Section<'_>,
    param: &Param,
) -> Result<Option<hk_base::Value>, TailoringFault>
    requires { IsFitShape param.now }
    ensures initial { let s = section_of section.now in Answers (λ v. v) (initial_checks param.now.form param.now.bits s) (initial_in s) result }
    ensures fit { IfOk result (λ initial. IfSome initial (λ v. IsTrue (value_fits param.now v))) }
{
    let Some(value) = section.value("initial") else {
        return Ok(None);
    };
    let Some(number) = value.as_integer() else {
        return Err(section.wrong_kind("initial"));
    };
    if fits(param, hk_base::Value::from(number)) {
        Ok(Some(hk_base::Value::from(number)))
    } else {
        Err(section.out_of_range("initial", number))
    }
}

/// The parameter that a table states.
#[tactic(auto, unfolding(crate::specs::Params::param_checks))]
fn read_param(section: &Section<'_>, widths: &Widths) -> Result<Param, TailoringFault>
    requires { IsWithin 1 2 widths.now.parameter_octets }
    ensures checked { Passes (param_checks widths.now.parameter_octets widths.now.packed (section_of section.now)) result }
    ensures param { IfOk result (λ param. param ≡ param_in widths.now.packed (section_of section.now)) }
    ensures fit { IfOk result (IsFitParam widths.now) }
{
    let id = section.needed_number("id", 0, greatest_in(8 * widths.parameter_octets))?;
    let name = read_form_name(section)?;
    let bits = read_bits(section, widths.packed)?;
    let form = read_form(section, name, bits)?;
    let mut param = Param {
        id: id as u32,
        form,
        octets: bits.div_ceil(8),
        bits,
        initial: None,
    };
    let initial = read_initial(section, &param)?;
    section.only(TableKind::Parameter {
        packed: widths.packed,
        enumerated: name.is_enumerated(),
    })?;
    param.initial = initial;
    Ok(param)
}

/// Reads the parameter that a table states, and puts it last. Its ID is among those before afterwards.
#[tactic(auto, unfolding(crate::specs::Params::next_param_checks))]
fn add_param(
    params: &mut Vec<Param>,
    ids: &mut IdSet,
    section: &Section<'_>,
    widths: &Widths,
) -> Result<(), TailoringFault>
    requires octets { IsWithin 1 2 widths.now.parameter_octets }
    requires ids { AreIdsOf params.old.items ids.old }
    ensures checked { Passes (next_param_checks widths.now.parameter_octets widths.now.packed params.old.items (section_of section.now)) result }
    ensures added { OnOk result (params.new.items ≡ params.old.items ++ param_in widths.now.packed (section_of section.now) ∷ []) }
    ensures fit { OnOk result (IsFitParam widths.now (param_in widths.now.packed (section_of section.now))) }
    ensures other { OnOk result (list_any (λ e. e.id == (param_in widths.now.packed (section_of section.now)).id) params.old.items ≡ false) }
    ensures ids { OnOk result (AreIdsOf params.new.items ids.new) }
{
    let param = read_param(section, widths)?;
    let new = ids.add(param.id)?;
    if !new {
        return Err(TailoringFault::RepeatedParam(param.id));
    }
    params.push(param)?;
    Ok(())
}

/// The parameters that the tables of a document state. Their IDs are put into an empty set.
pub fn read_params(
    alloc: Global,
    ids: &mut IdSet,
    widths: &Widths,
    tables: &[Value],
) -> Result<Vec<Param>, TailoringFault>
    requires none { ids.old ≡ [] }
    requires octets { IsWithin 1 2 widths.now.parameter_octets }
    requires tables { AllPass (λ value. is_some (as_table (view value))) tables.now }
    ensures checked { Passes (params_checks widths.now.parameter_octets widths.now.packed [] (sections Parameter 0 (map view tables.now))) result }
    ensures params { IfOk result (λ params. params.items ≡ map (param_in widths.now.packed) (sections Parameter 0 (map view tables.now))) }
    ensures count { IfOk result (λ params. length params.items ≡ length tables.now) }
    ensures fit { IfOk result (λ params. AllByRecursion (IsFitParam widths.now) params.items) }
    ensures ids { IfOk result (λ params. IsDistinct nat_eq (map (λ param. param.id) params.items)) }
    ensures known { IfOk result (λ params. AreIdsOf params.items ids.new) }
{
    let mut params = Vec::new(alloc);
    for (n, value) in tables.iter().enumerate() {
        let section = Section::of_table(alloc, Place::Parameter(n), value);
        add_param(&mut params, ids, &section, widths)?;
    }
    Ok(params)
}
