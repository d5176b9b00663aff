//! What a mission has chosen: widths of fields, its parameters, and the structures that the board has from its start.
ghost use Rattle.std.specs.Prelude.{◌≡◌, ◌^◌, length, IfOk, IfSome, OnOk, slice_get, map, nat_eq};
ghost use Rattle.std.specs.List.{IsDistinct};
ghost use Rattle.std.specs.Option.{option_copied};
ghost use Rattle.indexmap.specs.IndexMap.{insert_entry};
ghost use Rattle.hk_base.specs.Keyed.{keyed};
ghost use Rattle.hk_base.specs.Parameters.{parameter, boot_structure, key_eq};
ghost use Rattle.hk_base.specs.Payload.{IsValid};
ghost use Rattle.hk_base.specs.Fit as fit;
ghost use Rattle.hk_base.specs.Fit.{IsFit, IsFitParam};

use crate::list::Items;
use crate::types::{Boot, Key, Memory, Param, Structure, Widths};
use indexmap::IndexMap;
use std::alloc::Global;
use std::marker::Model;

/// A tailoring. It is fit: each number is in its range, IDs and keys are distinct, and each structure is valid.
#[derive(Drop)]
pub struct Tailoring {
    widths: Widths,
    params: IndexMap<u32, Param>,
    boots: Items<Boot>,
}

impl Model for Tailoring {
    ghost use Rattle.hk_base.specs.TailoringParts.{TailoringParts};
    ghost use Rattle.hk_base.specs.Fit.{IsFit};
    ghost use Rattle.hk_base.specs.Keyed.{IsKeyed};
    ghost use Rattle.indexmap.specs.IndexMap.{values};

    ghost Value = { TailoringParts };

    ghost view = { λ t. record { widths = t.widths; params = values t.params; boots = t.boots } };

    ghost invariant = { λ t. IsKeyed t.params.entries × IsFit (record { widths = t.widths; params = values t.params; boots = t.boots }) };
}

impl Tailoring {
    /// The tailoring of these parts.
    pub fn new(
        alloc: Global,
        widths: Widths,
        params: Items<Param>,
        boots: Items<Boot>,
    ) -> Result<Tailoring, Memory>
        requires { IsFit (record { widths = widths; params = params; boots = boots }) }
        ensures { IfOk result (λ tailoring. tailoring ≡ record { widths = widths; params = params; boots = boots }) }
    {
        Ok(Tailoring {
            widths,
            params: by_ids(alloc, params.into_vec())?,
            boots,
        })
    }

    /// The widths of fields, and the limits.
    pub fn widths(&self) -> &Widths
        ensures widths { result.now ≡ self.now.widths }
        ensures fit { IsFit self.now }
    {
        &self.widths
    }

    /// The parameter with this ID.
    pub fn param(&self, id: u32) -> Option<&Param>
        ensures param { option_copied result ≡ parameter self.now id }
        ensures fit_param { IfSome result (λ param. IsFitParam self.now.widths param.now) }
        ensures fit { IsFit self.now }
    {
        self.params.get(&id)
    }

    /// The parameter with this number, from 0, in the order of the tailoring.
    pub fn param_at(&self, number: u32) -> Option<&Param>
        ensures param { option_copied result ≡ slice_get self.now.params number }
        ensures fit_param { IfSome result (λ param. IsFitParam self.now.widths param.now) }
        ensures fit { IsFit self.now }
    {
        match self.params.get_index(number as usize) {
            Some((_, param)) => Some(param),
            None => None,
        }
    }

    /// The number of parameters.
    pub fn param_count(&self) -> u32
        ensures count { result ≡ length self.now.params }
        ensures fit { IsFit self.now }
    {
        self.params.len() as u32
    }

    /// The structure that the board has under this key from its start.
    pub fn boot(&self, key: Key) -> Option<&Structure>
        ensures structure { option_copied result ≡ boot_structure self.now key }
        ensures valid { IfSome result (λ structure. IsValid self.now structure.now.def) }
        ensures fit { IsFit self.now }
    {
        for boot in self.boots.as_slice() {
            if is_same(boot.key, key) {
                return Some(&boot.structure);
            }
        }
        None
    }

    /// The structures that the board has from its start.
    pub fn boots(&self) -> &[Boot]
        ensures boots { result.now ≡ self.now.boots }
        ensures fit { IsFit self.now }
    {
        self.boots.as_slice()
    }
}

/// Each parameter under its ID.
fn by_ids(alloc: Global, params: Vec<Param>) -> Result<IndexMap<u32, Param>, Memory>
    requires { IsDistinct nat_eq (map (λ param. param.id) params.items) }
    ensures { IfOk result (λ by_id. by_id.entries ≡ keyed params.items) }
{
    let mut by_id = IndexMap::new(alloc);
    for param in params {
        add(&mut by_id, param)?;
    }
    Ok(by_id)
}

/// Puts a parameter last.
fn add(by_id: &mut IndexMap<u32, Param>, param: Param) -> Result<(), Memory>
    ensures { OnOk result (by_id.new.entries ≡ insert_entry nat_eq by_id.old.entries param.id param) }
{
    by_id.insert(param.id, param)?;
    Ok(())
}

fn is_same(a: Key, b: Key) -> bool
    ensures { result ≡ key_eq a b }
{
    a == b
}

/// The slot that a tag lies in.
pub fn slot_of(tailoring: &Tailoring, tag: u64) -> u64
    ensures slot { result ≡ fit.slot_of tailoring.now tag }
    ensures fit { IsFit tailoring.now }
{
    tag / tailoring.widths.slot
}

/// The greatest tag that the time field can hold.
pub fn greatest_tag(tailoring: &Tailoring) -> u64
    ensures greatest { result ≡ fit.greatest_tag tailoring.now }
    ensures fit { IsFit tailoring.now }
{
    let octets = tailoring.widths.coarse + tailoring.widths.fine;
    256u64.pow(u32::from(octets)) - 1
}
