//! How many octets the values of a report have.
ghost use Rattle.std.specs.Prelude.{◌≡◌, ◌≤◌, ◌*◌, List, [], ◌∷◌, All, find, length, ◌==◌};
ghost use Rattle.std.specs.List.{AllByRecursion};
ghost use Rattle.std.specs.Option.{option_copied};
ghost use Rattle.hk_base.specs.declared.types.Param.{Param};
ghost use Rattle.hk_base.specs.TailoringParts.{TailoringParts};
ghost use Rattle.hk_base.specs.Definitions.{IsWellFormed, IsSmallArray};
ghost use Rattle.hk_base.specs.Fit.{IsFit, IsFitShape, IsFitWidths, IsFitParam};
ghost use Rattle.hk_base.specs.Payload as payload;
ghost use Rattle.hk_base.specs.Payload.{ids_bits, ids_octets};

use crate::tailoring::Tailoring;
use crate::types::{Definition, Param, Widths};

/// Where parameters are looked up by their IDs.
trait ParamTable {
    ghost params: { Self → List Param };

    /// The first parameter with this ID.
    fn find_param(&self, id: u32) -> Option<&Param>
        ensures { option_copied result ≡ find (λ param. param.id == id) (params self.now) };
}

impl ParamTable for Tailoring {
    ghost params = { λ tailoring. tailoring.params };

    fn find_param(&self, id: u32) -> Option<&Param> {
        self.param(id)
    }
}

impl ParamTable for &[Param] {
    ghost params = { λ params. params.now };

    fn find_param(&self, id: u32) -> Option<&Param> {
        self.iter().find(|param| param.id == id)
    }
}

/// The number of octets of a payload, by the parts of a tailoring.
pub fn payload_size(widths: &Widths, params: &[Param], def: &Definition) -> u32
    requires widths { IsFitWidths widths.now }
    requires params { AllByRecursion (IsFitParam widths.now) params.now }
    requires formed { IsWellFormed (record { widths = widths.now; params = params.now; boots = [] }) def.now }
    ensures { result ≡ payload.payload_size (record { widths = widths.now; params = params.now; boots = [] }) def.now }
{
    let _most = widths.max_interval;
    size_in(&params, def)
}

impl Tailoring {
    /// The number of octets of a payload.
    pub fn payload_size(&self, def: &Definition) -> u32
        requires { IsWellFormed self.now def.now }
        ensures size { result ≡ payload.payload_size self.now def.now }
        ensures fit { IsFit self.now }
    {
        let _most = self.widths().max_interval;
        size_in(self, def)
    }
}

/// The number of octets of a payload whose parameters are in the table.
fn size_in<P: ParamTable>(table: &P, def: &Definition) -> u32
    requires shapes { AllByRecursion IsFitShape (P.params table.now) }
    requires simple { length def.now.simple ≤ 255 }
    requires arrays { length def.now.arrays ≤ 255 }
    requires each { All IsSmallArray def.now.arrays }
    ensures { (t : TailoringParts) → t.params ≡ P.params table.now → result ≡ payload.payload_size t def.now }
{
    let mut octets = group_size(table, def.simple.as_slice());
    for array in def.arrays.as_slice() {
        octets += array.repetition * group_size(table, array.params.as_slice());
    }
    octets
}

/// The number of octets of one group of values.
fn group_size<P: ParamTable>(table: &P, ids: &[u32]) -> u32
    requires shapes { AllByRecursion IsFitShape (P.params table.now) }
    requires few { length ids.now ≤ 255 }
    ensures octets { result ≡ ids_octets (P.params table.now) ids.now }
    ensures most { result ≤ 2040 }
{
    let mut bits = 0u32;
    for id in ids {
        bits += bits_of(table, *id);
    }
    bits.div_ceil(8)
}

/// The number of bits of a value of the parameter with this ID.
fn bits_of<P: ParamTable>(table: &P, id: u32) -> u32
    requires { AllByRecursion IsFitShape (P.params table.now) }
    ensures bits { result ≡ ids_bits (P.params table.now) (id ∷ []) }
    ensures most { result ≤ 64 }
{
    match table.find_param(id) {
        Some(param) => u32::from(param.bits),
        None => 0,
    }
}
