//! Equal copies of the values that hold lists.
ghost use Rattle.std.specs.Prelude.{◌≡◌, IfOk};

use crate::list::Items;
use crate::tailoring::Tailoring;
use crate::types::{Boot, Definition, Form, Memory, Param, Structure, SuperList};
use std::alloc::Global;

/// A value of which an equal one can be made, if there is memory.
trait Copyable {
    fn copied(&self, alloc: Global) -> Result<Self, Memory>
    where
        Self: Sized,
        ensures { IfOk result (λ copy. copy ≡ self.now) };
}

/// Equal copies of all members.
fn copied_items<T: Copyable + Drop>(alloc: Global, items: &[T]) -> Result<Items<T>, Memory>
    ensures { IfOk result (λ copy. copy ≡ items.now) }
{
    let mut copies = Vec::new(alloc);
    for item in items {
        copies.push(item.copied(alloc)?)?;
    }
    Ok(Items::from_vec(copies))
}

impl Copyable for SuperList {
    fn copied(&self, alloc: Global) -> Result<SuperList, Memory> {
        Ok(SuperList {
            repetition: self.repetition,
            params: Items::from_slice(alloc, self.params.as_slice())?,
        })
    }
}

impl Copyable for Form {
    fn copied(&self, alloc: Global) -> Result<Form, Memory> {
        match self {
            Form::Unsigned => Ok(Form::Unsigned),
            Form::Signed => Ok(Form::Signed),
            Form::Enumerated(values) => {
                Ok(Form::Enumerated(Items::from_slice(alloc, values.as_slice())?))
            }
            Form::Boolean => Ok(Form::Boolean),
        }
    }
}

impl Copyable for Param {
    fn copied(&self, alloc: Global) -> Result<Param, Memory> {
        Ok(Param {
            id: self.id,
            form: self.form.copied(alloc)?,
            octets: self.octets,
            bits: self.bits,
            initial: self.initial,
        })
    }
}

impl Copyable for Boot {
    fn copied(&self, alloc: Global) -> Result<Boot, Memory> {
        Ok(Boot {
            key: self.key,
            structure: self.structure.copy(alloc)?,
        })
    }
}

impl Definition {
    /// An equal definition.
    pub fn copy(&self, alloc: Global) -> Result<Definition, Memory>
        ensures { IfOk result (λ copy. copy ≡ self.now) }
    {
        Ok(Definition {
            interval: self.interval,
            simple: Items::from_slice(alloc, self.simple.as_slice())?,
            arrays: copied_items(alloc, self.arrays.as_slice())?,
        })
    }
}

impl Structure {
    /// An equal structure.
    pub fn copy(&self, alloc: Global) -> Result<Structure, Memory>
        ensures { IfOk result (λ copy. copy ≡ self.now) }
    {
        Ok(Structure {
            def: self.def.copy(alloc)?,
            enabled: self.enabled,
        })
    }
}

impl Tailoring {
    /// An equal tailoring.
    pub fn copy(&self, alloc: Global) -> Result<Tailoring, Memory>
        ensures { IfOk result (λ copy. copy ≡ self.now) }
    {
        let params = self.copied_params(alloc)?;
        let boots = copied_items(alloc, self.boots())?;
        Tailoring::new(alloc, *self.widths(), params, boots)
    }

    fn copied_params(&self, alloc: Global) -> Result<Items<Param>, Memory>
        ensures { IfOk result (λ copy. copy ≡ self.now.params) }
    {
        let mut copies = Vec::new(alloc);
        for number in 0..self.param_count() {
            let Some(param) = self.param_at(number) else {
                unreachable!();
            };
            copies.push(param.copied(alloc)?)?;
        }
        Ok(Items::from_vec(copies))
    }
}
