//! Definitions with more lists.
ghost use Rattle.std.specs.Prelude.{◌≡◌, ◌++◌, IfOk, OnOk};
ghost use Rattle.report_structures.specs.Effects.{extended_definition};

use hk_base::{Definition, Items, Memory, SuperList};
use st03_grammar::Added;
use std::alloc::Global;

/// A definition with lists behind its own.
pub(crate) fn extended(alloc: Global, def: &Definition, added: &Added) -> Result<Definition, Memory>
    ensures { IfOk result (λ longer. longer ≡ extended_definition def.now added.now) }
{
    let simple = joined_ids(alloc, &def.simple, &added.simple)?;
    let arrays = joined_arrays(alloc, &def.arrays, &added.arrays)?;
    Ok(Definition {
        interval: def.interval,
        simple,
        arrays,
    })
}

fn joined_ids(alloc: Global, first: &Items<u32>, second: &Items<u32>) -> Result<Items<u32>, Memory>
    ensures { IfOk result (λ ids. ids ≡ first.now ++ second.now) }
{
    let mut ids = Vec::from_slice(alloc, first.as_slice())?;
    ids.extend_from_slice(second.as_slice())?;
    Ok(Items::from_vec(ids))
}

fn joined_arrays(
    alloc: Global,
    first: &Items<SuperList>,
    second: &Items<SuperList>,
) -> Result<Items<SuperList>, Memory>
    ensures { IfOk result (λ arrays. arrays ≡ first.now ++ second.now) }
{
    let mut arrays = Vec::new(alloc);
    append_copies(alloc, first.as_slice(), &mut arrays)?;
    append_copies(alloc, second.as_slice(), &mut arrays)?;
    Ok(Items::from_vec(arrays))
}

fn append_copies(
    alloc: Global,
    arrays: &[SuperList],
    out: &mut Vec<SuperList>,
) -> Result<(), Memory>
    ensures { OnOk result (out.new.items ≡ out.old.items ++ arrays.now) }
{
    for array in arrays {
        let params = Items::from_slice(alloc, array.params.as_slice())?;
        out.push(SuperList {
            repetition: array.repetition,
            params,
        })?;
    }
    Ok(())
}
