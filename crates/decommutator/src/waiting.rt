//! The tags of reports whose blocks aren't written, in order.
ghost use Rattle.std.specs.Prelude.{◌≡◌, ◌≤◌, ◌<◌, ◌++◌, OnOk, IfOk};
ghost use Rattle.std.specs.List.{AllByRecursion};
ghost use Rattle.decommutator.specs.Due as due;
ghost use Rattle.decommutator.specs.Due.{AreRising, with_new};

use hk_base::Memory;

/// Takes off the tags that aren't below one, in logarithmic time and that of moving them.
pub(crate) fn split_from(tags: &mut Vec<u64>, from: u64) -> Result<Vec<u64>, Memory>
    requires { AreRising tags.old.items }
    ensures whole { IfOk result (λ later. tags.new.items ++ later.items ≡ tags.old.items) }
    ensures below { OnOk result (AllByRecursion (λ tag. tag < from) tags.new.items) }
    ensures later { IfOk result (λ later. AllByRecursion (λ tag. from ≤ tag) later.items) }
{
    let place = tags.partition_point(|tag| *tag < from);
    Ok(tags.split_off(place)?)
}

/// Puts a tag in its place.
fn insert_tag(tags: &mut Vec<u64>, tag: u64) -> Result<(), Memory>
    requires { AreRising tags.old.items }
    ensures { OnOk result (tags.new.items ≡ due.insert_tag tag tags.old.items) }
{
    let mut later = split_from(tags, tag)?;
    tags.push(tag)?;
    tags.append(&mut later)?;
    Ok(())
}

/// Puts the tag of a packet that was kept in its place, if one was.
pub(crate) fn add_new(tags: &mut Vec<u64>, new: Option<u64>) -> Result<(), Memory>
    requires { AreRising tags.old.items }
    ensures { OnOk result (tags.new.items ≡ with_new new tags.old.items) }
{
    match new {
        Some(tag) => insert_tag(tags, tag),
        None => Ok(()),
    }
}
