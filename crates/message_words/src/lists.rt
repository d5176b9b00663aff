//! The words of keys, lists and definitions of structures.
ghost use Rattle.std.specs.Prelude.{◌≡◌, ◌++◌, flat_map, OnOk, codes};
ghost use Rattle.std.specs.String.{string_bytes};
ghost use Rattle.message_words.specs.Words.{key_words, words_if_any, array_words, lists_words, definition_words};
ghost use Rattle.message_words.specs.Tails.{tail};

use crate::words::{kind_word, push_named, push_numbers, push_word};
use hk_base::{Definition, Key, SuperList};
use std::alloc::AllocError;

/// Appends the kind and the ID of a structure.
pub fn push_key(line: &mut String, key: Key) -> Result<(), AllocError>
    ensures { OnOk result (string_bytes line.new ≡ string_bytes line.old ++ tail (key_words key)) }
{
    push_named(line, kind_word(key.kind), key.id)
}

/// Appends the simple parameters, where there are any.
fn push_simple(line: &mut String, simple: &[u32]) -> Result<(), AllocError>
    ensures { OnOk result (string_bytes line.new ≡ string_bytes line.old ++ tail (words_if_any (codes "simple") simple.now)) }
{
    if simple.is_empty() {
        return Ok(());
    }
    push_word(line, "simple")?;
    push_numbers(line, simple)
}

/// Appends an array.
fn push_array(line: &mut String, array: &SuperList) -> Result<(), AllocError>
    ensures { OnOk result (string_bytes line.new ≡ string_bytes line.old ++ tail (array_words array.now)) }
{
    push_named(line, "array", array.repetition)?;
    push_numbers(line, array.params.as_slice())
}

/// Appends arrays.
fn push_arrays(line: &mut String, arrays: &[SuperList]) -> Result<(), AllocError>
    ensures { OnOk result (string_bytes line.new ≡ string_bytes line.old ++ tail (flat_map array_words arrays.now)) }
{
    for array in arrays {
        push_array(line, array)?;
    }
    Ok(())
}

/// Appends simple parameters and arrays.
pub fn push_lists(line: &mut String, simple: &[u32], arrays: &[SuperList]) -> Result<(), AllocError>
    ensures { OnOk result (string_bytes line.new ≡ string_bytes line.old ++ tail (lists_words simple.now arrays.now)) }
{
    push_simple(line, simple)?;
    push_arrays(line, arrays)
}

/// Appends an interval and lists.
pub fn push_definition(line: &mut String, def: &Definition) -> Result<(), AllocError>
    ensures { OnOk result (string_bytes line.new ≡ string_bytes line.old ++ tail (definition_words def.now)) }
{
    push_named(line, "interval", def.interval)?;
    push_lists(line, def.simple.as_slice(), def.arrays.as_slice())
}
