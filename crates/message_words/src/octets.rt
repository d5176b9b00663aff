//! The octets that the words of a body stand for.
//!
//! Each function goes by the places of the words alone: the decoder of the body finds what isn't of the grammar, and the
//! comparison with the line what isn't its words. A number that its field has no room for puts no octets.
ghost use Rattle.std.specs.Prelude.{◌≡◌, ◌≤◌, ◌^◌, ◌++◌, ◌∷◌, [], List, ℕ, length, map, flat_map, IfOk, OnOk};
ghost use Rattle.message_words.specs.Lines.{texts};
ghost use Rattle.message_words.specs.BodyOctets as spelling;
ghost use Rattle.message_words.specs.BodyOctets.{field, number_octets, list_octets, parameters_octets, array_octets, section_octets, lists_octets, creation_octets, appending_octets, alternating_octets, pair_octets, setting_octets_from, setting_octets, deleted, structure_octets, statistics_octets, request20_octets};

use crate::commands::{StatisticsCommand, StructureCommand, ValueCommand};
use crate::lines::sections_in;
use crate::numbers::{number_in, value_in};
use body_fields::write_value_of;
use hk_base::{Memory, Tailoring, Value, fits, put_uint};
use std::alloc::Global;

/// Appends the body of a request on structures.
pub fn put_structure_request(
    alloc: Global,
    tailoring: &Tailoring,
    command: StructureCommand,
    words: &[&str],
    out: &mut Vec<u8>,
) -> Result<(), Memory>
    ensures { OnOk result (out.new.items ≡ out.old.items ++ structure_octets tailoring.now command (texts words.now)) }
{
    match command {
        StructureCommand::Create => put_creation(alloc, tailoring, words, out),
        StructureCommand::Append => put_appending(alloc, tailoring, words, out),
        StructureCommand::OnEach(_) => {
            put_list(tailoring, tailoring.widths().structure_octets, words, out)
        }
        StructureCommand::Intervals => put_pairs(tailoring, words, out),
    }
}

/// Appends the body of a statistics request.
pub fn put_statistics_request(
    tailoring: &Tailoring,
    command: StatisticsCommand,
    words: &[&str],
    out: &mut Vec<u8>,
) -> Result<(), Memory>
    ensures { OnOk result (out.new.items ≡ out.old.items ++ statistics_octets tailoring.now command (texts words.now)) }
{
    let widths = tailoring.widths();
    match command {
        StatisticsCommand::Report => put_numbers(1, words, out),
        StatisticsCommand::Enable => put_numbers(widths.interval_octets, words, out),
        StatisticsCommand::Add => put_list(tailoring, widths.parameter_octets, words, out),
        StatisticsCommand::Delete => put_deleted(tailoring, words, out),
        StatisticsCommand::Reset
        | StatisticsCommand::Disable
        | StatisticsCommand::ShowDefinitions => Ok(()),
    }
}

/// Appends the body of a request on parameter values.
pub fn put_value_request(
    tailoring: &Tailoring,
    command: ValueCommand,
    words: &[&str],
    out: &mut Vec<u8>,
) -> Result<(), Memory>
    ensures { OnOk result (out.new.items ≡ out.old.items ++ request20_octets tailoring.now command (texts words.now)) }
{
    match command {
        ValueCommand::Report => {
            put_list(tailoring, tailoring.widths().parameter_octets, words, out)
        }
        ValueCommand::Set => put_settings(tailoring, words, out),
    }
}

/// How many numbers a field of so many octets has room for.
fn capacity(octets: u8) -> u64
    requires { octets ≤ 4 }
    ensures { result ≡ 256 ^ octets }
{
    256u64.pow(u32::from(octets))
}

/// Appends a number in a field of so many octets, if the field has room for it.
fn put_field(octets: u8, number: u32, out: &mut Vec<u8>) -> Result<(), Memory>
    requires { (1 ≤ octets) × (octets ≤ 4) }
    ensures { OnOk result (out.new.items ≡ out.old.items ++ field octets number) }
{
    if u64::from(number) < capacity(octets) {
        put_uint(out, octets, u128::from(number))?;
    }
    Ok(())
}

/// Appends a number of members.
fn put_count(tailoring: &Tailoring, count: usize, out: &mut Vec<u8>) -> Result<(), Memory>
    ensures { OnOk result (out.new.items ≡ out.old.items ++ spelling.count_octets tailoring.now count) }
{
    let octets = tailoring.widths().count_octets;
    if (count as u64) < capacity(octets) {
        put_uint(out, octets, count as u128)?;
    }
    Ok(())
}

/// Appends numbers in fields of so many octets each.
fn put_numbers(octets: u8, words: &[&str], out: &mut Vec<u8>) -> Result<(), Memory>
    requires { (1 ≤ octets) × (octets ≤ 4) }
    ensures { OnOk result (out.new.items ≡ out.old.items ++ number_octets octets (texts words.now)) }
{
    for word in words {
        put_field(octets, number_in(word), out)?;
    }
    Ok(())
}

/// Appends a list of numbers in fields of so many octets each.
fn put_list(
    tailoring: &Tailoring,
    octets: u8,
    words: &[&str],
    out: &mut Vec<u8>,
) -> Result<(), Memory>
    requires { (1 ≤ octets) × (octets ≤ 4) }
    ensures { OnOk result (out.new.items ≡ out.old.items ++ list_octets tailoring.now octets (texts words.now)) }
{
    put_count(tailoring, words.len(), out)?;
    put_numbers(octets, words, out)
}

/// Appends a structure's ID, its interval, and its lists.
fn put_creation(
    alloc: Global,
    tailoring: &Tailoring,
    words: &[&str],
    out: &mut Vec<u8>,
) -> Result<(), Memory>
    ensures { OnOk result (out.new.items ≡ out.old.items ++ creation_octets tailoring.now (texts words.now)) }
{
    let widths = tailoring.widths();
    match words {
        [id, _, interval, lists @ ..] => {
            put_field(widths.structure_octets, number_in(id), out)?;
            put_field(widths.interval_octets, number_in(interval), out)?;
            put_lists(alloc, tailoring, lists, out)
        }
        _ => Ok(()),
    }
}

/// Appends a structure's ID, and lists.
fn put_appending(
    alloc: Global,
    tailoring: &Tailoring,
    words: &[&str],
    out: &mut Vec<u8>,
) -> Result<(), Memory>
    ensures { OnOk result (out.new.items ≡ out.old.items ++ appending_octets tailoring.now (texts words.now)) }
{
    let widths = tailoring.widths();
    match words {
        [id, lists @ ..] => {
            put_field(widths.structure_octets, number_in(id), out)?;
            put_lists(alloc, tailoring, lists, out)
        }
        [] => Ok(()),
    }
}

/// Appends simple parameters, and arrays.
fn put_lists(
    alloc: Global,
    tailoring: &Tailoring,
    words: &[&str],
    out: &mut Vec<u8>,
) -> Result<(), Memory>
    ensures { OnOk result (out.new.items ≡ out.old.items ++ lists_octets tailoring.now (texts words.now)) }
{
    let sections = sections_in(alloc, words, "array")?;
    put_sections(tailoring, &sections, out)
}

/// Appends simple parameters, and arrays.
fn put_sections(
    tailoring: &Tailoring,
    sections: &[&[&str]],
    out: &mut Vec<u8>,
) -> Result<(), Memory>
    ensures { OnOk result (out.new.items ≡ out.old.items ++ section_octets tailoring.now (map (λ part. texts part.now) sections.now)) }
{
    match sections {
        [simple, arrays @ ..] => {
            put_simple(tailoring, simple, out)?;
            put_count(tailoring, arrays.len(), out)?;
            put_arrays(tailoring, arrays, out)
        }
        [] => Ok(()),
    }
}

/// Appends the simple parameters behind their word, where they have one.
fn put_simple(tailoring: &Tailoring, words: &[&str], out: &mut Vec<u8>) -> Result<(), Memory>
    ensures { OnOk result (out.new.items ≡ out.old.items ++ parameters_octets tailoring.now (spelling.behind_name (texts words.now))) }
{
    let octets = tailoring.widths().parameter_octets;
    match words {
        [_, ids @ ..] => put_list(tailoring, octets, ids, out),
        [] => put_list(tailoring, octets, words, out),
    }
}

/// Appends arrays.
fn put_arrays(tailoring: &Tailoring, arrays: &[&[&str]], out: &mut Vec<u8>) -> Result<(), Memory>
    ensures { OnOk result (out.new.items ≡ out.old.items ++ flat_map (array_octets tailoring.now) (map (λ part. texts part.now) arrays.now)) }
{
    for array in arrays {
        put_array(tailoring, array, out)?;
    }
    Ok(())
}

/// Appends a repetition number and parameters.
fn put_array(tailoring: &Tailoring, words: &[&str], out: &mut Vec<u8>) -> Result<(), Memory>
    ensures { OnOk result (out.new.items ≡ out.old.items ++ array_octets tailoring.now (texts words.now)) }
{
    let widths = tailoring.widths();
    match words {
        [repetition, ids @ ..] => {
            put_field(widths.repetition_octets, number_in(repetition), out)?;
            put_list(tailoring, widths.parameter_octets, ids, out)
        }
        [] => Ok(()),
    }
}

/// Appends structures' IDs, and an interval after each.
fn put_pairs(tailoring: &Tailoring, words: &[&str], out: &mut Vec<u8>) -> Result<(), Memory>
    ensures { OnOk result (out.new.items ≡ out.old.items ++ pair_octets tailoring.now (texts words.now)) }
{
    let widths = tailoring.widths();
    put_count(tailoring, words.len() / 2, out)?;
    put_alternating(widths.structure_octets, widths.interval_octets, words, out)
}

/// Appends numbers in fields of the one width and of the other in turn.
fn put_alternating(octets: u8, other: u8, words: &[&str], out: &mut Vec<u8>) -> Result<(), Memory>
    requires one { (1 ≤ octets) × (octets ≤ 4) }
    requires two { (1 ≤ other) × (other ≤ 4) }
    ensures { OnOk result (out.new.items ≡ out.old.items ++ alternating_octets octets other (texts words.now)) }
{
    let mut width = octets;
    let mut next = other;
    for word in words {
        put_field(width, number_in(word), out)?;
        let last = width;
        width = next;
        next = last;
    }
    Ok(())
}

/// Appends parameters' IDs, and a value after each.
fn put_settings(tailoring: &Tailoring, words: &[&str], out: &mut Vec<u8>) -> Result<(), Memory>
    ensures { OnOk result (out.new.items ≡ out.old.items ++ setting_octets tailoring.now (texts words.now)) }
{
    put_count(tailoring, words.len() / 2, out)?;
    put_ids_and_values(tailoring, words, out)
}

fn put_ids_and_values(
    tailoring: &Tailoring,
    words: &[&str],
    out: &mut Vec<u8>,
) -> Result<(), Memory>
    ensures { OnOk result (out.new.items ≡ out.old.items ++ setting_octets_from tailoring.now None (texts words.now)) }
{
    let mut param = None;
    for word in words {
        param = put_id_or_value(tailoring, param, word, out)?;
    }
    Ok(())
}

/// Appends the ID of a parameter, which is answered, or a value of the parameter that stood before.
fn put_id_or_value(
    tailoring: &Tailoring,
    before: Option<u32>,
    word: &str,
    out: &mut Vec<u8>,
) -> Result<Option<u32>, Memory>
    ensures { IfOk result (λ after. (words : List (List ℕ))
        → out.new.items ++ setting_octets_from tailoring.now after words ≡ out.old.items ++ setting_octets_from tailoring.now before (word.now ∷ words)) }
{
    match before {
        None => {
            let id = number_in(word);
            put_field(tailoring.widths().parameter_octets, id, out)?;
            Ok(Some(id))
        }
        Some(id) => {
            put_value(tailoring, id, value_in(word), out)?;
            Ok(None)
        }
    }
}

/// Appends a value that the parameter with this ID can have, in the parameter's octets.
fn put_value(tailoring: &Tailoring, id: u32, value: Value, out: &mut Vec<u8>) -> Result<(), Memory>
    ensures { OnOk result (out.new.items ≡ out.old.items ++ spelling.value_octets tailoring.now id value) }
{
    match tailoring.param(id) {
        Some(param) if fits(param, value) => write_value_of(tailoring, id, value, out),
        _ => Ok(()),
    }
}

/// Appends the parameters that are deleted: none where the one word is `all`.
fn put_deleted(tailoring: &Tailoring, words: &[&str], out: &mut Vec<u8>) -> Result<(), Memory>
    ensures { OnOk result (out.new.items ≡ out.old.items ++ parameters_octets tailoring.now (deleted (texts words.now))) }
{
    let octets = tailoring.widths().parameter_octets;
    match words {
        [word] if *word == "all" => put_count(tailoring, 0, out),
        _ => put_list(tailoring, octets, words, out),
    }
}
