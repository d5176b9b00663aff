//! The words of requests.
ghost use Rattle.std.specs.Prelude.{◌≡◌, ◌++◌, ◌∷◌, [], flat_map, OnOk, IfOk};
ghost use Rattle.std.specs.String.{string_bytes};
ghost use Rattle.message_words.specs.Words as spelling;
ghost use Rattle.message_words.specs.Words.{housekeeping_words, statistics_words, value_words, pair_words, setting_words, deletion_words, request_body_words, request_text};
ghost use Rattle.message_words.specs.Tails.{tail};

use crate::lists::{push_definition, push_key, push_lists};
use crate::words::{
    kind_word, push_hex, push_named, push_number, push_numbers, push_value, push_word,
};
use hk_base::{Kind, Memory, Octets};
use pus_messages::{Request, RequestBody};
use st03_grammar::{Each, Pair, Request03};
use st04_grammar::Request04;
use st20_grammar::{Request20, Setting};
use std::alloc::{AllocError, Global};
use std::fmt::Write;

/// The words of a request: its count, its acknowledgement flags as one hexadecimal digit, and its body.
pub fn request_words(alloc: Global, request: &Request) -> Result<Octets, Memory>
    ensures { IfOk result (λ words. words ≡ request_text request.now) }
{
    let mut line = String::new(alloc);
    let count = request.header.count;
    write!(line, "{count}")?;
    push_hex(&mut line, 1, u32::from(request.header.flags))?;
    push_body(&mut line, &request.body)?;
    Ok(Octets::from_vec(line.into_bytes()))
}

fn push_body(line: &mut String, body: &RequestBody) -> Result<(), AllocError>
    ensures { OnOk result (string_bytes line.new ≡ string_bytes line.old ++ tail (request_body_words body.now)) }
{
    match body {
        RequestBody::Hk(request) => push_housekeeping(line, request),
        RequestBody::Stat(request) => push_statistics(line, request),
        RequestBody::Par(request) => push_request20(line, request),
    }
}

fn push_housekeeping(line: &mut String, request: &Request03) -> Result<(), AllocError>
    ensures { OnOk result (string_bytes line.new ≡ string_bytes line.old ++ tail (housekeeping_words request.now)) }
{
    match request {
        Request03::Create(key, def) => {
            push_word(line, "create")?;
            push_key(line, *key)?;
            push_definition(line, def)
        }
        Request03::Append(key, added) => {
            push_word(line, "append")?;
            push_key(line, *key)?;
            push_lists(line, added.simple.as_slice(), added.arrays.as_slice())
        }
        Request03::OnEach(each, kind, ids) => {
            push_heading(line, each_word(*each), *kind)?;
            push_numbers(line, ids.as_slice())
        }
        Request03::Intervals(kind, pairs) => {
            push_heading(line, "interval", *kind)?;
            push_pairs(line, pairs.as_slice())
        }
    }
}

/// Appends what is asked, and of which kind of structures.
fn push_heading(line: &mut String, what: &str, kind: Kind) -> Result<(), AllocError>
    ensures { OnOk result (string_bytes line.new ≡ string_bytes line.old ++ tail (what.now ∷ spelling.kind_word kind ∷ [])) }
{
    push_word(line, what)?;
    push_word(line, kind_word(kind))
}

/// The word of what is asked of each structure of a list.
fn each_word(each: Each) -> &'static str
    ensures { result.now ≡ spelling.each_word each }
{
    match each {
        Each::Delete => "delete",
        Each::Enable => "enable",
        Each::Disable => "disable",
        Each::Show => "structures",
        Each::OneShot => "oneshot",
        Each::ShowPeriodic => "periodic",
    }
}

fn push_pairs(line: &mut String, pairs: &[Pair]) -> Result<(), AllocError>
    ensures { OnOk result (string_bytes line.new ≡ string_bytes line.old ++ tail (flat_map pair_words pairs.now)) }
{
    for pair in pairs {
        push_number(line, pair.id)?;
        push_number(line, pair.interval)?;
    }
    Ok(())
}

fn push_statistics(line: &mut String, request: &Request04) -> Result<(), AllocError>
    ensures { OnOk result (string_bytes line.new ≡ string_bytes line.old ++ tail (statistics_words request.now)) }
{
    match request {
        Request04::Report(resets) => {
            push_word(line, "stat-report")?;
            push_word(line, flag_word(*resets))
        }
        Request04::Reset => push_word(line, "stat-reset"),
        Request04::Enable(interval) => push_named(line, "stat-enable", *interval),
        Request04::Disable => push_word(line, "stat-disable"),
        Request04::Add(ids) => {
            push_word(line, "stat-add")?;
            push_numbers(line, ids.as_slice())
        }
        Request04::Delete(ids) => {
            push_word(line, "stat-delete")?;
            push_deleted(line, ids.as_slice())
        }
        Request04::ShowDefinitions => push_word(line, "stat-definitions"),
    }
}

/// The word of a flag.
fn flag_word(flag: bool) -> &'static str
    ensures { result.now ≡ spelling.flag_word flag }
{
    if flag { "1" } else { "0" }
}

/// Appends the parameters that are deleted, or `all` where there is none.
fn push_deleted(line: &mut String, ids: &[u32]) -> Result<(), AllocError>
    ensures { OnOk result (string_bytes line.new ≡ string_bytes line.old ++ tail (deletion_words ids.now)) }
{
    if ids.is_empty() {
        return push_word(line, "all");
    }
    push_numbers(line, ids)
}

fn push_request20(line: &mut String, request: &Request20) -> Result<(), AllocError>
    ensures { OnOk result (string_bytes line.new ≡ string_bytes line.old ++ tail (value_words request.now)) }
{
    match request {
        Request20::Report(ids) => {
            push_word(line, "report-values")?;
            push_numbers(line, ids.as_slice())
        }
        Request20::Set(settings) => {
            push_word(line, "set")?;
            push_settings(line, settings.as_slice())
        }
    }
}

fn push_settings(line: &mut String, settings: &[Setting]) -> Result<(), AllocError>
    ensures { OnOk result (string_bytes line.new ≡ string_bytes line.old ++ tail (flat_map setting_words settings.now)) }
{
    for setting in settings {
        push_number(line, setting.param)?;
        push_value(line, setting.value)?;
    }
    Ok(())
}
