//! The block of a parameter report.
ghost use Rattle.std.specs.Prelude.{◌≡◌, ◌≤◌, true, length};
ghost use Rattle.body_fields.specs.Outcomes.{Appends};
ghost use Rattle.hk_base.specs.Definitions.{IsWellFormed};
ghost use Rattle.message_words.specs.Words as words;
ghost use Rattle.definition_intervals.specs.Verdicts.{explains};
ghost use Rattle.session_texts.specs.Blocks.{report_front, verdict_lines};
ghost use Rattle.block_lines.specs.Decisions.{IsExplained, report_lines, decision_lines, payload_lines};
ghost use Rattle.block_lines.specs.Parts.{numbered_end};

use crate::parts::{Part, put_part, put_parts};
use crate::values::write_values;
use definition_intervals::Verdict;
use hk_base::{Definition, Key, Kind, Memory, PayloadFault, Tailoring, slot_of};
use sample_slots::read_payload;
use std::alloc::Global;

/// Appends the block of a parameter report with this key, tag and payload, by the verdict on it.
pub fn write_report(
    alloc: Global,
    out: &mut Vec<u8>,
    tailoring: &Tailoring,
    key: Key,
    tag: u64,
    verdict: &Verdict,
    payload: &[u8],
) -> Result<(), Memory>
    requires explained { IsExplained tailoring.now tag payload.now verdict.now }
    requires limit { length payload.now ≤ 2147483648 }
    ensures { Appends out.old.items result out.new.items (report_lines tailoring.now key tag payload.now verdict.now) }
{
    write_front(out, key, tag)?;
    write_verdict(alloc, out, tailoring, tag, verdict, payload)?;
    Ok(())
}

/// Appends the front of the first line.
fn write_front(out: &mut Vec<u8>, key: Key, tag: u64) -> Result<(), Memory>
    ensures { Appends out.old.items result out.new.items (report_front key tag) }
{
    put_part(out, Part::Text("report "))?;
    put_part(out, Part::Text(kind_word(key.kind)))?;
    put_part(out, Part::Text(" "))?;
    put_part(out, Part::Number(u64::from(key.id)))?;
    put_part(out, Part::Text(" tag "))?;
    put_part(out, Part::Number(tag))?;
    Ok(())
}

/// The word of a kind of structures.
fn kind_word(kind: Kind) -> &'static str
    ensures { result.now ≡ words.kind_word kind }
{
    match kind {
        Kind::Housekeeping => "hk",
        Kind::Diagnostic => "diag",
    }
}

/// Appends the rest of the block.
fn write_verdict(
    alloc: Global,
    out: &mut Vec<u8>,
    tailoring: &Tailoring,
    tag: u64,
    verdict: &Verdict,
    payload: &[u8],
) -> Result<(), Memory>
    requires explained { IsExplained tailoring.now tag payload.now verdict.now }
    requires limit { length payload.now ≤ 2147483648 }
    ensures { Appends out.old.items result out.new.items (verdict_lines tailoring.now tag payload.now verdict.now) }
{
    match verdict {
        Verdict::Decided(def) => write_decision(alloc, out, tailoring, tag, def, payload),
        Verdict::Undecidable(number) => write_number_end(out, " undecidable ", *number),
        Verdict::Crowded(number) => write_number_end(out, " crowded ", *number),
        Verdict::NoOpening => put_part(out, Part::Text(" no-opening\n")),
        Verdict::Impossible => put_part(out, Part::Text(" impossible\n")),
    }
}

/// Appends a word and a number after it, to the end of the line.
fn write_number_end(out: &mut Vec<u8>, word: &str, number: u64) -> Result<(), Memory>
    ensures { Appends out.old.items result out.new.items (numbered_end word.now number) }
{
    put_parts(
        out,
        &[Part::Text(word), Part::Number(number), Part::Text("\n")],
    )
}

/// Appends the interval of the definition in force, and a line for each value of the payload.
fn write_decision(
    alloc: Global,
    out: &mut Vec<u8>,
    tailoring: &Tailoring,
    tag: u64,
    def: &Definition,
    payload: &[u8],
) -> Result<(), Memory>
    requires formed { IsWellFormed tailoring.now def.now }
    requires explained { explains tailoring.now tag payload.now def.now ≡ true }
    requires limit { length payload.now ≤ 2147483648 }
    ensures { Appends out.old.items result out.new.items (decision_lines tailoring.now tag payload.now def.now) }
{
    write_number_end(out, " decided interval ", u64::from(def.interval))?;
    write_payload(alloc, out, tailoring, tag, def, payload)?;
    Ok(())
}

/// Appends a line for each value of the payload.
fn write_payload(
    alloc: Global,
    out: &mut Vec<u8>,
    tailoring: &Tailoring,
    tag: u64,
    def: &Definition,
    payload: &[u8],
) -> Result<(), Memory>
    requires formed { IsWellFormed tailoring.now def.now }
    requires explained { explains tailoring.now tag payload.now def.now ≡ true }
    requires limit { length payload.now ≤ 2147483648 }
    ensures { Appends out.old.items result out.new.items (payload_lines tailoring.now tag payload.now def.now) }
{
    match read_payload(alloc, tailoring, def, payload) {
        Ok(values) => {
            let last = slot_of(tailoring, tag) - 1;
            write_values(out, def, last, values.as_slice())
        }
        Err(PayloadFault::Memory) => Err(Memory),
        Err(_) => unreachable!(),
    }
}
