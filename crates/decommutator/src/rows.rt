//! The values of a decided report, each with its place.
ghost use Rattle.std.specs.Prelude.{◌≡◌, ◌≤◌, ◌<◌, ◌+◌, true, Ok, IfOk, length};
ghost use Rattle.hk_base.specs.Definitions.{IsWellFormed};
ghost use Rattle.hk_base.specs.Payload.{payload_read, places};
ghost use Rattle.pus_messages.specs.Spelling.{HasRoom};
ghost use Rattle.ground_history.specs.Histories.{tag_of};
ghost use Rattle.definition_intervals.specs.Verdicts.{explains};
ghost use Rattle.sample_slots.specs.Slots.{IsSampled};
ghost use Rattle.session_texts.specs.Blocks.{report_places};
ghost use Rattle.decommutator.specs.Rows as rows;
ghost use Rattle.decommutator.specs.Rows.{body_rows, row_of, rows_by};

use crate::row::ValueRow;
use crate::verdicts::Verdicts;
use definition_intervals::Verdict;
use ground_history::{History, KeptPacket};
use hk_base::{Definition, Items, Memory, PayloadFault, Place, Tailoring, Value, slot_of};
use pus_messages::ReportBody;
use sample_slots::{place, place_count, read_payload};
use st03_grammar::Report03;
use std::alloc::Global;

/// How many parameter reports were kept. It takes time with the kept reports.
pub(crate) fn report_count(history: &History) -> u32
    requires { length history.now.history.kept < 4294967296 }
    ensures { result ≡ rows.report_count history.now }
{
    let mut count = 0;
    for kept in history.packets() {
        if is_parameter_report(kept) {
            count += 1;
        }
    }
    count
}

/// Whether a kept packet is a parameter report.
fn is_parameter_report(kept: &KeptPacket) -> bool
    ensures { result ≡ rows.is_parameter_report kept.now }
{
    matches!(&kept.report().body, ReportBody::Hk(Report03::Values(_, _)))
}

/// The rows of the parameter report with this number, from 0 in the order of tags. It takes time with the kept reports.
pub(crate) fn rows_of(
    alloc: Global,
    history: &History,
    number: u32,
) -> Result<Items<ValueRow>, Memory>
    requires { number < rows.report_count history.now }
    ensures { IfOk result (λ found. found ≡ rows.report_rows history.now number) }
{
    let verdicts = Verdicts::on_few(history);
    let mut left = number;
    for kept in verdicts.history().packets() {
        if is_parameter_report(kept) {
            if left == 0 {
                return kept_rows(alloc, &verdicts, kept);
            }
            left -= 1;
        }
    }
    unreachable!()
}

/// The rows of a kept packet: none where it is no parameter report, or isn't decided.
fn kept_rows(
    alloc: Global,
    verdicts: &Verdicts<'_>,
    kept: &KeptPacket,
) -> Result<Items<ValueRow>, Memory>
    requires { HasRoom kept.now.report.body }
    ensures { IfOk result (λ found. found ≡ body_rows verdicts.now.tailoring verdicts.now.history (tag_of kept.now) kept.now.report.body) }
{
    match &kept.report().body {
        ReportBody::Hk(Report03::Values(key, payload)) => {
            let tag = kept.tag();
            let payload = payload.as_slice();
            match verdicts.on_report(alloc, *key, tag, payload)? {
                Verdict::Decided(def) => {
                    let tailoring = verdicts.history().tailoring();
                    decided_rows(alloc, tailoring, &def, tag, payload)
                }
                _ => Ok(Items::from_vec(Vec::new(alloc))),
            }
        }
        _ => Ok(Items::from_vec(Vec::new(alloc))),
    }
}

/// The rows of a report with this tag and payload under its definition.
fn decided_rows(
    alloc: Global,
    tailoring: &Tailoring,
    def: &Definition,
    tag: u64,
    payload: &[u8],
) -> Result<Items<ValueRow>, Memory>
    requires formed { IsWellFormed tailoring.now def.now }
    requires explained { explains tailoring.now tag payload.now def.now ≡ true }
    requires limit { length payload.now ≤ 2147483648 }
    ensures { IfOk result (λ found. found ≡ rows_by (report_places tailoring.now def.now tag) (payload_read tailoring.now def.now payload.now)) }
{
    match read_payload(alloc, tailoring, def, payload) {
        Ok(values) => {
            let last = slot_of(tailoring, tag) - 1;
            rows_at(alloc, def, last, values.as_slice())
        }
        Err(PayloadFault::Memory) => Err(Memory),
        Err(_) => unreachable!(),
    }
}

/// A row for each value, one for each place of a report with this last slot.
fn rows_at(
    alloc: Global,
    def: &Definition,
    last: u64,
    values: &[Value],
) -> Result<Items<ValueRow>, Memory>
    requires sampled { IsSampled def.now }
    requires whole { def.now.interval ≤ last + 1 }
    requires each { length values.now ≡ length (places def.now last) }
    ensures { IfOk result (λ found. found ≡ rows_by (places def.now last) (Ok values.now)) }
{
    let mut rows = Vec::new(alloc);
    for number in 0..place_count(def) {
        let Some(place) = place(def, last, number) else {
            unreachable!();
        };
        let value = values[number as usize];
        rows.push(row_at(place, value))?;
    }
    Ok(Items::from_vec(rows))
}

/// A value with its place.
fn row_at(place: Place, value: Value) -> ValueRow
    ensures { result ≡ row_of (place, value) }
{
    ValueRow {
        param: place.param,
        slot: place.slot,
        value,
    }
}
