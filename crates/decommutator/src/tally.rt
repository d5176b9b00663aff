//! The numbers of a session.
ghost use Rattle.std.specs.Prelude.{◌≡◌, ◌<◌, ◌≤◌, ◌+◌, ◌∷◌, [], IfOk, IfSome, option_map, length};
ghost use Rattle.pus_messages.specs.Spelling.{HasRoom};
ghost use Rattle.ground_history.specs.Histories.{tag_of};
ghost use Rattle.decommutator.specs.Standing.{tally_by, with_verdicts};
ghost use Rattle.decommutator.specs.Tallying.{IsFormedVerdict, verdict_on, with_tag};

use crate::verdicts::Verdicts;
use block_lines::Counts;
use definition_intervals::Verdict;
use ground_history::{History, KeptPacket};
use hk_base::{Memory, Tailoring};
use pus_messages::ReportBody;
use sample_slots::place_count;
use session_texts::Tally;
use st03_grammar::Report03;
use std::alloc::Global;

/// The numbers of the history, and of the verdicts on the kept parameter reports.
pub(crate) fn tally_of(alloc: Global, history: &History, counts: &Counts) -> Result<Tally, Memory>
    requires { length history.now.history.requests + length history.now.history.kept < 4294967296 }
    ensures { IfOk result (λ tally. tally ≡ tally_by history.now counts.now) }
{
    let verdicts = Verdicts::on_many(alloc, history)?;
    tally_verdicts(alloc, &verdicts, counts)
}

/// The numbers of the history, and of the verdicts on the kept parameter reports.
fn tally_verdicts(alloc: Global, verdicts: &Verdicts<'_>, counts: &Counts) -> Result<Tally, Memory>
    requires { length verdicts.now.history.requests + length verdicts.now.history.kept < 4294967296 }
    ensures { IfOk result (λ tally. tally ≡ tally_by verdicts.now counts.now) }
{
    let history = verdicts.history();
    let tailoring = history.tailoring();
    let mut tally = Tally {
        sent: history.count() as u32,
        received: history.kept() as u32,
        repeats: counts.repeats,
        decided: 0,
        undecidable: 0,
        other: 0,
        values: 0,
    };
    for kept in history.packets() {
        if let Some(verdict) = kept_verdict(alloc, verdicts, kept)? {
            count_verdict(&mut tally, tailoring, kept.tag(), &verdict);
        }
    }
    Ok(tally)
}

/// The verdict on a kept packet, where it is a parameter report.
fn kept_verdict(
    alloc: Global,
    verdicts: &Verdicts<'_>,
    kept: &KeptPacket,
) -> Result<Option<Verdict>, Memory>
    requires { HasRoom kept.now.report.body }
    ensures verdict { IfOk result (λ found. option_map (with_tag (tag_of kept.now)) found ≡ verdict_on verdicts.now.tailoring verdicts.now.history kept.now) }
    ensures formed { IfOk result (λ found. IfSome found (IsFormedVerdict verdicts.now.tailoring)) }
{
    match &kept.report().body {
        ReportBody::Hk(Report03::Values(key, payload)) => {
            let tag = kept.tag();
            let payload = payload.as_slice();
            let verdict = verdicts.on_report(alloc, *key, tag, payload)?;
            Ok(Some(verdict))
        }
        _ => Ok(None),
    }
}

/// Counts the verdict on a report with this tag.
fn count_verdict(tally: &mut Tally, tailoring: &Tailoring, tag: u64, verdict: &Verdict)
    requires formed { IsFormedVerdict tailoring.now verdict.now }
    requires reports { tally.old.decided + (tally.old.undecidable + tally.old.other) < 4294967295 }
    requires values { tally.old.values + 4294967295 < 18446744073709551616 }
    ensures counted { tally.new ≡ with_verdicts tailoring.now tally.old ((tag, verdict.now) ∷ []) }
    ensures most { tally.new.values ≤ tally.old.values + 4294967295 }
{
    let _most = tailoring.widths().max_interval;
    match verdict {
        Verdict::Decided(def) => {
            tally.decided += 1;
            tally.values += u64::from(place_count(def));
        }
        Verdict::Undecidable(_) => tally.undecidable += 1,
        Verdict::Crowded(_) | Verdict::NoOpening | Verdict::Impossible => tally.other += 1,
    }
}
