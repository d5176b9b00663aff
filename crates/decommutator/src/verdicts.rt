//! Verdicts on kept reports.
ghost use Rattle.std.specs.Prelude.{◌≡◌, ◌≤◌, ◌<◌, IfOk, length};
ghost use Rattle.ground_history.specs.Ground.{Ground, IsGrounded};
ghost use Rattle.definition_intervals.specs.Verdicts as definitions;
ghost use Rattle.block_lines.specs.Decisions.{IsExplained};
ghost use Rattle.verdict_tables.specs.Tables.{StandsFor};

use definition_intervals::{Verdict, decisions_are_formed, verdict};
use ground_history::History;
use hk_base::{Key, Memory};
use std::alloc::Global;
use std::marker::{Brand, Model};
use std::sync::ledger::{Blank, Ledger};
use verdict_tables::{Steps, Tables};

/// Verdicts by the history.
#[derive(Drop)]
pub(crate) struct Verdicts<'a> {
    history: &'a History,
    /// None where each verdict is found on its own.
    tables: Option<Tables>,
}

impl<'a> Model for Verdicts<'a> {
    ghost use Rattle.std.specs.Prelude.{IfSome};
    ghost use Rattle.ground_history.specs.Ground.{Ground};
    ghost use Rattle.verdict_tables.specs.Tables.{StandsFor};

    ghost Value = { Ground };

    ghost view = { λ v. v.history.now };

    ghost invariant = { λ v. IfSome v.tables (λ tables. StandsFor tables v.history.now) };
}

impl<'a> Verdicts<'a> {
    /// Verdicts on many reports: tables are made first, and then each verdict takes logarithmic time.
    pub(crate) fn on_many(alloc: Global, history: &'a History) -> Result<Verdicts<'a>, Memory>
        ensures { IfOk result (λ verdicts. verdicts ≡ history.now) }
    {
        let mut tables = Tables::new(alloc);
        tables.mend(history)?;
        Ok(Verdicts {
            history,
            tables: Some(tables),
        })
    }

    /// Verdicts on few reports: each is found on its own.
    pub(crate) fn on_few(history: &'a History) -> Verdicts<'a>
        ensures { result ≡ history.now }
    {
        Verdicts {
            history,
            tables: None,
        }
    }

    /// The history.
    pub(crate) fn history(&self) -> &History
        ensures history { result.now ≡ self.now }
        ensures grounded { IsGrounded self.now }
    {
        let _tailoring = self.history.tailoring();
        self.history
    }

    /// The verdict on a parameter report with this tag and payload. A definition that it names explains the report.
    pub(crate) fn on_report(
        &self,
        alloc: Global,
        key: Key,
        tag: u64,
        payload: &[u8],
    ) -> Result<Verdict, Memory>
        requires { length payload.now ≤ 2147483648 }
        ensures verdict { IfOk result (λ verdict. verdict ≡ definitions.verdict self.now.tailoring self.now.history key tag payload.now) }
        ensures explained { IfOk result (λ verdict. IsExplained self.now.tailoring tag payload.now verdict) }
    {
        // A law: it says what a decided definition is, and does nothing.
        decisions_are_formed();
        let _most = self.history.tailoring().widths();
        match &self.tables {
            Some(tables) => table_verdict::<Brand>(alloc, tables, key, tag, payload, Blank::new(1)),
            None => verdict(alloc, self.history, key, tag, payload),
        }
    }
}

/// The verdict by tables.
fn table_verdict<L: Ledger>(
    alloc: Global,
    tables: &Tables,
    key: Key,
    tag: u64,
    payload: &[u8],
    blank: Blank,
) -> Result<Verdict, Memory>
    requires limit { length payload.now ≤ 2147483648 }
    requires name { blank.name ≡ L.name }
    requires parts { blank.parts ≡ L.parts }
    requires some { 0 < L.parts }
    ensures { (g : Ground) → StandsFor tables.now g → IfOk result (λ verdict. verdict ≡ definitions.verdict g.tailoring g.history key tag payload.now) }
{
    let mut steps = Steps::<L>::new(blank);
    tables.verdict(alloc, key, tag, payload, &mut steps)
}
