ghost use Rattle.std.specs.Prelude.{◌≡◌, ℕ, ◌==◌, OnOk, if◌then◌else◌};
ghost use Rattle.ground_history.specs.Evidence as evidence;
ghost use Rattle.ground_history.specs.Indexes as indexes;
ghost use Rattle.ground_history.specs.Indexes.{shown_of, shown_at, either_shown, nothing_shown, HasShown};

use hk_base::Memory;
use st01_reports::Verification;
use std::alloc::Global;
use std::collections::BTreeMap;
use std::marker::Model;

/// What the kept packets show of a request as a whole (ECSS-E-ST-70-41C, 6.1).
#[derive(Clone, Copy, Debug, Drop)]
pub(crate) struct Shown {
    /// By any report but [1,2] and [1,10].
    pub accepted: bool,
    /// By a [1,2] or a [1,4]: nothing of it is executed.
    pub barred: bool,
    /// By a [1,4].
    pub unstarted: bool,
    /// By a [1,3].
    pub started: bool,
    /// By a [1,7] or a [1,8].
    pub completed: bool,
}

impl Shown {
    fn nothing() -> Shown
        ensures { result ≡ nothing_shown }
    {
        Shown {
            accepted: false,
            barred: false,
            unstarted: false,
            started: false,
            completed: false,
        }
    }

    /// What a report shows of its request.
    pub(crate) fn of(report: &Verification) -> Shown
        ensures { result ≡ shown_of report.now }
    {
        Shown {
            accepted: shows_accepted(report),
            barred: shows_barred(report),
            unstarted: matches!(report, Verification::NotStarted(_, _)),
            started: matches!(report, Verification::Started(_)),
            completed: is_completion(report),
        }
    }

    fn or(self, other: Shown) -> Shown
        ensures { result ≡ either_shown self other }
    {
        Shown {
            accepted: self.accepted || other.accepted,
            barred: self.barred || other.barred,
            unstarted: self.unstarted || other.unstarted,
            started: self.started || other.started,
            completed: self.completed || other.completed,
        }
    }
}

fn shows_accepted(report: &Verification) -> bool
    ensures { result ≡ evidence.shows_accepted report.now }
{
    !matches!(
        report,
        Verification::Refused(_, _) | Verification::NotRouted(_, _)
    )
}

fn shows_barred(report: &Verification) -> bool
    ensures { result ≡ evidence.shows_barred report.now }
{
    matches!(
        report,
        Verification::Refused(_, _) | Verification::NotStarted(_, _)
    )
}

fn is_completion(report: &Verification) -> bool
    ensures { result ≡ evidence.is_completion report.now }
{
    matches!(
        report,
        Verification::Completed(_) | Verification::Incomplete(_, _, _)
    )
}

/// What is shown of each request, by its number.
#[derive(Debug, Drop)]
pub(crate) struct ShownRequests {
    requests: BTreeMap<u64, Shown>,
}

impl Model for ShownRequests {
    ghost use Rattle.std.specs.Prelude.{ℕ, List};
    ghost use Rattle.ground_history.specs.declared.shown.Shown.{Shown};

    ghost Value = { List (ℕ × Shown) };

    ghost view = { λ shown. shown.requests.entries };
}

impl ShownRequests {
    pub(crate) fn new(alloc: Global) -> ShownRequests
        ensures { (k : ℕ) → shown_at result k ≡ nothing_shown }
    {
        ShownRequests {
            requests: BTreeMap::new(alloc),
        }
    }

    pub(crate) fn at(&self, request: u64) -> Shown
        ensures { result ≡ shown_at self.now request }
    {
        match self.requests.get(&request) {
            Some(shown) => *shown,
            None => Shown::nothing(),
        }
    }

    /// Makes a place for what is shown of a request, so that `add` takes no memory.
    pub(crate) fn make_room(&mut self, request: u64) -> Result<(), Memory>
        ensures shown { (k : ℕ) → shown_at self.new k ≡ shown_at self.old k }
        ensures room { OnOk result (HasShown self.new request) }
    {
        if !self.requests.contains_key(&request) {
            self.requests.insert(request, Shown::nothing())?;
        }
        Ok(())
    }

    /// Adds what is shown of a request that has a place.
    pub(crate) fn add(&mut self, request: u64, shown: Shown)
        requires { HasShown self.old request }
        ensures { (k : ℕ) → shown_at self.new k ≡ (if k == request then either_shown (shown_at self.old k) shown else shown_at self.old k) }
    {
        let both = self.at(request).or(shown);
        let Ok(_) = self.requests.insert(request, both) else {
            unreachable!();
        };
    }
}
