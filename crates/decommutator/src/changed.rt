//! What an entry brings, and what it may have changed.
ghost use Rattle.std.specs.Prelude.{◌≡◌, ◌&&◌, ℕ, not, true, Ok, Some};
ghost use Rattle.ground_history.specs.Ground.{Ground, IsGrounded};
ghost use Rattle.session_record.specs.declared.entry.Entry.{Entry};
ghost use Rattle.entry_changes.specs.Changes.{IsBelow, AreSameBelow, AreUnsureSame};
ghost use Rattle.decommutator.specs.Standing.{ground_after};
ghost use Rattle.decommutator.specs.Due as due;
ghost use Rattle.decommutator.specs.Due.{came_of, new_tag};

use entry_changes::{changed_by_kept, changed_by_sent, sent_touches_none, touched_by_kept};
use ground_history::{GotKind, History};

/// What an entry added to the history.
#[derive(Clone, Copy, Drop)]
pub(crate) enum Came {
    Nothing,
    Request,
    /// A packet with this tag was kept.
    Kept(u64),
}

/// What an entry may have changed.
#[derive(Clone, Copy, Drop)]
pub(crate) struct Changed {
    /// Reports from this tag on may have another verdict than before.
    pub(crate) from: Option<u64>,
    /// The first request with new evidence.
    pub(crate) touched: Option<u64>,
    /// The tag of the report that was kept.
    pub(crate) new: Option<u64>,
}

impl Came {
    /// What a packet brought that was received.
    pub(crate) fn got(kind: GotKind) -> Came
        ensures { result ≡ due.came_got kind }
    {
        match kind {
            GotKind::Kept(tag) => Came::Kept(tag),
            _ => Came::Nothing,
        }
    }

    /// What a packet brought that was sent.
    pub(crate) fn sent(new: bool) -> Came
        ensures { result ≡ due.came_sent (Ok new) }
    {
        if new { Came::Request } else { Came::Nothing }
    }
}

/// From which tag on verdicts may have changed.
fn changed_from(history: &History, came: Came) -> Option<u64>
    ensures { (g : Ground) (e : Entry) → IsGrounded g → came ≡ came_of g e → history.now ≡ ground_after g e (Ok tt) → AreSameBelow result g history.now }
{
    match came {
        Came::Nothing => None,
        Came::Request => changed_by_sent(history),
        Came::Kept(tag) => changed_by_kept(history, tag),
    }
}

/// The first request with new evidence.
fn touched_by(history: &History, came: Came) -> Option<u64>
    ensures { (g : Ground) (e : Entry) → IsGrounded g → came ≡ came_of g e → history.now ≡ ground_after g e (Ok tt) → AreUnsureSame result g history.now }
{
    // A law: it says that a request that is sent touches none before it, and does nothing.
    sent_touches_none();
    match came {
        Came::Nothing => None,
        Came::Request => None,
        Came::Kept(tag) => touched_by_kept(history, tag),
    }
}

/// What an entry may have changed.
pub(crate) fn changes_by(history: &History, came: Came) -> Changed
    ensures same { (g : Ground) (e : Entry) → IsGrounded g → came ≡ came_of g e → history.now ≡ ground_after g e (Ok tt) → AreSameBelow result.from g history.now }
    ensures unsure { (g : Ground) (e : Entry) → IsGrounded g → came ≡ came_of g e → history.now ≡ ground_after g e (Ok tt) → AreUnsureSame result.touched g history.now }
    ensures new { result.new ≡ new_tag came }
{
    let new = match came {
        Came::Kept(tag) => Some(tag),
        _ => None,
    };
    Changed {
        from: changed_from(history, came),
        touched: touched_by(history, came),
        new,
    }
}

impl Changed {
    /// Whether a report with this tag was known before and has the verdict that it had.
    pub(crate) fn is_same(self, tag: u64) -> bool
        ensures { result ≡ due.is_same self tag }
    {
        is_below(self.from, tag) && !is_new(self.new, tag)
    }

    /// A tag below which all is the same; None where all is.
    pub(crate) fn first(self) -> Option<u64>
        ensures { (tag : ℕ) → IsBelow tag result → due.is_same self tag ≡ true }
    {
        match self.new {
            Some(new) => Some(least(self.from, new)),
            None => self.from,
        }
    }
}

fn is_below(from: Option<u64>, tag: u64) -> bool
    ensures { result ≡ due.is_below from tag }
{
    match from {
        Some(from) => tag < from,
        None => true,
    }
}

fn is_new(new: Option<u64>, tag: u64) -> bool
    ensures { result ≡ due.is_new new tag }
{
    match new {
        Some(new) => new == tag,
        None => false,
    }
}

fn least(from: Option<u64>, new: u64) -> u64
    ensures { (tag : ℕ) → IsBelow tag (Some result) → (due.is_below from tag && not (due.is_new (Some new) tag)) ≡ true }
{
    match from {
        Some(from) => from.min(new),
        None => new,
    }
}
