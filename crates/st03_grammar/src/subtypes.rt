ghost use Rattle.std.specs.Prelude.{◌≡◌};
ghost use Rattle.st03_grammar.specs.Spelling as spelling;

use crate::bodies::{Each, Report03, Request03};
use hk_base::Kind;

/// The subtype of a request.
pub fn request_subtype(request: &Request03) -> u8
    ensures { result ≡ spelling.request_subtype request.now }
{
    match request {
        Request03::Create(key, _) => by_kind(key.kind, 1, 2),
        Request03::Append(key, _) => by_kind(key.kind, 29, 30),
        Request03::OnEach(each, kind, _) => each_subtype(*each, *kind),
        Request03::Intervals(kind, _) => by_kind(*kind, 31, 32),
    }
}

/// The subtype of a report.
pub fn report_subtype(report: &Report03) -> u8
    ensures { result ≡ spelling.report_subtype report.now }
{
    match report {
        Report03::Structure(key, _) => by_kind(key.kind, 10, 12),
        Report03::Values(key, _) => by_kind(key.kind, 25, 26),
        Report03::Periodic(kind, _) => by_kind(*kind, 35, 36),
    }
}

fn each_subtype(each: Each, kind: Kind) -> u8
    ensures { result ≡ spelling.each_subtype each kind }
{
    match each {
        Each::Delete => by_kind(kind, 3, 4),
        Each::Enable => by_kind(kind, 5, 7),
        Each::Disable => by_kind(kind, 6, 8),
        Each::Show => by_kind(kind, 9, 11),
        Each::OneShot => by_kind(kind, 27, 28),
        Each::ShowPeriodic => by_kind(kind, 33, 34),
    }
}

fn by_kind(kind: Kind, housekeeping: u8, diagnostic: u8) -> u8
    ensures { result ≡ spelling.by_kind kind housekeeping diagnostic }
{
    match kind {
        Kind::Housekeeping => housekeeping,
        Kind::Diagnostic => diagnostic,
    }
}
