//! The counts in the headers of reports.
ghost use Rattle.std.specs.Prelude.{◌≡◌, ◌<◌, List};
ghost use Rattle.hk_world.specs.declared.moment.Moment.{Moment};
ghost use Rattle.st01_reports.specs.Spelling as st01;
ghost use Rattle.pus_messages.specs.Messages.{protocol};
ghost use Rattle.pus_messages.specs.Spelling.{report_type};
ghost use Rattle.board_steps.specs.Cores.{header_of};
ghost use Rattle.board_core.specs.Counts.{AreCounts, counted, type_place, verification_place};

use hk_base::{Kind, Tailoring};
use pus_messages::ReportBody;
use pus_packet::TmHeader;
use st01_reports::Verification;
use st03_grammar::Report03;
use st04_grammar::Report04;

/// How many message types of reports there are.
const TYPES: usize = 18;

/// The counts that come next: that of all reports, modulo 16,384, and for each message type that of its reports, modulo
/// 65,536.
#[derive(Clone, Copy, Debug, PartialEq, Eq, Drop)]
pub(crate) struct Counters {
    sequence: u16,
    of_types: [u16; TYPES],
}

impl Counters {
    pub(crate) const START: Counters = Counters {
        sequence: 0,
        of_types: [0; TYPES],
    };

    /// The header of the next report.
    pub(crate) fn header(&self, tailoring: &Tailoring, tag: u64, body: &ReportBody) -> TmHeader
        ensures { (moments : List Moment) → AreCounts (protocol tailoring.now) moments self.now → result ≡ header_of (protocol tailoring.now) moments tag body.now }
    {
        let widths = tailoring.widths();
        let (place, service, subtype) = message_type(body);
        TmHeader {
            apid: widths.apid,
            count: self.sequence,
            status: 0,
            service,
            subtype,
            counter: self.of_types[place],
            destination: widths.ground,
            tag,
        }
    }

    /// Counts a report with this body.
    pub(crate) fn count(&mut self, body: &ReportBody)
        requires { self.old.sequence < 16384 }
        ensures { self.new ≡ counted (type_place body.now) self.old }
    {
        let (place, _, _) = message_type(body);
        self.sequence = (self.sequence + 1) % 16_384;
        self.of_types[place] = self.of_types[place].wrapping_add(1);
    }
}

/// The message type of a body: its place among the counts, and its service and subtype.
fn message_type(body: &ReportBody) -> (usize, u8, u8)
    ensures place { result.0 ≡ type_place body.now }
    ensures within { result.0 < 18 }
    ensures service { result.1 ≡ (report_type body.now).0 }
    ensures subtype { result.2 ≡ (report_type body.now).1 }
{
    match body {
        ReportBody::Verify(v) => verification_type(v),
        ReportBody::Hk(Report03::Structure(key, _)) => match key.kind {
            Kind::Housekeeping => (9, 3, 10),
            Kind::Diagnostic => (10, 3, 12),
        },
        ReportBody::Hk(Report03::Values(key, _)) => match key.kind {
            Kind::Housekeeping => (11, 3, 25),
            Kind::Diagnostic => (12, 3, 26),
        },
        ReportBody::Hk(Report03::Periodic(kind, _)) => match kind {
            Kind::Housekeeping => (13, 3, 35),
            Kind::Diagnostic => (14, 3, 36),
        },
        ReportBody::Stat(Report04::Statistics(_)) => (15, 4, 2),
        ReportBody::Stat(Report04::Definitions(_, _, _)) => (16, 4, 9),
        ReportBody::Par(_) => (17, 20, 2),
    }
}

fn verification_type(v: &Verification) -> (usize, u8, u8)
    ensures place { result.0 ≡ verification_place v.now }
    ensures within { result.0 < 18 }
    ensures service { result.1 ≡ 1 }
    ensures subtype { result.2 ≡ st01.subtype v.now }
{
    match v {
        Verification::Accepted(_) => (0, 1, 1),
        Verification::Refused(_, _) => (1, 1, 2),
        Verification::Started(_) => (2, 1, 3),
        Verification::NotStarted(_, _) => (3, 1, 4),
        Verification::Step(_, _) => (4, 1, 5),
        Verification::StepFailed(_, _, _) => (5, 1, 6),
        Verification::Completed(_) => (6, 1, 7),
        Verification::Incomplete(_, _, _) => (7, 1, 8),
        Verification::NotRouted(_, _) => (8, 1, 10),
    }
}
