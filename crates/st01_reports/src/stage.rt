ghost use Rattle.std.specs.Prelude.{◌≡◌};
ghost use Rattle.st01_reports.specs.Stages.{success_report, failure_report};

use crate::verification::{Cause, Verification};
use hk_base::RequestId;

/// What a request has passed.
#[derive(Clone, Copy, Debug, PartialEq, Eq, Drop)]
pub enum Success {
    Acceptance,
    Start,
    Completion,
}

impl Success {
    /// The report of it.
    pub fn report(self, id: RequestId) -> Verification
        ensures { result ≡ success_report self id }
    {
        match self {
            Success::Acceptance => Verification::Accepted(id),
            Success::Start => Verification::Started(id),
            Success::Completion => Verification::Completed(id),
        }
    }
}

/// What a request has failed as a whole.
#[derive(Clone, Copy, Debug, PartialEq, Eq, Drop)]
pub enum Failure {
    Acceptance,
    Start,
    Routing,
}

impl Failure {
    /// The report of it.
    pub fn report(self, id: RequestId, cause: Cause) -> Verification
        ensures { result ≡ failure_report self id cause }
    {
        match self {
            Failure::Acceptance => Verification::Refused(id, cause),
            Failure::Start => Verification::NotStarted(id, cause),
            Failure::Routing => Verification::NotRouted(id, cause),
        }
    }
}
