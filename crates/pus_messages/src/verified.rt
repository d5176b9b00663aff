ghost use Rattle.std.specs.Prelude.{◌≡◌};
ghost use Rattle.pus_messages.specs.Instructions as specs;

use hk_base::RequestId;
use st01_reports::Verification;

/// The request that a verification report names.
pub fn subject(report: &Verification) -> RequestId
    ensures { result ≡ specs.subject report.now }
{
    match report {
        Verification::Accepted(id)
        | Verification::Refused(id, _)
        | Verification::Started(id)
        | Verification::NotStarted(id, _)
        | Verification::Step(id, _)
        | Verification::StepFailed(id, _, _)
        | Verification::Completed(id)
        | Verification::Incomplete(id, _, _)
        | Verification::NotRouted(id, _) => *id,
    }
}
