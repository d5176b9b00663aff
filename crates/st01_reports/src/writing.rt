ghost use Rattle.std.specs.Prelude.{◌≡◌, ◌<◌, ◌≤◌, ◌^◌, ◌++◌, length, OnOk, OnErr};
ghost use Rattle.body_fields.specs.Outcomes.{Appends};
ghost use Rattle.hk_base.specs.Fields.{octets_of};
ghost use Rattle.body_fields.specs.Spelling.{AllFit, counted_octets};
ghost use Rattle.st01_reports.specs.Spelling.{id_octets, cause_octets, step_octets, verification_octets, VerificationFits, IsVerification};
ghost use Rattle.st01_reports.specs.Spelling as spelling;

use crate::reading::Steps;
use crate::verification::{Cause, Verification};
use body_fields::{WriteMember, or_undo, write_list};
use hk_base::{Items, Memory, RequestId, Tailoring, put_uint};

/// The subtype of a report.
pub fn subtype(v: &Verification) -> u8
    ensures { result ≡ spelling.subtype v.now }
{
    match v {
        Verification::Accepted(_) => 1,
        Verification::Refused(_, _) => 2,
        Verification::Started(_) => 3,
        Verification::NotStarted(_, _) => 4,
        Verification::Step(_, _) => 5,
        Verification::StepFailed(_, _, _) => 6,
        Verification::Completed(_) => 7,
        Verification::Incomplete(_, _, _) => 8,
        Verification::NotRouted(_, _) => 10,
    }
}

/// Appends the ID of a request.
fn write_request_id(id: RequestId, out: &mut Vec<u8>) -> Result<(), Memory>
    ensures ok { OnOk result (out.new.items ≡ out.old.items ++ id_octets id) }
    ensures err { OnErr result (out.new.items ≡ out.old.items) }
{
    put_uint(out, 4, u128::from(id.word))
}

/// Appends a failure code.
fn write_code(code: u16, out: &mut Vec<u8>) -> Result<(), Memory>
    ensures ok { OnOk result (out.new.items ≡ out.old.items ++ octets_of 2 code) }
    ensures err { OnErr result (out.new.items ≡ out.old.items) }
{
    put_uint(out, 2, u128::from(code))
}

/// Appends a failure code and its detail.
fn write_cause(cause: Cause, out: &mut Vec<u8>) -> Result<(), Memory>
    ensures { Appends out.old.items result out.new.items (cause_octets cause) }
{
    write_code(cause.code, out)?;
    put_uint(out, 4, u128::from(cause.detail))?;
    Ok(())
}

/// Appends a step number.
fn write_step(tailoring: &Tailoring, step: u32, out: &mut Vec<u8>) -> Result<(), Memory>
    requires { step < 256 ^ tailoring.now.widths.step_octets }
    ensures ok { OnOk result (out.new.items ≡ out.old.items ++ step_octets tailoring.now step) }
    ensures err { OnErr result (out.new.items ≡ out.old.items) }
{
    put_uint(out, tailoring.widths().step_octets, u128::from(step))
}

impl WriteMember for Steps<'_> {
    type Member = u32;

    ghost fits = { λ steps step. step < 256 ^ steps.tailoring.now.widths.step_octets };

    ghost spelling = { λ steps step. step_octets steps.tailoring.now step };

    fn write_member(&self, member: &u32, out: &mut Vec<u8>) -> Result<(), Memory> {
        write_step(self.tailoring, *member, out)
    }
}

/// Appends a request ID and a cause.
fn write_failure(id: RequestId, cause: Cause, out: &mut Vec<u8>) -> Result<(), Memory>
    ensures { Appends out.old.items result out.new.items (id_octets id ++ cause_octets cause) }
{
    write_request_id(id, out)?;
    write_cause(cause, out)?;
    Ok(())
}

/// Appends a count and so many steps.
fn write_steps(tailoring: &Tailoring, steps: &Items<u32>, out: &mut Vec<u8>) -> Result<(), Memory>
    requires few { length steps.now ≤ 255 }
    requires count { length steps.now < 256 ^ tailoring.now.widths.count_octets }
    requires fit { AllFit tailoring.now.widths.step_octets steps.now }
    ensures { Appends out.old.items result out.new.items (counted_octets tailoring.now (step_octets tailoring.now) steps.now) }
{
    write_list(tailoring, &Steps { tailoring }, steps.as_slice(), out)
}

/// Appends the fields of a report.
fn write_report(tailoring: &Tailoring, v: &Verification, out: &mut Vec<u8>) -> Result<(), Memory>
    requires { VerificationFits tailoring.now v.now }
    ensures { Appends out.old.items result out.new.items (verification_octets tailoring.now v.now) }
{
    match v {
        Verification::Accepted(id) | Verification::Started(id) | Verification::Completed(id) => {
            write_request_id(*id, out)?;
            Ok(())
        }
        Verification::Refused(id, cause)
        | Verification::NotStarted(id, cause)
        | Verification::NotRouted(id, cause) => {
            write_failure(*id, *cause, out)?;
            Ok(())
        }
        Verification::Step(id, step) => {
            write_request_id(*id, out)?;
            write_step(tailoring, *step, out)?;
            Ok(())
        }
        Verification::StepFailed(id, step, cause) => {
            write_request_id(*id, out)?;
            write_step(tailoring, *step, out)?;
            write_cause(*cause, out)?;
            Ok(())
        }
        Verification::Incomplete(id, code, steps) => {
            write_request_id(*id, out)?;
            write_code(*code, out)?;
            write_steps(tailoring, steps, out)?;
            Ok(())
        }
    }
}

/// Appends the body of a report.
pub fn encode(tailoring: &Tailoring, v: &Verification, out: &mut Vec<u8>) -> Result<(), Memory>
    requires { IsVerification tailoring.now v.now }
    ensures ok { OnOk result (out.new.items ≡ out.old.items ++ verification_octets tailoring.now v.now) }
    ensures err { OnErr result (out.new.items ≡ out.old.items) }
{
    // Each tailoring has room for 255 in its counts.
    let _widths = tailoring.widths();
    let kept = out.len();
    let written = write_report(tailoring, v, out);
    or_undo(written, kept, out)
}
