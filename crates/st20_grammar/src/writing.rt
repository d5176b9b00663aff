//! Requests and reports on parameter values are written.
ghost use Rattle.std.specs.Prelude.{◌≡◌, ◌++◌, IfOk, OnErr};
ghost use Rattle.st20_grammar.specs.Spelling.{IsRequest, IsReport, IsSetting, request_subtype, request_octets, report_subtype, report_octets, setting_octets};

use crate::bodies::{Report20, Request20, Setting};
use body_fields::{ParamIds, WriteMember, write_known_id, write_list, write_value_of};
use hk_base::{Memory, Tailoring};

/// Appends the body of a request, and answers its subtype. An error leaves `out` as it was.
pub fn encode_request(
    tailoring: &Tailoring,
    request: &Request20,
    out: &mut Vec<u8>,
) -> Result<u8, Memory>
    requires { IsRequest tailoring.now request.now }
    ensures subtype { IfOk result (λ subtype. subtype ≡ request_subtype request.now) }
    ensures ok { IfOk result (λ subtype. out.new.items ≡ out.old.items ++ request_octets tailoring.now request.now) }
    ensures err { OnErr result (out.new.items ≡ out.old.items) }
{
    match request {
        Request20::Report(ids) => {
            write_list(tailoring, &ParamIds { tailoring }, ids.as_slice(), out)?;
            Ok(1)
        }
        Request20::Set(settings) => {
            write_list(tailoring, &Settings { tailoring }, settings.as_slice(), out)?;
            Ok(3)
        }
    }
}

/// Appends the body of a report, and answers its subtype. An error leaves `out` as it was.
pub fn encode_report(
    tailoring: &Tailoring,
    report: &Report20,
    out: &mut Vec<u8>,
) -> Result<u8, Memory>
    requires { IsReport tailoring.now report.now }
    ensures subtype { IfOk result (λ subtype. subtype ≡ report_subtype) }
    ensures ok { IfOk result (λ subtype. out.new.items ≡ out.old.items ++ report_octets tailoring.now report.now) }
    ensures err { OnErr result (out.new.items ≡ out.old.items) }
{
    write_list(
        tailoring,
        &Settings { tailoring },
        report.pairs.as_slice(),
        out,
    )?;
    Ok(2)
}

/// Writes parameters with values.
#[derive(Drop)]
struct Settings<'t> {
    tailoring: &'t Tailoring,
}

impl WriteMember for Settings<'_> {
    type Member = Setting;

    ghost fits = { λ writer setting. IsSetting writer.tailoring.now setting };

    ghost spelling = { λ writer setting. setting_octets writer.tailoring.now setting };

    fn write_member(&self, member: &Setting, out: &mut Vec<u8>) -> Result<(), Memory> {
        write_known_id(self.tailoring, member.param, out)?;
        write_value_of(self.tailoring, member.param, member.value, out)
    }
}
