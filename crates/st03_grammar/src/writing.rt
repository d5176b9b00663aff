ghost use Rattle.std.specs.Prelude.{◌≡◌, ◌<◌, ◌≤◌, ◌^◌, ◌++◌, length, IfOk, OnOk, OnErr};
ghost use Rattle.std.specs.List.{AllByRecursion};
ghost use Rattle.body_fields.specs.Outcomes.{Appends};
ghost use Rattle.body_fields.specs.Spelling.{counted_octets, structure_octets, param_octets, interval_octets};
ghost use Rattle.st03_grammar.specs.Spelling.{ListsFit, PairFits, RowFits, ArrayFits, ParamsFit, RequestFits, ReportFits, IsRequest03, IsReport03};
ghost use Rattle.st03_grammar.specs.Spelling as spelling;

use crate::bodies::{Pair, PeriodicRow, Report03, Request03};
use crate::fields::{Pairs, Rows, StructureIds};
use crate::subtypes::{report_subtype, request_subtype};
use body_fields::{
    WriteMember, or_undo, write_flag, write_interval, write_list, write_param_id,
    write_structure_id,
};
use hk_base::{Items, Memory, SuperList, Tailoring, put_uint};

impl WriteMember for StructureIds<'_> {
    type Member = u32;

    ghost fits = { λ ids id. id < 256 ^ ids.tailoring.now.widths.structure_octets };

    ghost spelling = { λ ids id. structure_octets ids.tailoring.now id };

    fn write_member(&self, member: &u32, out: &mut Vec<u8>) -> Result<(), Memory> {
        write_structure_id(self.tailoring, *member, out)
    }
}

impl WriteMember for Pairs<'_> {
    type Member = Pair;

    ghost fits = { λ pairs pair. PairFits pairs.tailoring.now pair };

    ghost spelling = { λ pairs pair. spelling.pair_octets pairs.tailoring.now pair };

    fn write_member(&self, member: &Pair, out: &mut Vec<u8>) -> Result<(), Memory> {
        write_structure_id(self.tailoring, member.id, out)?;
        write_interval(self.tailoring, member.interval, out)
    }
}

impl WriteMember for Rows<'_> {
    type Member = PeriodicRow;

    ghost fits = { λ rows row. RowFits rows.tailoring.now row };

    ghost spelling = { λ rows row. spelling.row_octets rows.tailoring.now row };

    fn write_member(&self, member: &PeriodicRow, out: &mut Vec<u8>) -> Result<(), Memory> {
        write_structure_id(self.tailoring, member.id, out)?;
        write_flag(member.enabled, out)?;
        write_interval(self.tailoring, member.interval, out)
    }
}

/// IDs of parameters, as they are written.
#[derive(Drop)]
struct WrittenParams<'t> {
    tailoring: &'t Tailoring,
}

impl WriteMember for WrittenParams<'_> {
    type Member = u32;

    ghost fits = { λ ids id. id < 256 ^ ids.tailoring.now.widths.parameter_octets };

    ghost spelling = { λ ids id. param_octets ids.tailoring.now id };

    fn write_member(&self, member: &u32, out: &mut Vec<u8>) -> Result<(), Memory> {
        write_param_id(self.tailoring, *member, out)
    }
}

/// Arrays, as they are written.
#[derive(Drop)]
struct WrittenArrays<'t> {
    tailoring: &'t Tailoring,
}

impl WriteMember for WrittenArrays<'_> {
    type Member = SuperList;

    ghost fits = { λ arrays array. ArrayFits arrays.tailoring.now array };

    ghost spelling = { λ arrays array. spelling.array_octets arrays.tailoring.now array };

    fn write_member(&self, member: &SuperList, out: &mut Vec<u8>) -> Result<(), Memory> {
        let width = self.tailoring.widths().repetition_octets;
        put_uint(out, width, u128::from(member.repetition))?;
        write_params(self.tailoring, &member.params, out)
    }
}

/// Appends a count and so many IDs of parameters.
fn write_params(tailoring: &Tailoring, ids: &Items<u32>, out: &mut Vec<u8>) -> Result<(), Memory>
    requires { ParamsFit tailoring.now ids.now }
    ensures { Appends out.old.items result out.new.items (counted_octets tailoring.now (param_octets tailoring.now) ids.now) }
{
    write_list(tailoring, &WrittenParams { tailoring }, ids.as_slice(), out)
}

/// Appends a count and so many arrays.
fn write_arrays(
    tailoring: &Tailoring,
    arrays: &Items<SuperList>,
    out: &mut Vec<u8>,
) -> Result<(), Memory>
    requires few { length arrays.now ≤ 255 }
    requires count { length arrays.now < 256 ^ tailoring.now.widths.count_octets }
    requires fit { AllByRecursion (ArrayFits tailoring.now) arrays.now }
    ensures { Appends out.old.items result out.new.items (counted_octets tailoring.now (spelling.array_octets tailoring.now) arrays.now) }
{
    write_list(
        tailoring,
        &WrittenArrays { tailoring },
        arrays.as_slice(),
        out,
    )
}

/// Appends simple parameters and arrays.
fn write_lists(
    tailoring: &Tailoring,
    simple: &Items<u32>,
    arrays: &Items<SuperList>,
    out: &mut Vec<u8>,
) -> Result<(), Memory>
    requires { ListsFit tailoring.now simple.now arrays.now }
    ensures { Appends out.old.items result out.new.items (spelling.lists_octets tailoring.now simple.now arrays.now) }
{
    write_params(tailoring, simple, out)?;
    write_arrays(tailoring, arrays, out)
}

/// Appends the fields of a request.
fn write_request(
    tailoring: &Tailoring,
    request: &Request03,
    out: &mut Vec<u8>,
) -> Result<(), Memory>
    requires { RequestFits tailoring.now request.now }
    ensures { Appends out.old.items result out.new.items (spelling.request_octets tailoring.now request.now) }
{
    match request {
        Request03::Create(key, def) => {
            write_structure_id(tailoring, key.id, out)?;
            write_interval(tailoring, def.interval, out)?;
            write_lists(tailoring, &def.simple, &def.arrays, out)?;
            Ok(())
        }
        Request03::Append(key, added) => {
            write_structure_id(tailoring, key.id, out)?;
            write_lists(tailoring, &added.simple, &added.arrays, out)?;
            Ok(())
        }
        Request03::OnEach(_, _, ids) => {
            write_list(tailoring, &StructureIds { tailoring }, ids.as_slice(), out)?;
            Ok(())
        }
        Request03::Intervals(_, pairs) => {
            write_list(tailoring, &Pairs { tailoring }, pairs.as_slice(), out)?;
            Ok(())
        }
    }
}

/// Appends the body of a request, and answers its subtype.
pub fn encode_request(
    tailoring: &Tailoring,
    request: &Request03,
    out: &mut Vec<u8>,
) -> Result<u8, Memory>
    requires { IsRequest03 tailoring.now request.now }
    ensures subtype { IfOk result (λ subtype. subtype ≡ spelling.request_subtype request.now) }
    ensures ok { OnOk result (out.new.items ≡ out.old.items ++ spelling.request_octets tailoring.now request.now) }
    ensures err { OnErr result (out.new.items ≡ out.old.items) }
{
    let kept = out.len();
    let written = write_request(tailoring, request, out);
    or_undo(written, kept, out)?;
    Ok(request_subtype(request))
}

/// Appends the fields of a report.
fn write_report(tailoring: &Tailoring, report: &Report03, out: &mut Vec<u8>) -> Result<(), Memory>
    requires { ReportFits tailoring.now report.now }
    ensures { Appends out.old.items result out.new.items (spelling.report_octets tailoring.now report.now) }
{
    match report {
        Report03::Structure(key, structure) => {
            let def = &structure.def;
            write_structure_id(tailoring, key.id, out)?;
            write_flag(structure.enabled, out)?;
            write_interval(tailoring, def.interval, out)?;
            write_lists(tailoring, &def.simple, &def.arrays, out)?;
            Ok(())
        }
        Report03::Values(key, values) => {
            write_structure_id(tailoring, key.id, out)?;
            out.extend_from_slice(values.as_slice())?;
            Ok(())
        }
        Report03::Periodic(_, rows) => {
            write_list(tailoring, &Rows { tailoring }, rows.as_slice(), out)?;
            Ok(())
        }
    }
}

/// Appends the body of a report, and answers its subtype.
pub fn encode_report(
    tailoring: &Tailoring,
    report: &Report03,
    out: &mut Vec<u8>,
) -> Result<u8, Memory>
    requires { IsReport03 tailoring.now report.now }
    ensures subtype { IfOk result (λ subtype. subtype ≡ spelling.report_subtype report.now) }
    ensures ok { OnOk result (out.new.items ≡ out.old.items ++ spelling.report_octets tailoring.now report.now) }
    ensures err { OnErr result (out.new.items ≡ out.old.items) }
{
    let kept = out.len();
    let written = write_report(tailoring, report, out);
    or_undo(written, kept, out)?;
    Ok(report_subtype(report))
}
