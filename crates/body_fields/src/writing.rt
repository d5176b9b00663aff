ghost use Rattle.std.specs.Prelude.{◌≡◌, ◌<◌, ◌+◌, ◌^◌, ◌++◌, take, OnOk, OnErr};
ghost use Rattle.hk_base.specs.Fields.{octets_of};
ghost use Rattle.body_fields.specs.Spelling.{structure_octets, param_octets, interval_octets, flag_octets, time_octets};

use hk_base::{Memory, Tailoring, put_uint};

/// Appends a number of members.
pub fn write_count(tailoring: &Tailoring, count: u32, out: &mut Vec<u8>) -> Result<(), Memory>
    requires { count < 256 ^ tailoring.now.widths.count_octets }
    ensures ok { OnOk result (out.new.items ≡ out.old.items ++ octets_of tailoring.now.widths.count_octets count) }
    ensures err { OnErr result (out.new.items ≡ out.old.items) }
{
    put_uint(out, tailoring.widths().count_octets, u128::from(count))
}

/// Appends the ID of a structure.
pub fn write_structure_id(tailoring: &Tailoring, id: u32, out: &mut Vec<u8>) -> Result<(), Memory>
    requires { id < 256 ^ tailoring.now.widths.structure_octets }
    ensures ok { OnOk result (out.new.items ≡ out.old.items ++ structure_octets tailoring.now id) }
    ensures err { OnErr result (out.new.items ≡ out.old.items) }
{
    put_uint(out, tailoring.widths().structure_octets, u128::from(id))
}

/// Appends the ID of a parameter.
pub fn write_param_id(tailoring: &Tailoring, id: u32, out: &mut Vec<u8>) -> Result<(), Memory>
    requires { id < 256 ^ tailoring.now.widths.parameter_octets }
    ensures ok { OnOk result (out.new.items ≡ out.old.items ++ param_octets tailoring.now id) }
    ensures err { OnErr result (out.new.items ≡ out.old.items) }
{
    put_uint(out, tailoring.widths().parameter_octets, u128::from(id))
}

/// Appends an interval in slots.
pub fn write_interval(tailoring: &Tailoring, interval: u32, out: &mut Vec<u8>) -> Result<(), Memory>
    requires { interval < 256 ^ tailoring.now.widths.interval_octets }
    ensures ok { OnOk result (out.new.items ≡ out.old.items ++ interval_octets tailoring.now interval) }
    ensures err { OnErr result (out.new.items ≡ out.old.items) }
{
    put_uint(
        out,
        tailoring.widths().interval_octets,
        u128::from(interval),
    )
}

/// Appends a status or a flag.
pub fn write_flag(flag: bool, out: &mut Vec<u8>) -> Result<(), Memory>
    ensures ok { OnOk result (out.new.items ≡ out.old.items ++ flag_octets flag) }
    ensures err { OnErr result (out.new.items ≡ out.old.items) }
{
    out.push(u8::from(flag))?;
    Ok(())
}

/// Appends a time, given by its tag.
pub fn write_time(tailoring: &Tailoring, tag: u64, out: &mut Vec<u8>) -> Result<(), Memory>
    requires { tag < 256 ^ (tailoring.now.widths.coarse + tailoring.now.widths.fine) }
    ensures ok { OnOk result (out.new.items ≡ out.old.items ++ time_octets tailoring.now tag) }
    ensures err { OnErr result (out.new.items ≡ out.old.items) }
{
    let widths = tailoring.widths();
    put_uint(out, widths.coarse + widths.fine, u128::from(tag))
}

/// Passes a writer's result on. Where it failed, what it has appended behind the first `kept` octets is taken back.
pub fn or_undo(written: Result<(), Memory>, kept: usize, out: &mut Vec<u8>) -> Result<(), Memory>
    ensures result { result ≡ written }
    ensures ok { OnOk result (out.new.items ≡ out.old.items) }
    ensures err { OnErr result (out.new.items ≡ take kept out.old.items) }
{
    if written.is_err() {
        out.truncate(kept);
    }
    written
}
