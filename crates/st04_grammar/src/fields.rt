//! Fields of the grammar, written.
ghost use Rattle.std.specs.Prelude.{◌≡◌, ◌++◌, OnOk, OnErr};
ghost use Rattle.body_fields.specs.Spelling.{counted_octets, param_octets};
ghost use Rattle.st04_grammar.specs.Spelling.{AreNumericIds};

use body_fields::{ParamIds, write_list};
use hk_base::{Memory, Tailoring};

/// Appends a list of parameters with numbers.
pub fn write_ids(tailoring: &Tailoring, ids: &[u32], out: &mut Vec<u8>) -> Result<(), Memory>
    requires { AreNumericIds tailoring.now 0 ids.now }
    ensures ok { OnOk result (out.new.items ≡ out.old.items ++ counted_octets tailoring.now (param_octets tailoring.now) ids.now) }
    ensures err { OnErr result (out.new.items ≡ out.old.items) }
{
    write_list(tailoring, &ParamIds { tailoring }, ids, out)
}
