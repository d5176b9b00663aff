//! The line of `check`.
ghost use Rattle.std.specs.Prelude.{◌≡◌, IfOk};
ghost use Rattle.hk_replay.specs.Inputs.{check_text};

use hk_base::Tailoring;
use std::alloc::{AllocError, Global};

/// The line that says that a tailoring is without fault.
pub fn check_line(alloc: Global, tailoring: &Tailoring) -> Result<Vec<u8>, AllocError>
    ensures { IfOk result (λ line. line.items ≡ check_text tailoring.now) }
{
    let params = tailoring.param_count();
    let structures = tailoring.boots().len();
    let line = format!(in alloc; "tailoring ok parameters {params} structures {structures}\n")?;
    Ok(line.into_bytes())
}
