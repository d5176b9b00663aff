//! Calls that fail because their numbers are listed.
ghost use Rattle.std.specs.Prelude.{◌≡◌, false};
ghost use Rattle.hk_base.specs.Memory as memory;
ghost use Rattle.hk_base.specs.Memory.{NoneAhead, one_more};

use crate::outside::Failed;

/// Counts a call, and tells whether its number is listed. The first call has the number 1.
pub(crate) fn is_next_listed(calls: &mut u64, failing: &[u32]) -> bool
    ensures count { calls.new ≡ one_more calls.old }
    ensures listed { result ≡ memory.is_next_listed failing.now calls.old }
    ensures none { NoneAhead failing.now calls.old → result ≡ false }
    ensures later { NoneAhead failing.now calls.old → NoneAhead failing.now calls.new }
{
    let number = u128::from(*calls) + 1;
    *calls = calls.saturating_add(1);
    is_listed(failing, number)
}

/// Whether the number is listed.
fn is_listed(failing: &[u32], number: u128) -> bool
    ensures { result ≡ memory.is_listed failing.now number }
{
    failing.iter().any(|listed| u128::from(*listed) == number)
}

/// Counts a fault.
pub(crate) fn raise(faults: &mut u64) -> Failed
    ensures { faults.new ≡ one_more faults.old }
{
    *faults = faults.saturating_add(1);
    Failed
}
