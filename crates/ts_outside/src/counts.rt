//! Counters that stop at their last value, and the test whether a call is one of those that are to fail.
ghost use Rattle.std.specs.Prelude.{◌≡◌};
ghost use Rattle.ts_outside.specs.Counts as counts;
ghost use Rattle.ts_outside.specs.Memory as memory;

/// The counter after `more` of what it counts: the sum, or its last value.
pub(crate) fn raised(count: u64, more: u64) -> u64
    ensures { result ≡ counts.raised count more }
{
    count.saturating_add(more)
}

/// Whether the call of this number is one of those that are to fail.
pub(crate) fn is_failing(failing: &[u32], number: u64) -> bool
    ensures { result ≡ memory.is_failing failing.now number }
{
    failing.iter().any(|n| u64::from(*n) == number)
}
