//! The count after a fault.
ghost use Rattle.std.specs.Prelude.{◌≡◌};
ghost use Rattle.fault_count.specs.Cause.{Rose, next_count};

/// A count one higher, which stands still at its type's end.
pub fn raised(count: u64) -> u64
    ensures value { result ≡ next_count count }
    ensures rose { Rose count result }
{
    count.saturating_add(1)
}
