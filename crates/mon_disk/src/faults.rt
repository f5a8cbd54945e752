ghost use Rattle.std.specs.Prelude.{◌≡◌};
ghost use Rattle.mon_types.specs.Faults.{risen};

/// A count after one more fault. It saturates at the greatest 64-bit number.
pub(crate) fn raised(count: u64) -> u64
    ensures { result ≡ risen count }
{
    count.saturating_add(1)
}
