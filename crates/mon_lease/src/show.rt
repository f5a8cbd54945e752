ghost use Rattle.std.specs.Prelude.{◌≡◌};
ghost use Rattle.mon_lease.specs.Lease.{readable as is_readable};

use crate::lease::Lease;
use mon_types::{Moment, Version};

/// Whether a monitor of a map of `monitors` may show the version `last`, its last committed one: there is one, and it
/// is alone in its map or holds a valid lease.
pub fn readable(last: Version, monitors: u8, lease: &Lease, now: Moment) -> bool
    ensures { result ≡ is_readable last monitors lease.now now }
{
    last.get() > 0 && (monitors == 1 || lease.standing(now))
}
