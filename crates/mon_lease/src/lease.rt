ghost use Rattle.std.specs.Prelude.{◌≡◌, ℕ, Option, None, Some};
ghost use Rattle.mon_lease.specs.Lease.{extended, stands};

use mon_types::{GREATEST, Moment};
use std::marker::Model;

/// The milliseconds for which a lease is valid after it was given.
pub const LENGTH: u64 = 5_000;

/// A lease to read: either none, or one that is valid until its end. It ends by the clock of the monitor that holds
/// it.
#[derive(Clone, Copy, PartialEq, Eq)]
pub struct Lease {
    end: Option<Moment>,
}

impl Model for Lease {
    ghost use Rattle.std.specs.Prelude.{ℕ, Option};

    ghost Value = { Option ℕ };

    ghost view = { λ l. l.end };

    ghost inverse = { λ end. record { end = end } };
}

impl Lease {
    /// No lease.
    pub fn none() -> Lease
        ensures { result ≡ None }
    {
        Lease { end: None }
    }

    /// From now on the lease is valid for [`LENGTH`] milliseconds. An end that would pass 2^62 is 2^62.
    pub fn extend(&mut self, now: Moment)
        ensures { self.new ≡ extended now }
    {
        self.end = Some(Moment::known((now.get() + LENGTH).min(GREATEST)));
    }

    /// From now on there is no lease.
    pub fn cancel(&mut self)
        ensures { self.new ≡ None }
    {
        self.end = None;
    }

    /// Whether there is a lease and `now` is below its end.
    pub fn standing(&self, now: Moment) -> bool
        ensures { result ≡ stands self.now now }
    {
        match self.end {
            Some(end) => now < end,
            None => false,
        }
    }
}
