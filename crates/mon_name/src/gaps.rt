ghost use Rattle.std.specs.Prelude.{◌≡◌, None, false};
ghost use Rattle.mon_name.specs.Awake.{Reads};

use mon_link::Clock;
use std::marker::Model;

/// A clock that is read again and again, and whether more time than a bound passed between two readings.
#[derive(Drop)]
pub struct Gaps<C: Clock + Drop> {
    clock: C,
    most: u64,
    /// What the clock showed last, if it was read.
    last: Option<u64>,
    stood: bool,
}

impl<C: Clock + Drop> Model for Gaps<C> {
    ghost use Rattle.mon_name.specs.Awake as awake;

    ghost Value = { awake.Gaps };

    ghost view = { λ g. record { left = C.left g.clock; most = g.most; last = g.last; stood = g.stood } };
}

impl<C: Clock + Drop> Gaps<C> {
    /// A clock that wasn't read yet. More than `most` milliseconds between two readings are a gap.
    pub fn new(clock: C, most: u64) -> Gaps<C>
        ensures { result ≡ record { left = C.left clock; most = most; last = None; stood = false } }
    {
        Gaps {
            clock,
            most,
            last: None,
            stood: false,
        }
    }

    /// Whether there was a gap.
    pub fn stood(&self) -> bool
        ensures { result ≡ self.now.stood }
    {
        self.stood
    }

    /// Reads the clock. Returns whether there was a gap, now or before.
    pub fn read_clock(&mut self) -> bool
        ensures reads { Reads self.old self.new }
        ensures stood { result ≡ self.new.stood }
    {
        let now = self.clock.now().get();
        if let Some(last) = self.last
            && now.saturating_sub(last) > self.most
        {
            self.stood = true;
        }
        self.last = Some(now);
        self.stood
    }
}
