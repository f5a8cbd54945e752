//! Which PROPOSEs of a monitor aren't handed up.

ghost use Rattle.std.specs.Prelude.{◌≡◌};
ghost use Rattle.mon_resend.specs.Calls.{no_earlier, rested, unacknowledged, acknowledged_in, drops, counted};

/// After a PROPOSE of an earlier epoch was handed up, others are dropped for this long, in milliseconds: at first, at
/// most.
pub(crate) const FIRST_REST: u64 = 10_000;

pub(crate) const MOST_REST: u64 = 60_000;

/// The next rest is doubled if it begins less than this long after the end of the last one, in milliseconds.
pub(crate) const REMEMBERED: u64 = 60_000;

/// The least and the greatest time between two PROPOSEs that follow each other as copies do, in milliseconds.
pub(crate) const LEAST_APART: u64 = 500;

pub(crate) const MOST_APART: u64 = 2_500;

/// How many such copies of an acknowledged PROPOSE show that the acknowledgements don't arrive.
pub(crate) const MOST_UNHEARD: u8 = 10;

/// How long the PROPOSEs of a monitor that hears no acknowledgement are dropped, in milliseconds: more than two
/// elections. Meanwhile the others wait for the end of the current election, and then hold their own.
pub(crate) const UNHEARD_REST: u64 = 12_000;

/// What is noted of a monitor's PROPOSEs of an earlier epoch than that of one's own quorum. Each that is handed up ends the
/// quorum.
#[derive(Clone, Copy)]
pub struct Earlier {
    pub until: u64,
    pub rest: u64,
}

impl Earlier {
    pub(crate) fn none() -> Earlier
        ensures { result ≡ no_earlier }
    {
        Earlier { until: 0, rest: 0 }
    }

    /// The note after an arrived PROPOSE, or `None` if the PROPOSE isn't handed up.
    pub(crate) fn after(self, now: u64) -> Option<Earlier>
        ensures { result ≡ rested now self }
    {
        if now < self.until {
            return None;
        }
        let rest = if self.rest == 0 || now >= self.until.saturating_add(REMEMBERED) {
            FIRST_REST
        } else {
            self.rest.saturating_mul(2).min(MOST_REST)
        };
        Some(Earlier {
            until: now.saturating_add(rest),
            rest,
        })
    }
}

/// What is noted of a monitor's PROPOSEs of the epoch in which its PROPOSE was acknowledged. A link repeats a PROPOSE until
/// it hears the acknowledgement, so copies that go on show that none arrives.
#[derive(Clone, Copy)]
pub struct Acknowledged {
    pub epoch: u64,
    pub last: u64,
    pub times: u8,
    pub until: u64,
}

impl Acknowledged {
    pub(crate) fn none() -> Acknowledged
        ensures { result ≡ unacknowledged }
    {
        Acknowledged {
            epoch: 0,
            last: 0,
            times: 0,
            until: 0,
        }
    }

    /// The note after the monitor's PROPOSE was acknowledged in this epoch.
    pub(crate) fn in_epoch(self, epoch: u64, now: u64) -> Acknowledged
        ensures { result ≡ acknowledged_in epoch now self }
    {
        if epoch == self.epoch {
            return self;
        }
        Acknowledged {
            epoch,
            last: now,
            times: 0,
            until: 0,
        }
    }

    /// Whether a PROPOSE that arrives now isn't handed up.
    pub(crate) fn drops(self, now: u64) -> bool
        ensures { result ≡ drops now self }
    {
        now < self.until
    }

    /// The note after a PROPOSE arrived. `MOST_UNHEARD` in a row, as far apart as copies are, begin a rest.
    pub(crate) fn after(self, now: u64) -> Acknowledged
        ensures { result ≡ counted now self }
    {
        let apart = now.saturating_sub(self.last);
        if self.drops(now) || apart < LEAST_APART {
            return self;
        }
        let times = if apart > MOST_APART {
            1
        } else {
            self.times.saturating_add(1)
        };
        let unheard = times >= MOST_UNHEARD;
        Acknowledged {
            epoch: self.epoch,
            last: now,
            times: if unheard { 0 } else { times },
            until: if unheard {
                now.saturating_add(UNHEARD_REST)
            } else {
                self.until
            },
        }
    }
}
