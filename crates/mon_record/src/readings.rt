ghost use Rattle.std.specs.Prelude.{◌≡◌, ℕ, take};
ghost use Rattle.mon_record.specs.Recorders.{listed};

use mon_types::Moment;

/// The most readings of a clock between two calls of a link that are kept.
const MOST_READINGS: usize = 8;

/// What a clock showed since its readings were noted last.
#[derive(Clone, Copy)]
pub struct Readings {
    times: [u64; MOST_READINGS],
    count: usize,
    /// How many more readings there were.
    missed: u64,
}

impl Readings {
    /// No reading.
    pub fn none() -> Readings {
        Readings {
            times: [0; MOST_READINGS],
            count: 0,
            missed: 0,
        }
    }

    /// These readings and one more.
    pub(crate) fn and(self, time: Moment) -> Readings {
        let mut all = self;
        if all.count < MOST_READINGS {
            all.times[all.count] = time.get();
            all.count += 1;
        } else {
            all.missed = all.missed.saturating_add(1);
        }
        all
    }

    /// The readings that are kept, oldest first.
    pub(crate) fn times(&self) -> &[u64]
        ensures { result.now ≡ listed self.now }
    {
        &self.times[..self.count.min(MOST_READINGS)]
    }

    /// How many readings aren't kept.
    pub(crate) fn missed(&self) -> u64
        ensures { result ≡ self.now.missed }
    {
        self.missed
    }
}
