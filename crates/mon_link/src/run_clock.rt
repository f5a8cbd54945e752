//! The clock of the system. Contracts know nothing of what it will show.

ghost use Rattle.std.specs.Prelude.{◌≡◌, None};

use crate::clock::Clock;
use mon_types::Moment;
use std::time;
use std::time::Instant;

/// The milliseconds since the clock was made.
#[derive(Drop)]
pub struct RunClock<R: time::Clock + Copy> {
    rt: R,
    start: Option<Instant>,
    last: Moment,
}

impl<R: time::Clock + Copy> RunClock<R> {
    /// A clock that begins at 0 now, or when the system's clock can be read.
    pub fn new(rt: &R) -> RunClock<R>
        ensures { result.last ≡ 0 }
    {
        RunClock {
            rt: *rt,
            start: Instant::now(rt).ok(),
            last: Moment::known(0),
        }
    }

    /// The time since the start, if it can be read.
    fn read(&mut self) -> Option<Moment>
        ensures { self.new.last ≡ self.old.last }
    {
        let now = Instant::now(&self.rt).ok()?;
        let start = self.start.unwrap_or(now);
        self.start = Some(start);
        let passed = now.duration_since(start).as_millis();
        Moment::new(u64::try_from(passed).ok()?)
    }
}

impl<R: time::Clock + Copy> Clock for RunClock<R> {
    ghost left = { λ _. None };

    /// If the system's clock can't be read, this is the last reading again, at first 0.
    fn now(&mut self) -> Moment
        ensures last { self.new.last ≡ result }
    {
        if let Some(moment) = self.read() {
            self.last = moment;
        }
        self.last
    }
}
