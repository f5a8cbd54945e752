ghost use Rattle.std.specs.Prelude.{◌≡◌, if◌then◌else◌};
ghost use Rattle.mon_watch.specs.Rations.{admits, from_now, is_over, renewed, with_line};

/// The most lines that are written in an interval, and the length of an interval in milliseconds.
const MOST: u32 = 20;

const INTERVAL: u64 = 10_000;

/// How many lines were written and left out in the interval that began at `begun`.
#[derive(Clone, Copy)]
pub struct Ration {
    begun: u64,
    written: u32,
    left_out: u64,
}

impl Ration {
    /// An interval that begins now and has no lines yet.
    pub fn from_now(now: u64) -> Ration
        ensures { result ≡ from_now now }
    {
        Ration {
            begun: now,
            written: 0,
            left_out: 0,
        }
    }

    /// Begins the next interval if this one is over, and returns how many lines this one left out. Returns 0 if it
    /// isn't over.
    pub fn renews(&mut self, now: u64) -> u64
        ensures after { self.new ≡ renewed now self.old }
        ensures left_out { result ≡ if is_over now self.old then self.old.left_out else 0 }
    {
        if now < INTERVAL || self.begun > now - INTERVAL {
            return 0;
        }
        let left_out = self.left_out;
        *self = Ration::from_now(now);
        left_out
    }

    /// Counts a line. Returns whether it may be written.
    pub fn admit(&mut self) -> bool
        ensures after { self.new ≡ with_line self.old }
        ensures may { result ≡ admits self.old }
    {
        if self.written < MOST {
            self.written += 1;
            return true;
        }
        self.left_out = self.left_out.saturating_add(1);
        false
    }
}
