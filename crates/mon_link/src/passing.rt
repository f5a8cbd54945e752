ghost use Rattle.std.specs.Prelude.{◌≡◌, ◌+◌, nat_lt, if◌then◌else◌};

/// How many receives in a row may fail for a passing reason.
const MOST_PASSING: u32 = 16;

/// How many receives in a row failed for a passing reason, up to 16.
#[derive(Clone, Copy)]
pub(crate) struct Passing {
    count: u32,
}

impl Passing {
    /// None failed so far.
    pub(crate) fn new() -> Passing
        ensures { result.count ≡ 0 }
    {
        Passing { count: 0 }
    }

    /// Counts a receive that failed. Returns whether the next one may be tried: the seventeenth in a row is one too many.
    pub(crate) fn admit(&mut self) -> bool
        ensures allowed { result ≡ nat_lt self.old.count 16 }
        ensures count { self.new.count ≡ if result then self.old.count + 1 else self.old.count }
    {
        let is_allowed = self.count < MOST_PASSING;
        if is_allowed {
            self.count += 1;
        }
        is_allowed
    }
}
