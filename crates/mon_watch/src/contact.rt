ghost use Rattle.std.specs.Prelude.{◌≡◌};
ghost use Rattle.mon_watch.specs.Seen.{asked_at, heard_at, is_past, is_silent, no_contact, or_first};

/// A monitor is silent if it sends nothing for this long after it was sent something to answer, in milliseconds.
pub const SILENCE: u64 = 10_000;

/// When another monitor was heard last, and when it was first sent something to answer since then. The times are
/// milliseconds of the link's clock.
#[derive(Clone, Copy)]
pub struct Contact {
    pub heard: Option<u64>,
    pub asked: Option<u64>,
}

fn or_first(now: u64, at: Option<u64>) -> Option<u64>
    ensures { result ≡ or_first now at }
{
    match at {
        None => Some(now),
        Some(at) => Some(at),
    }
}

fn is_past(now: u64, at: Option<u64>) -> bool
    ensures { result ≡ is_past now at }
{
    match at {
        None => false,
        Some(at) => now >= SILENCE && at <= now - SILENCE,
    }
}

impl Contact {
    /// The contact before anything is sent or heard.
    pub(crate) fn none() -> Contact
        ensures { result ≡ no_contact }
    {
        Contact {
            heard: None,
            asked: None,
        }
    }

    /// The contact after the monitor was heard: it has nothing to answer.
    pub(crate) fn heard_at(now: u64) -> Contact
        ensures { result ≡ heard_at now }
    {
        Contact {
            heard: Some(now),
            asked: None,
        }
    }

    /// The contact after the monitor was sent something to answer.
    pub(crate) fn asked_at(self, now: u64) -> Contact
        ensures { result ≡ asked_at now self }
    {
        Contact {
            heard: self.heard,
            asked: or_first(now, self.asked),
        }
    }

    /// Whether it was sent something to answer ten seconds ago or earlier, and hasn't been heard since.
    pub fn is_silent(self, now: u64) -> bool
        ensures { result ≡ is_silent now self }
    {
        is_past(now, self.asked)
    }
}
