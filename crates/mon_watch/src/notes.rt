ghost use Rattle.std.specs.Prelude.{◌≡◌};
ghost use Rattle.mon_watch.specs.Kinds.{kind_named};
ghost use Rattle.mon_watch.specs.Seen.{shows};
ghost use Rattle.mon_watch.specs.Traffic.{no_notes, notes_arrival, notes_got, notes_sent};

use crate::kinds::kind_named;
use crate::seen::{Seen, shows};
use crate::traffic::Traffic;
use mon_link::{Got, Peer};
use mon_types::Rank;

/// All that a link noted of its monitor. `now` is when the link below last gave something, in milliseconds of the
/// clock.
#[derive(Clone, Copy)]
pub struct Notes {
    pub seen: Seen,
    pub traffic: Traffic,
    pub now: u64,
}

impl Notes {
    /// The notes before anything is sent or received.
    pub fn new() -> Notes
        ensures { result ≡ no_notes }
    {
        Notes {
            seen: Seen::new(),
            traffic: Traffic::new(),
            now: 0,
        }
    }

    /// Notes a datagram that the monitor of rank `own` sends. Returns whether its kind shows a phase, which may be a
    /// new one.
    pub(crate) fn sends(&mut self, own: Rank, to: &Peer, bytes: &[u8]) -> bool
        ensures notes { self.new ≡ notes_sent own to.now bytes.now self.old }
        ensures shows { result ≡ shows (kind_named bytes.now) }
    {
        let kind = kind_named(bytes);
        self.seen.sends(own, *to, kind, bytes, self.now);
        self.traffic.sends(bytes, kind);
        shows(kind)
    }

    fn comes(&mut self, from: Peer, bytes: &[u8])
        ensures { self.new ≡ notes_arrival from bytes.now self.old }
    {
        let kind = kind_named(bytes);
        self.seen.gets(from, kind, bytes, self.now);
        self.traffic.gets(bytes, kind);
    }

    /// Notes what the link below gave at this time.
    pub(crate) fn gets(&mut self, got: &Got, now: u64)
        ensures { self.new ≡ notes_got now got.now self.old }
    {
        self.now = now;
        if let Got::Datagram { from, bytes } = got {
            self.comes(*from, bytes.as_slice());
        }
    }
}
