ghost use Rattle.std.specs.Prelude.{◌≡◌, true, false, None, Ok};
ghost use Rattle.mon_link.specs.Histories.Happened.{Received, WasSent};
ghost use Rattle.mon_link.specs.Layers.{Above, Grows};
ghost use Rattle.mon_link.specs.Links.{unseen};
ghost use Rattle.mon_link.specs.declared.link.Got.TheVariants.{Closed};
ghost use Rattle.mon_name.specs.Awake.{NextAwake, SendAwake};
ghost use Rattle.mon_name.specs.Histories.{AwakeDoes, NotStood};

use crate::gaps::Gaps;
use mon_link::{Clock, Got, Link, Peer};
use mon_types::Stop;

/// A link whose monitor may stand still: it reads a clock at each call. Once more time than a bound passed between two
/// readings, nothing more is sent, and the link is closed for good.
#[derive(Drop)]
pub struct Awake<L: Link + Drop, C: Clock + Drop> {
    pub inner: L,
    gaps: Gaps<C>,
}

impl<L: Link + Drop, C: Clock + Drop> Awake<L, C> {
    /// A link over this one, which may stand still for `most` milliseconds. The clock is first read at the first call.
    pub fn new(inner: L, clock: C, most: u64) -> Awake<L, C>
        ensures inner { result.inner ≡ inner }
        ensures gaps { result.gaps ≡ record { left = C.left clock; most = most; last = None; stood = false } }
    {
        Awake {
            inner,
            gaps: Gaps::new(clock, most),
        }
    }

    /// Opens the link again, as a new one that may stand still for `most` milliseconds.
    pub fn reopen(&mut self, clock: C, most: u64)
        ensures inner { self.new.inner ≡ self.old.inner }
        ensures gaps { self.new.gaps ≡ record { left = C.left clock; most = most; last = None; stood = false } }
    {
        self.gaps = Gaps::new(clock, most);
    }

    /// Whether a gap was seen: the monitor stood still for longer than `most` milliseconds.
    pub fn stood(&self) -> bool
        ensures { result ≡ self.now.gaps.stood }
    {
        self.gaps.stood()
    }
}

impl<L: Link + Drop, C: Clock + Drop> Link for Awake<L, C> {
    ghost state = { λ r. unseen (L.state r.inner).faults };

    ghost history = { λ r. Above AwakeDoes NotStood (L.history r.inner) r.gaps };

    /// Reads the clock, asks the link below once for what comes, and reads the clock again. After a gap the result is
    /// `Closed`, and the link below isn't asked. If a gap is seen after it was asked, what came is dropped, but an
    /// error is returned.
    fn next(&mut self, wait: u64) -> Result<Got, Stop>
        ensures next { NextAwake wait result self.old.gaps self.new.gaps
            (L.state self.old.inner) (L.state self.new.inner) }
        ensures does { Grows (L.history self.old.inner)
            (λ calls. AwakeDoes self.old.gaps (Received wait result) calls self.new.gaps) (L.history self.new.inner) }
        ensures stays { self.old.gaps.stood ≡ true
            → (self.new.gaps.stood ≡ true) × (self.new.inner ≡ self.old.inner) × (result ≡ Ok Closed) }
    {
        if self.gaps.read_clock() {
            return Ok(Got::Closed);
        }
        let gave = self.inner.next(wait);
        let stood = self.gaps.read_clock();
        let got = gave?;
        Ok(if stood { Got::Closed } else { got })
    }

    /// Reads the clock, and sends a datagram. After a gap nothing is sent, and the result is `Ok`.
    fn send(&mut self, to: Peer, bytes: &[u8]) -> Result<(), Stop>
        ensures send { SendAwake to bytes.now result self.old.gaps self.new.gaps
            (L.state self.old.inner) (L.state self.new.inner) }
        ensures does { Grows (L.history self.old.inner)
            (λ calls. AwakeDoes self.old.gaps (WasSent to bytes.now result) calls self.new.gaps) (L.history self.new.inner) }
        ensures stays { self.old.gaps.stood ≡ true
            → (self.new.gaps.stood ≡ true) × (self.new.inner ≡ self.old.inner) }
    {
        if self.gaps.read_clock() {
            return Ok(());
        }
        self.inner.send(to, bytes)
    }
}
