//! The lives of a monitor's process over one socket.

ghost use Rattle.std.specs.Prelude.{◌≡◌, None, false};
ghost use Rattle.mon_resend.specs.World.{fresh};
ghost use Rattle.mon_watch.specs.Traffic.{no_notes};

use crate::naming::{GreetingLink, MonitorLink, new_life, report_standstill};
use crate::watching::Lines;
use mon_link::{Clock, Got, Link, Lives, NoLife, Peer, RunClock, UdpLink};
use mon_name::{Awake, BootClock, Life, Named};
use mon_resend::Resending;
use mon_types::Stop;
use mon_watch::{Watch, Watched};

/// For how many milliseconds the machine may stand still in the first life of a monitor.
pub const FIRST_STANDSTILL: u64 = 10_000;

/// The link of a monitor in the first of its lives, and in each further one.
#[derive(Drop)]
pub struct MonitorLives {
    rt: HostRuntime,
    pub link: MonitorLink,
    /// For how many milliseconds the machine may stand still in this life.
    most: u64,
}

impl MonitorLives {
    /// The first life over a socket. The link is closed after the machine stood still for more than `FIRST_STANDSTILL`,
    /// and it is watched.
    pub fn first(
        rt: &HostRuntime,
        link: GreetingLink,
        life: Life,
        watch: Watch<Lines>,
    ) -> MonitorLives
        ensures below { result.link.inner.inner.inner.inner ≡ link }
        ensures tag { result.link.inner.inner.inner.tag ≡ link.own.tag }
        ensures life { result.link.inner.inner.inner.life ≡ life }
        ensures gaps { result.link.inner.inner.gaps ≡ record { left = None; most = FIRST_STANDSTILL; last = None; stood = false } }
        ensures most { result.most ≡ FIRST_STANDSTILL }
        ensures copies { result.link.inner.copies ≡ fresh }
        ensures member { result.link.watch.member ≡ watch.member }
        ensures notes { result.link.notes ≡ no_notes }
    {
        let tag = link.own.tag;
        let named = Named::new(link, tag, life, rt.alloc());
        let awake = Awake::new(named, BootClock::new(), FIRST_STANDSTILL);
        let resending = Resending::new(rt.alloc(), awake, RunClock::new(rt));
        MonitorLives {
            rt: *rt,
            link: Watched::new(resending, RunClock::new(rt), watch),
            most: FIRST_STANDSTILL,
        }
    }

    /// The socket.
    pub fn socket(&self) -> &UdpLink<HostRuntime>
        ensures { result.now ≡ self.now.link.inner.inner.inner.inner.inner }
    {
        &self.link.inner.inner.inner.inner.inner
    }
}

impl Link for MonitorLives {
    ghost state = { λ r. ⟦<MonitorLink as Link>⟧.state r.link };

    ghost history = { λ r. ⟦<MonitorLink as Link>⟧.history r.link };

    fn next(&mut self, wait: u64) -> Result<Got, Stop> {
        self.link.next(wait)
    }

    fn send(&mut self, to: Peer, bytes: &[u8]) -> Result<(), Stop> {
        self.link.send(to, bytes)
    }
}

impl Lives for MonitorLives {
    ghost stood = { λ r. r.link.inner.inner.gaps.stood };

    fn stood(&self) -> bool {
        self.link.inner.inner.stood()
    }

    /// Reports that the machine stood still, draws the number of the new life, and drops what the links noted and kept in
    /// the old one. Their clocks begin anew.
    fn live_anew(&mut self) -> Result<(), NoLife> {
        let lived = self.link.clock.now().get();
        self.most = report_standstill(
            &mut self.link.watch.lines,
            self.rt.alloc(),
            self.most,
            lived,
        );
        let Ok(life) = new_life(&self.rt) else {
            return Err(NoLife);
        };
        self.link.forget();
        self.link.clock = RunClock::new(&self.rt);
        let resending = &mut self.link.inner;
        resending.forget();
        resending.clock = RunClock::new(&self.rt);
        let awake = &mut resending.inner;
        awake.reopen(BootClock::new(), self.most);
        awake.inner.life = life;
        Ok(())
    }
}
