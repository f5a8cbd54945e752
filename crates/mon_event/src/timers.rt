//! The timers of a monitor.

ghost use Rattle.std.specs.Prelude.{◌≡◌, ◌<◌};
ghost use Rattle.mon_msg.specs.Protocol.Timers.{index_of, end_of, is_armed, unarmed, disarmed, only_ping, sooner, due, soonest};
ghost use Rattle.mon_plan.specs.Plans.{is_needed, armed_as, all_armed};
ghost use Rattle.mon_wire.specs.declared.phase.TheConstants.Timer.{COUNT};

use mon_msg::{Arming, Timer};
use mon_types::Moment;
use std::marker::Model;

/// For each kind of timer, in their order, the time for which it is armed.
#[derive(Clone, Copy, PartialEq, Eq)]
pub struct Timers {
    ends: [Option<Moment>; Timer::COUNT],
}

impl Model for Timers {
    ghost use Rattle.std.specs.Prelude.{ℕ, List, Option};

    ghost Value = { List (Option ℕ) };

    ghost view = { λ t. t.ends };

    ghost inverse = { λ ends. record { ends = ends } };
}

/// The place of a kind among all.
fn index_of(kind: Timer) -> usize
    ensures value { result ≡ index_of kind }
    ensures below { result < COUNT }
{
    kind as usize
}

/// The sooner of a timer and the soonest timer of a later kind. If their times are equal, it is the former.
fn sooner(
    kind: Timer,
    end: Option<Moment>,
    later: Option<(Timer, Moment)>,
) -> Option<(Timer, Moment)>
    ensures { result ≡ sooner kind end later }
{
    let Some(end) = end else {
        return later;
    };
    let Some((other, other_end)) = later else {
        return Some((kind, end));
    };
    if end.get() <= other_end.get() {
        Some((kind, end))
    } else {
        Some((other, other_end))
    }
}

impl Timers {
    /// No timer is armed.
    pub fn unarmed() -> Timers
        ensures { result ≡ unarmed }
    {
        Timers {
            ends: [None; Timer::COUNT],
        }
    }

    /// The time for which a timer is armed.
    fn end_of(&self, kind: Timer) -> Option<Moment>
        ensures { result ≡ end_of kind self.now }
    {
        self.ends[index_of(kind)]
    }

    /// Whether a timer is armed.
    pub fn is_armed(&self, kind: Timer) -> bool
        ensures { result ≡ is_armed kind self.now }
    {
        self.end_of(kind).is_some()
    }

    /// Disarms a timer.
    pub fn disarm(&mut self, kind: Timer)
        ensures { self.new ≡ disarmed kind self.old }
    {
        self.ends[index_of(kind)] = None;
    }

    /// The same timers, with all but `Ping` disarmed.
    pub fn only_ping(&self) -> Timers
        ensures { result ≡ only_ping self.now }
    {
        let mut only = Timers::unarmed();
        only.ends[index_of(Timer::Ping)] = self.end_of(Timer::Ping);
        only
    }

    /// Whether arming sets a timer. `Propose` is set only if a command waits. `LeaseAck` is set only if it isn't armed,
    /// so that a leader that gives leases again doesn't wait longer for acknowledgements.
    fn is_needed(&self, waits: bool, kind: Timer) -> bool
        ensures { result ≡ is_needed waits kind self.now }
    {
        match kind {
            Timer::Propose => waits,
            Timer::LeaseAck => !self.is_armed(kind),
            Timer::Probe
            | Timer::Election
            | Timer::Collect
            | Timer::Accept
            | Timer::Renew
            | Timer::Lease
            | Timer::Sync
            | Timer::Step
            | Timer::Ping => true,
        }
    }

    /// Arms a timer, if it is needed, or disarms it.
    fn set(&mut self, waits: bool, arming: &Arming)
        ensures { self.new ≡ armed_as waits arming.now self.old }
    {
        match arming {
            Arming::Arm { kind, end } => {
                if self.is_needed(waits, *kind) {
                    self.ends[index_of(*kind)] = Some(*end);
                }
            }
            Arming::Disarm { kind } => self.disarm(*kind),
        }
    }

    /// Arms and disarms timers, in order. `waits` says whether a command waits.
    #[tactic(auto, using(crate::proofs::Setting::set_next, crate::proofs::Setting::set_end))]
    pub fn set_all(&mut self, waits: bool, armings: &[Arming])
        ensures { self.new ≡ all_armed waits armings.now self.old }
    {
        for arming in armings {
            self.set(waits, arming);
        }
    }

    /// The timer that fires next, and its time. It is the one armed for the least time, and of several the first kind.
    pub fn due(&self) -> Option<(Timer, Moment)>
        ensures { result ≡ due self.now }
    {
        let mut next = None;
        for i in (0..Timer::COUNT).rev() {
            let kind = Timer::ALL[i];
            next = sooner(kind, self.end_of(kind), next);
        }
        next
    }
}
