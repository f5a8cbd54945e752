ghost use Rattle.std.specs.Prelude.{◌≡◌};
ghost use Rattle.mon_wire.specs.Phases.{is_leading, is_member, is_peon, votes};

/// The phase of a monitor.
#[derive(Clone, Copy, PartialEq, Eq)]
pub enum Phase {
    /// Not started yet.
    Booting,
    /// Asking the others how far they are.
    Probing,
    /// Taking what it lacks from another monitor.
    Synchronizing,
    /// In an election.
    Electing,
    /// A leader that gathers what its quorum accepted.
    Collecting,
    /// A leader that commits a value which an earlier one left.
    Previous,
    /// A leader that waits for commands.
    Active,
    /// A leader whose value waits for its quorum.
    Updating,
    /// A member of a quorum that another monitor leads.
    Peon,
}

impl Phase {
    /// Whether a monitor in this phase leads a quorum.
    pub fn is_leading(self) -> bool
        ensures { result ≡ is_leading self }
    {
        matches!(
            self,
            Phase::Collecting | Phase::Previous | Phase::Active | Phase::Updating
        )
    }

    /// Whether a monitor in this phase follows a leader.
    pub fn is_peon(self) -> bool
        ensures { result ≡ is_peon self }
    {
        matches!(self, Phase::Peon)
    }

    /// Whether a monitor in this phase is in a quorum.
    pub fn is_member(self) -> bool
        ensures { result ≡ is_member self }
    {
        self.is_leading() || self.is_peon()
    }

    /// Whether a monitor in this phase takes part in elections.
    pub fn votes(self) -> bool
        ensures { result ≡ votes self }
    {
        self.is_member() || matches!(self, Phase::Electing)
    }
}

/// A timer of a monitor. Timers that are due together go in the order of their variants.
#[derive(Clone, Copy, PartialEq, Eq)]
pub enum Timer {
    /// The others are probed again.
    Probe,
    /// An election ends, or is called again.
    Election,
    /// A peon hasn't answered the leader's collect.
    Collect,
    /// A peon hasn't accepted the leader's value.
    Accept,
    /// The leader gives leases again.
    Renew,
    /// A peon hasn't acknowledged its lease.
    LeaseAck,
    /// A peon's lease ends.
    Lease,
    /// The provider of a synchronization is silent.
    Sync,
    /// The next versions of a full synchronization are replayed.
    Step,
    /// The next command of the queue is proposed.
    Propose,
    /// The others are pinged again.
    Ping,
}

impl Timer {
    /// How many timers there are.
    pub const COUNT: usize = 11;

    /// Every timer. Timers that are due together go in this order.
    pub const ALL: [Timer; Timer::COUNT] = [
        Timer::Probe,
        Timer::Election,
        Timer::Collect,
        Timer::Accept,
        Timer::Renew,
        Timer::LeaseAck,
        Timer::Lease,
        Timer::Sync,
        Timer::Step,
        Timer::Propose,
        Timer::Ping,
    ];
}
