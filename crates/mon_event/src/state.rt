//! What a core remembers of the protocol.

ghost use Rattle.std.specs.Prelude.{◌≡◌, not, None};
ghost use Rattle.mon_msg.specs.Protocol.Course.{timers_in};
ghost use Rattle.mon_msg.specs.Protocol.Phases.{phase_of};
ghost use Rattle.mon_msg.specs.Protocol.Sets.{is_empty};
ghost use Rattle.mon_msg.specs.Protocol.State.{booting, no_clients, start_leader};
ghost use Rattle.mon_plan.specs.Plans.{all_armed, phase_as};
ghost use Rattle.mon_event.specs.State.{state_of};

use crate::timers::Timers;
use election_rules::Scores;
use mon_bytes::{Items, KeyPlace};
use mon_lease::Lease;
use mon_msg::{
    Arming, Clients, Elector, Leader, LeaderStage, Peon, Phase, Place, Prober, Provider, Requester,
    SyncStage,
};
use mon_types::{Moment, Pn, Rank, RankSet, Version};
use std::alloc::Global;
use std::mem;

/// What a running monitor remembers and its store doesn't keep.
#[derive(Drop)]
pub struct State {
    /// The phase of the monitor.
    pub phase: Phase,
    /// The election that it takes part in, and its scores.
    pub elector: Elector,
    /// Which monitors it knows to be outside a quorum, while it probes.
    pub prober: Prober,
    /// What it asked, heard and began as a leader. It counts in the phases in which the monitor leads.
    pub leader: Leader,
    /// Whom it follows. It counts in the phase of a peon.
    pub peon: Peon,
    /// The commands and the clients that wait.
    pub clients: Clients,
    /// The cookies of the monitors that copy its store.
    pub provider: Provider,
    /// How far it has copied another's store.
    pub requester: Requester,
    /// Which timers are armed, and for when.
    pub timers: Timers,
}

fn first_elector(rank: Rank) -> Elector
    ensures { result ≡ (booting rank).elector }
{
    Elector {
        candidate: false,
        acked: RankSet::empty(),
        deferred: None,
        scores: Scores::start(rank, 0),
        heard: RankSet::empty(),
        pinged: Moment::known(0),
    }
}

fn first_leader() -> Leader
    ensures { result ≡ start_leader }
{
    Leader {
        quorum: RankSet::empty(),
        pn: Pn::known(0),
        stage: LeaderStage::Collecting,
        answered: RankSet::empty(),
        lasts: [Version::known(0); 15],
        found: None,
        accepted: RankSet::empty(),
        value: None,
        origin: None,
        lease: Lease::none(),
        acks: RankSet::empty(),
    }
}

fn first_requester(rank: Rank) -> Requester
    ensures { result ≡ (booting rank).requester }
{
    Requester {
        provider: rank,
        full: false,
        stage: SyncStage::Cookie,
        cookie: None,
        start: Version::known(0),
        place: Place {
            version: Version::known(0),
            key: KeyPlace::Start,
        },
    }
}

/// The clients' state in which nobody waits and no forwarded command was taken.
fn no_clients(alloc: Global) -> Clients
    ensures { result ≡ no_clients }
{
    Clients {
        queue: Items::new(alloc),
        sessions: Items::new(alloc),
        next_seq: 1,
        taken: [0; 15],
    }
}

fn phase_of(stage: LeaderStage) -> Phase
    ensures { result ≡ phase_of stage }
{
    match stage {
        LeaderStage::Collecting => Phase::Collecting,
        LeaderStage::Previous => Phase::Previous,
        LeaderStage::Active => Phase::Active,
        LeaderStage::Updating => Phase::Updating,
    }
}

/// The phase of a monitor that gets a leader's state with this stage: the stage's if the monitor leads, and otherwise
/// its own.
fn phase_as(stage: LeaderStage, phase: Phase) -> Phase
    ensures { result ≡ phase_as stage phase }
{
    if phase.is_leading() {
        phase_of(stage)
    } else {
        phase
    }
}

impl State {
    /// What a monitor of that rank remembers before it starts. It takes no memory.
    pub fn booting(alloc: Global, rank: Rank) -> State
        ensures { state_of result ≡ booting rank }
    {
        State {
            phase: Phase::Booting,
            elector: first_elector(rank),
            prober: Prober {
                outside: RankSet::empty(),
            },
            leader: first_leader(),
            peon: Peon {
                leader: rank,
                quorum: RankSet::empty(),
                lease: Lease::none(),
            },
            clients: no_clients(alloc),
            provider: Provider {
                cookies: [None; 15],
                next_cookie: 1,
            },
            requester: first_requester(rank),
            timers: Timers::unarmed(),
        }
    }

    /// Enters a phase. If the monitor wasn't in it already, all timers but `Ping` are disarmed.
    pub fn enter_phase(&mut self, phase: Phase)
        ensures { state_of self.new ≡ record (state_of self.old) {
          phase = phase;
          timers = timers_in phase (state_of self.old);
        } }
    {
        if self.phase != phase {
            self.timers = self.timers.only_ping();
        }
        self.phase = phase;
    }

    /// Forgets the clients and commands that wait, and which forwarded commands were taken.
    pub fn forget_clients(&mut self, alloc: Global)
        ensures { state_of self.new ≡ record (state_of self.old) { clients = no_clients } }
    {
        self.clients = no_clients(alloc);
    }

    /// Takes out what is remembered of clients, and leaves the state before any client asked.
    pub fn take_clients(&mut self, alloc: Global) -> Clients
        ensures taken { result ≡ (state_of self.old).clients }
        ensures left { state_of self.new ≡ record (state_of self.old) { clients = no_clients } }
    {
        mem::replace(&mut self.clients, no_clients(alloc))
    }

    /// Takes out what is remembered as a leader, and leaves the state of a monitor that has never led.
    pub fn take_leader(&mut self) -> Leader
        ensures taken { result ≡ (state_of self.old).leader }
        ensures left { state_of self.new ≡ record (state_of self.old) { leader = start_leader } }
    {
        mem::replace(&mut self.leader, first_leader())
    }

    /// Replaces what is remembered as a peon: the monitor follows this leader in this quorum, without a lease.
    pub fn follow(&mut self, leader: Rank, quorum: RankSet)
        ensures { state_of self.new ≡
            record (state_of self.old) { peon = record { leader = leader; quorum = quorum; lease = None } } }
    {
        self.peon = Peon {
            leader,
            quorum,
            lease: Lease::none(),
        };
    }

    /// Replaces what is remembered as a leader. If the monitor leads, it enters the phase of the leader's stage.
    pub fn lead(&mut self, leader: Leader)
        ensures { let p = phase_as leader.stage self.old.phase in
            state_of self.new ≡ record (state_of self.old) {
              phase = p;
              timers = timers_in p (state_of self.old);
              leader = leader;
            } }
    {
        let phase = phase_as(leader.stage, self.phase);
        self.enter_phase(phase);
        self.leader = leader;
    }

    /// Whether a command waits.
    fn has_queue(&self) -> bool
        ensures { result ≡ not (is_empty self.now.clients.queue) }
    {
        !self.clients.queue.is_empty()
    }

    /// Arms and disarms timers, in order.
    pub fn set_timers(&mut self, armings: &[Arming])
        ensures { state_of self.new ≡
            record (state_of self.old) {
              timers = all_armed (not (is_empty self.old.clients.queue)) armings.now self.old.timers;
            } }
    {
        let waits = self.has_queue();
        self.timers.set_all(waits, armings);
    }
}
