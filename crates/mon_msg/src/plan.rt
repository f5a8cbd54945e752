use mon_bytes::OutOfMemory;
use mon_tx::Transaction;
use mon_types::{Moment, Rank, RankSet, Which};
use mon_wire::{Items, Message, Reply, Session, Timer};
use thiserror::Error;

/// What a monitor sends once its transaction is durable.
#[derive(Drop)]
pub enum Sent {
    /// A message to another monitor.
    Message { to: Rank, message: Message },
    /// An answer to a client.
    Reply { to: Session, reply: Reply },
}

/// What is done with a timer.
#[derive(Clone, Copy, PartialEq, Eq)]
pub enum Arming {
    /// It is set for the time `end`, in place of an earlier setting. There are two exceptions: `Propose` isn't set if
    /// no command waits, and a `LeaseAck` that is armed keeps its time.
    Arm { kind: Timer, end: Moment },
    /// It is disarmed.
    Disarm { kind: Timer },
}

/// Who waits for a command's answer.
#[derive(Clone, Copy, PartialEq, Eq)]
pub enum Origin {
    /// A client of this monitor.
    Session(Session),
    /// The peon `rank`, which forwarded the command under the number `seq`.
    Forwarded { rank: Rank, seq: u64 },
}

/// What a monitor does after a plan, in the same event.
#[derive(Drop)]
pub enum Next {
    /// Nothing.
    Stay,
    /// It bootstraps: it probes the others.
    Bootstrap,
    /// It calls an election.
    Elect,
    /// It has joined the election of an epoch that another monitor called.
    Electing,
    /// It has won, and leads this quorum.
    Win { quorum: RankSet },
    /// It follows that leader in this quorum, and has no lease.
    Follow { leader: Rank, quorum: RankSet },
    /// It takes a whole copy from that monitor.
    FullSync { from: Rank },
    /// It takes the versions that it lacks from that monitor.
    RecentSync { from: Rank },
    /// It begins this value, and answers `origin` once it is committed.
    Begin { value: Transaction, origin: Origin },
}

/// What an input makes a role do.
#[derive(Drop)]
pub struct Plan<S: Drop> {
    /// What is written to the store.
    pub tx: Transaction,
    /// What is sent once that is durable.
    pub out: Items<Sent>,
    /// What is done with timers, in order.
    pub timers: Items<Arming>,
    /// What the role remembers from then on.
    pub state: S,
    /// What the monitor does next.
    pub next: Next,
}

/// Why a role has no plan.
#[derive(Clone, Copy, Debug, PartialEq, Eq, Error)]
pub enum RoleStop {
    #[error("out of memory")]
    OutOfMemory,
    /// A number of this kind would be above 2^62.
    #[error("a number is spent")]
    Spent { which: Which },
}

impl From<OutOfMemory> for RoleStop {
    ghost use Rattle.std.specs.Prelude.{◌≡◌};
    ghost use Rattle.mon_msg.specs.declared.plan.RoleStop.TheVariants.{OutOfMemory as no_memory};

    ghost from_gives = { λ _ e. e ≡ no_memory };

    fn from(_e: OutOfMemory) -> RoleStop {
        RoleStop::OutOfMemory
    }
}
