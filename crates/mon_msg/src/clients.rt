ghost use Rattle.std.specs.Prelude.{◌≡◌, IfOk};

use crate::plan::Origin;
use mon_bytes::{Command, OutOfMemory};
use mon_wire::{Items, Session, TryCopy};
use std::alloc::Global;

/// A command that waits at the leader until it is proposed.
#[derive(Drop)]
pub struct Waiting {
    pub command: Command,
    pub origin: Origin,
}

impl Waiting {
    /// An equal command of the same origin.
    pub fn copy(&self, alloc: Global) -> Result<Waiting, OutOfMemory>
        ensures { IfOk result (λ waiting. waiting ≡ self.now) }
    {
        Ok(Waiting {
            command: self.command.copy(alloc)?,
            origin: self.origin,
        })
    }
}

impl TryCopy for Waiting {
    fn try_copy(&self, alloc: Global) -> Result<Waiting, OutOfMemory> {
        self.copy(alloc)
    }
}

/// A session that waits at a peon, and the number under which the peon forwarded its command.
#[derive(Clone, Copy, PartialEq, Eq)]
pub struct Asked {
    pub seq: u64,
    pub session: Session,
}

impl TryCopy for Asked {
    fn try_copy(&self, _alloc: Global) -> Result<Asked, OutOfMemory> {
        Ok(*self)
    }
}

/// What a monitor remembers of its clients' commands.
#[derive(Drop)]
pub struct Clients {
    /// The commands that wait at the leader, the oldest first.
    pub queue: Items<Waiting>,
    /// The clients that wait at a peon, the oldest first.
    pub sessions: Items<Asked>,
    /// The number of the next command that a peon forwards, from 1 in each epoch.
    pub next_seq: u64,
    /// The number of the last command that the leader took from each peon in this epoch, 0 before.
    pub taken: [u64; 15],
}

impl Clients {
    /// An equal state.
    pub fn copy(&self, alloc: Global) -> Result<Clients, OutOfMemory>
        ensures { IfOk result (λ clients. clients ≡ self.now) }
    {
        Ok(Clients {
            queue: self.queue.copy(alloc)?,
            sessions: self.sessions.copy(alloc)?,
            next_seq: self.next_seq,
            taken: self.taken,
        })
    }
}
