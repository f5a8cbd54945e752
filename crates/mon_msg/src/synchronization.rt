ghost use Rattle.std.specs.Prelude.{◌≡◌, IfOk};

use mon_bytes::OutOfMemory;
use mon_types::{Rank, Version};
use mon_wire::{Cookie, Place};
use std::alloc::Global;

/// What a provider remembers of the monitors that synchronize from it.
#[derive(Clone, Copy, PartialEq, Eq)]
pub struct Provider {
    /// The last cookie that each rank got, if it got one.
    pub cookies: [Option<Cookie>; 15],
    /// The number of the next cookie, from 1.
    pub next_cookie: u64,
}

/// The stage of a synchronization, at the monitor that asked for it.
#[derive(Clone, Copy, PartialEq, Eq)]
pub enum SyncStage {
    /// It waits for its cookie.
    Cookie,
    /// It takes chunks.
    Chunks,
    /// It has a whole copy, and applies the versions from `next` to `end` once more.
    Replay { next: Version, end: Version },
}

/// What a monitor remembers while it synchronizes.
#[derive(Drop)]
pub struct Requester {
    /// The monitor from which it takes chunks.
    pub provider: Rank,
    /// Whether it takes a whole copy, or the versions that it lacks.
    pub full: bool,
    pub stage: SyncStage,
    pub cookie: Option<Cookie>,
    /// The provider's last version when a whole copy began.
    pub start: Version,
    /// The place after which the next chunk begins.
    pub place: Place,
}

impl Requester {
    /// An equal state.
    pub fn copy(&self, alloc: Global) -> Result<Requester, OutOfMemory>
        ensures { IfOk result (λ requester. requester ≡ self.now) }
    {
        Ok(Requester {
            provider: self.provider,
            full: self.full,
            stage: self.stage,
            cookie: self.cookie,
            start: self.start,
            place: self.place.copy(alloc)?,
        })
    }
}
