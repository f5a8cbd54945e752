ghost use Rattle.std.specs.Prelude.{◌≡◌, ◌≤◌, ◌<◌, ◌+◌, ◌^◌, [], length, Some, None, OnOk, OnErr};
ghost use Rattle.std.specs.Result.{result_err};
ghost use Rattle.mon_disk.specs.Images.{images, Only, LeavesOnly};
ghost use Rattle.mon_disk.specs.Memory.{begins_with, seen_of};
ghost use Rattle.mon_disk.specs.MemoryDisk.{content_of, state_of, after_call, IsFor, injected_by, settle_of};
ghost use Rattle.mon_disk.specs.Laws.{as_read, settles};

use crate::disk::{Disk, DiskCall};
use crate::faults::raised;
use crate::history::{History, Step};
use crate::holding::Holding;
use mon_bytes::OutOfMemory;
use mon_types::Stop;
use std::alloc::Global;
use std::marker::Model;

/// A disk in memory, empty at first. Contracts see what it holds, what a crash may leave and which calls were made. A
/// fault can be injected: then each write and sync from a given one on fails, until the disk settles to an image that a
/// crash may leave. Its memory holds what a read returns, the writes since the last sync and the first write that
/// failed; the rest of its history exists only in proofs.
#[derive(Drop)]
pub struct MemoryDisk {
    alloc: Global,
    held: Holding,
    history: History,
    known: u64,
    faults: u64,
    refusals: u64,
}

impl Model for MemoryDisk {
    ghost use Rattle.std.specs.Prelude.{◌≤◌, length};
    ghost use Rattle.mon_disk.specs.Holding.{Holds};
    ghost use Rattle.mon_disk.specs.MemoryDisk.{MemoryState};

    ghost Value = { MemoryState };

    ghost view = { λ d. record {
      past = d.history.lives.past;
      life = d.history.lives.life;
      known = d.known;
      faults = d.faults;
      refusals = d.refusals;
    } };

    ghost invariant = { λ d. Holds d.held d.history.lives.life × (d.known ≤ length d.held.bytes) };
}

impl MemoryDisk {
    /// An empty disk, of which no call was made yet. It takes no memory.
    pub fn new(alloc: Global) -> MemoryDisk
        ensures { result ≡ record { past = []; life = begins_with []; known = 0; faults = 0; refusals = 0 } }
    {
        MemoryDisk {
            alloc,
            held: Holding::of(alloc, Vec::new(alloc)),
            history: History::new(),
            known: 0,
            faults: 0,
            refusals: 0,
        }
    }

    /// Makes the `call`-th write or sync from now and each later one return `Failed`. `image` is what the disk then
    /// keeps of each unsynced write: 0 nothing, 1 all, 2 the first half, rounded down, and 3 a byte 0xA5 for each of
    /// its bytes.
    pub fn upset(&mut self, call: u64, image: u8)
        requires none { self.old.life.upset ≡ None }
        requires first { 1 ≤ call }
        requires image { image ≤ 3 }
        ensures state { self.new ≡ injected_by call image self.old }
        ensures seen { seen_of self.new.life ≡ seen_of self.old.life }
        ensures any_time { let old = content_of self.old.past self.old.life in
            LeavesOnly old (content_of self.new.past self.new.life) (images old) }
    {
        self.held.upset(call, image);
        self.history = self.history.then(&Step::InjectedFault { call, image });
    }

    /// Turns the disk into what a crash leaves: the image of its injected fault, which ends, or what a read gives if
    /// there is none. After an `Err` nothing changed.
    pub fn settle(&mut self) -> Result<(), OutOfMemory>
        ensures ok { OnOk result (self.new ≡ settle_of self.old) }
        ensures err { OnErr result (self.new ≡ self.old) }
        ensures durable { OnOk result (Only (content_of self.new.past self.new.life)) }
        ensures any_time { let old = content_of self.old.past self.old.life in
            LeavesOnly old (content_of self.new.past self.new.life) (images old) }
    {
        let file = self.held.settled(self.alloc)?;
        self.held = Holding::of(self.alloc, file);
        self.history = self.history.then(&Step::Settle);
        self.known = 0;
        Ok(())
    }

    /// Counts a failed allocation.
    fn lack(&mut self) -> Stop
        ensures stop { result ≡ Stop.OutOfMemory }
        ensures state { self.new ≡ after_call DiskCall.Sync (Some Stop.OutOfMemory) self.old }
    {
        self.refusals = raised(self.refusals);
        Stop::OutOfMemory
    }

    fn write(&mut self, at: u64, bytes: &[u8]) -> Result<(), Stop>
        requires known { at ≤ self.old.known }
        ensures end { OnOk result (at + length bytes.now < 2 ^ 64) }
        ensures state { self.new ≡ after_call (DiskCall.Write at bytes.now) (result_err result) self.old }
        ensures right { IsFor (result_err result) self.old.life }
    {
        if self.held.fails() {
            if self.held.lose(self.alloc, at, bytes).is_err() {
                return Err(self.lack());
            }
            self.history = self.history.then(&Step::Write { at, bytes });
            self.faults = raised(self.faults);
            return Err(Stop::Failed);
        }
        let Ok(end) = self.held.write(self.alloc, at, bytes) else {
            return Err(self.lack());
        };
        self.history = self.history.then(&Step::Write { at, bytes });
        self.known = self.known.max(end);
        Ok(())
    }

    fn keep(&mut self) -> Result<(), Stop>
        ensures state { self.new ≡ after_call DiskCall.Sync (result_err result) self.old }
        ensures right { IsFor (result_err result) self.old.life }
    {
        if self.held.fails() {
            self.held.count();
            self.history = self.history.then(&Step::Sync);
            self.faults = raised(self.faults);
            return Err(Stop::Failed);
        }
        self.held.sync();
        self.history = self.history.then(&Step::Sync);
        Ok(())
    }
}

impl Disk for MemoryDisk {
    ghost state = { state_of };

    ghost as_read = { as_read };

    ghost settled = { settles };

    fn len(&mut self) -> Result<u64, Stop> {
        let length = self.held.as_slice().len() as u64;
        self.known = length;
        Ok(length)
    }

    fn read(&mut self, at: u64, into: &mut [u8]) -> Result<(), Stop> {
        let from = at as usize;
        into.copy_from_slice(&self.held.as_slice()[from..from + into.len()]);
        Ok(())
    }

    fn write_at(&mut self, at: u64, bytes: &[u8]) -> Result<(), Stop> {
        self.write(at, bytes)
    }

    fn sync(&mut self) -> Result<(), Stop> {
        self.keep()
    }
}
