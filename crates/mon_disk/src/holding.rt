//! The contents of a disk in memory: what a read returns, and the writes that its images need beside that.

ghost use Rattle.std.specs.Prelude.{◌≡◌, ◌≤◌, ◌+◌, length, IfOk, OnOk, OnErr};
ghost use Rattle.mon_disk.specs.Holding.{holds_only, is_over, counted, written_on, synced_on, lost_on, failed_on, injected_on, settled_from};

use crate::undoing::{keep_parts, undo_all};
use crate::unsynced::{Unsynced, bytes_at, keep_part, overwrite};
use mon_bytes::{Bytes, OutOfMemory};
use std::alloc::Global;
use std::marker::Model;

/// How many writes and syncs are done before one fails, and the image that the disk then settles to.
#[derive(Clone, Copy)]
pub(crate) struct Countdown {
    pub(crate) left: u64,
    pub(crate) image: u8,
}

#[derive(Drop)]
pub(crate) struct Holding {
    bytes: Vec<u8>,
    unsynced: Vec<Unsynced>,
    lost: Option<Unsynced>,
    upset: Option<Countdown>,
}

impl Model for Holding {
    ghost use Rattle.mon_disk.specs.Holding.{HoldingState};

    ghost Value = { HoldingState };

    ghost view = { λ c. record { bytes = c.bytes.items; unsynced = c.unsynced.items; lost = c.lost; upset = c.upset } };
}

impl Holding {
    pub(crate) fn of(alloc: Global, bytes: Vec<u8>) -> Holding
        ensures { result ≡ holds_only bytes.items }
    {
        Holding {
            bytes,
            unsynced: Vec::new(alloc),
            lost: None,
            upset: None,
        }
    }

    pub(crate) fn as_slice(&self) -> &[u8]
        ensures { result.now ≡ self.now.bytes }
    {
        self.bytes.as_slice()
    }

    /// Whether the next write or sync fails.
    pub(crate) fn fails(&self) -> bool
        ensures { result ≡ is_over self.now.upset }
    {
        match self.upset {
            Some(upset) => upset.left == 0,
            None => false,
        }
    }

    /// Makes the `call`-th write or sync from now the first that fails.
    pub(crate) fn upset(&mut self, call: u64, image: u8)
        requires { 1 ≤ call }
        ensures { self.new ≡ injected_on call image self.old }
    {
        self.upset = Some(Countdown {
            left: call - 1,
            image,
        });
    }

    /// Counts a write or sync, done or failed, in the countdown to the fault.
    pub(crate) fn count(&mut self)
        ensures { self.new ≡ failed_on self.old }
    {
        if let Some(upset) = self.upset {
            self.upset = Some(Countdown {
                left: upset.left.saturating_sub(1),
                image: upset.image,
            });
        }
    }

    /// Makes a write that doesn't fail, and returns its end. After an `Err` nothing changed.
    pub(crate) fn write(&mut self, alloc: Global, at: u64, bytes: &[u8]) -> Result<u64, OutOfMemory>
        requires { at ≤ length self.old.bytes }
        ensures end { IfOk result (λ end. end ≡ at + length bytes.now) }
        ensures ok { OnOk result (self.new ≡ written_on at bytes.now self.old) }
        ensures err { OnErr result (self.new ≡ self.old) }
    {
        let under = bytes_at(self.bytes.as_slice(), at as usize, bytes.len());
        let write = Unsynced {
            at,
            under: Bytes::new(Vec::from_slice(alloc, under)?),
            bytes: Bytes::new(Vec::from_slice(alloc, bytes)?),
        };
        let end = at + bytes.len() as u64;
        self.unsynced.push(write)?;
        if overwrite(&mut self.bytes, at as usize, bytes).is_err() {
            let _write = self.unsynced.pop();
            return Err(OutOfMemory);
        }
        self.count();
        Ok(end)
    }

    /// Makes a write that fails, and keeps it if it is the first of those. After an `Err` nothing changed.
    pub(crate) fn lose(&mut self, alloc: Global, at: u64, bytes: &[u8]) -> Result<(), OutOfMemory>
        ensures ok { OnOk result (self.new ≡ lost_on at bytes.now self.old) }
        ensures err { OnErr result (self.new ≡ self.old) }
    {
        if self.lost.is_none() {
            self.lost = Some(Unsynced {
                at,
                bytes: Bytes::new(Vec::from_slice(alloc, bytes)?),
                under: Bytes::new(Vec::new(alloc)),
            });
        }
        self.count();
        Ok(())
    }

    /// Makes a sync that doesn't fail.
    pub(crate) fn sync(&mut self)
        ensures { self.new ≡ synced_on self.old }
    {
        self.unsynced.clear();
        self.count();
    }

    /// What the disk settles to.
    pub(crate) fn settled(&self, alloc: Global) -> Result<Vec<u8>, OutOfMemory>
        ensures { IfOk result (λ file. file.items ≡ settled_from self.now) }
    {
        let mut file = Vec::from_slice(alloc, self.bytes.as_slice())?;
        let Some(upset) = self.upset else {
            return Ok(file);
        };
        undo_all(&mut file, self.unsynced.as_slice())?;
        keep_parts(alloc, &mut file, upset.image, self.unsynced.as_slice())?;
        if let Some(lost) = &self.lost {
            keep_part(
                alloc,
                &mut file,
                upset.image,
                lost.at,
                lost.bytes.as_slice(),
            )?;
        }
        Ok(file)
    }
}
