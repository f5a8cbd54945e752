//! The history of a disk in memory. It exists only in proofs, and takes no memory.
ghost use Rattle.std.specs.Prelude.{◌≡◌, []};
ghost use Rattle.std.specs.Borrow.{ftrue};
ghost use Rattle.mon_disk.specs.Memory.{Lives, begins_with};

use std::marker::Model;

#[derive(Drop)]
pub(crate) struct History {
    ghost lives: { Lives },
}

impl Model for History {
    ghost also_owns = { λ _. ftrue };
}

/// What happens to a disk.
#[derive(Clone, Copy, Drop)]
pub(crate) enum Step<'a> {
    Write { at: u64, bytes: &'a [u8] },
    Sync,
    InjectedFault { call: u64, image: u8 },
    Settle,
}

impl History {
    ghost use Rattle.mon_disk.specs.MemoryDisk.{lives_after};

    pub(crate) fn new() -> History
        ensures { result.lives ≡ record { past = []; life = begins_with [] } }
    {
        History {}
    }

    pub(crate) fn then(&self, _step: &Step<'_>) -> History
        ensures { result.lives ≡ lives_after _step.now self.now.lives }
    {
        History {}
    }
}
