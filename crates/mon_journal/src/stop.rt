ghost use Rattle.std.specs.Prelude.{◌≡◌};
ghost use Rattle.mon_journal.specs.Steps.{stopped};
ghost use Rattle.mon_journal.specs.declared.stop.JournalStop.TheVariants.{NotAStore, OutOfMemory as no_memory};

use mon_bytes::{OutOfMemory, Short};
use mon_types::Stop;
use thiserror::Error;

/// Why a call on a journal's disk failed. After `DiskFault` and `OutOfMemory` the disk is one of the images that the
/// call allows, and the journal must not be used again.
#[derive(Clone, Copy, Debug, PartialEq, Eq, Error)]
pub enum JournalStop {
    /// The disk failed.
    #[error("the disk failed")]
    DiskFault,
    /// The file is open and the field that begins here isn't there whole, or isn't of its form.
    #[error("not a store, at {at}")]
    NotAStore { at: u64 },
    #[error("out of memory")]
    OutOfMemory,
}

impl From<Short> for JournalStop {
    ghost from_gives = { λ s e. e ≡ NotAStore s.at };

    fn from(s: Short) -> JournalStop {
        JournalStop::NotAStore { at: s.at as u64 }
    }
}

impl From<OutOfMemory> for JournalStop {
    ghost from_gives = { λ _ e. e ≡ no_memory };

    fn from(_e: OutOfMemory) -> JournalStop {
        JournalStop::OutOfMemory
    }
}

impl From<Stop> for JournalStop {
    ghost from_gives = { λ s e. e ≡ stopped s };

    fn from(s: Stop) -> JournalStop {
        match s {
            Stop::Failed => JournalStop::DiskFault,
            Stop::OutOfMemory => JournalStop::OutOfMemory,
        }
    }
}
