use mon_bytes::OutOfMemory;
use mon_disk::NodeDisks;
use mon_journal::JournalStop;
use mon_tx::EncodeRefused;
use mon_types::{Member, Side};
use thiserror::Error;

/// Why a store refused a change.
#[derive(Clone, Copy, Debug, PartialEq, Eq, Error)]
pub enum StoreStop {
    /// An earlier call broke the store. It has to be closed, and opened again.
    #[error("the store is broken")]
    Broken,
    /// The transaction's text would have `len` bytes, above 4,194,304. Nothing changed.
    #[error("a transaction of {len} bytes")]
    TooLong { len: u64 },
    /// The map would have the size `would_be`, above 268,435,456. The disks are unchanged, and the store is broken.
    #[error("the map would count with {would_be}")]
    Full { would_be: u64 },
    /// A disk failed, and the store is broken.
    #[error("a disk failed")]
    DiskFault,
    /// Memory ran out, and the store is broken.
    #[error("out of memory")]
    OutOfMemory,
}

impl From<OutOfMemory> for StoreStop {
    ghost use Rattle.std.specs.Prelude.{◌≡◌};
    ghost use Rattle.mon_store.specs.declared.stop.StoreStop.TheVariants.{OutOfMemory as no_memory};

    ghost from_gives = { λ _ e. e ≡ no_memory };

    fn from(_e: OutOfMemory) -> StoreStop {
        StoreStop::OutOfMemory
    }
}

impl From<JournalStop> for StoreStop {
    ghost use Rattle.std.specs.Prelude.{◌≡◌};
    ghost use Rattle.mon_store.specs.Calls.{stop_of};

    ghost from_gives = { λ s e. e ≡ stop_of s };

    fn from(s: JournalStop) -> StoreStop {
        match s {
            JournalStop::OutOfMemory => StoreStop::OutOfMemory,
            // The journal's calls that write never return NotAStore.
            JournalStop::DiskFault | JournalStop::NotAStore { .. } => StoreStop::DiskFault,
        }
    }
}

impl From<EncodeRefused> for StoreStop {
    ghost use Rattle.std.specs.Prelude.{◌≡◌};
    ghost use Rattle.mon_store.specs.Calls.{encoding_stop};

    ghost from_gives = { λ s e. e ≡ encoding_stop s };

    fn from(s: EncodeRefused) -> StoreStop {
        match s {
            EncodeRefused::TooLong { len } => StoreStop::TooLong { len },
            EncodeRefused::OutOfMemory => StoreStop::OutOfMemory,
        }
    }
}

/// Why no store of this member was opened on two disks.
#[derive(Clone, Copy, Debug, PartialEq, Eq, Error)]
pub enum OpenStop {
    /// A disk failed.
    #[error("a disk failed")]
    DiskFault,
    /// The field or payload that begins at offset `at` of `disk` is cut short or invalid. Two open files with the same
    /// generation are reported as disk B at 0. Two closed files on which no store may be created are reported as disk A
    /// at 0 if disk A has more than 26 bytes, and otherwise as disk B at 0.
    #[error("disk {disk:?} is no store, at {at}")]
    NotAStore { disk: Side, at: u64 },
    /// The store is another member's.
    #[error("a store of {kept:?}, asked for as {asked:?}")]
    Stranger { kept: Member, asked: Member },
    #[error("out of memory")]
    OutOfMemory,
}

/// Why an opening was refused, with the two disks that it was given.
#[derive(Drop)]
pub struct OpenRefused<D> {
    pub why: OpenStop,
    pub disks: NodeDisks<D>,
}
