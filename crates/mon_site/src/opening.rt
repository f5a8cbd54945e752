//! Opening two disks, one of which has an injected fault.

ghost use Rattle.mon_tx.specs.Map.{Store as Map};
ghost use Rattle.quorum_model.specs.Files.{Files};
ghost use Rattle.mon_site.specs.Begins.{Opens, Begins};
ghost use Rattle.mon_site.specs.Faults.{IsReady};

use crate::injected::InjectedFault;
use mon_bytes::OutOfMemory;
use mon_disk::{MemoryDisk, NodeDisks};
use mon_store::{OpenRefused, OpenStop, Store};
use mon_types::Member;
use std::alloc::Global;

/// How an opening of two disks ended.
#[derive(Drop)]
pub enum Begun {
    /// The store is open. The disk with the injected fault fails later, or not at all.
    Open(Store<MemoryDisk>),
    /// A call of the disk with the injected fault failed.
    Failed(NodeDisks<MemoryDisk>),
}

/// Opens the store on two disks, one of which has an injected fault. If they are empty, a store is created on disk A.
/// `_injected` is the fault, for the contract alone.
pub fn open(
    alloc: Global,
    disks: NodeDisks<MemoryDisk>,
    member: Member,
    _injected: InjectedFault,
) -> Result<Begun, OutOfMemory>
    requires { Opens member disks.a disks.b }
    ensures { (m : Map) (f : Files) → IsReady _injected.disk _injected.call _injected.image member m f disks.a disks.b →
        Begins _injected member m f result }
{
    match Store::open(alloc, disks, member) {
        Ok(store) => Ok(Begun::Open(store)),
        Err(OpenRefused { why, disks }) => match why {
            OpenStop::DiskFault => Ok(Begun::Failed(disks)),
            OpenStop::OutOfMemory => {
                drop(disks);
                Err(OutOfMemory)
            }
            OpenStop::NotAStore { .. } | OpenStop::Stranger { .. } => unreachable!(),
        },
    }
}
