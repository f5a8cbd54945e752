//! Applying a transaction on two disks, one of which has an injected fault.

ghost use Rattle.std.specs.Prelude.{◌≡◌, ◌==◌, ◌&&◌, nat_le, ℕ, Bool, false, Ok};
ghost use Rattle.mon_types.specs.declared.member.Member.{Member};
ghost use Rattle.mon_disk.specs.MemoryDisk.{state_of};
ghost use Rattle.mon_store.specs.Whole.{IsSound, disk_a, disk_b};
ghost use Rattle.mon_tx.specs.Map.{Store as Map};
ghost use Rattle.quorum_model.specs.declared.calls.TheConstants.{APPEND};
ghost use Rattle.quorum_model.specs.Files.{Files};
ghost use Rattle.quorum_model.specs.InjectedFaults.{last_write};
ghost use Rattle.mon_site.specs.Ending.{IsKept, Keeps, Checkpoints, Writes, Finishes};
ghost use Rattle.mon_site.specs.Faults.{HasFault};

use crate::injected::InjectedFault;
use mon_disk::{MemoryDisk, NodeDisks};
use mon_store::{Store, StoreStop};
use mon_tx::Transaction;
use quorum_model::APPEND;

/// What became of a transaction.
enum Kept {
    /// No call for it failed.
    Whole,
    /// A call for it failed. `kept` is whether its record survives.
    Cut { kept: bool },
}

/// The disks at the end of an event with an injected fault. They aren't settled yet.
#[derive(Drop)]
pub struct Ended {
    pub disks: NodeDisks<MemoryDisk>,
    /// Whether the event's transaction survives.
    pub kept: bool,
}

/// Whether the failing disk keeps the open gate: the append's last write was begun, and image 1 keeps it.
fn opens_gate(injected: InjectedFault) -> bool
    ensures { result ≡ (nat_le (last_write APPEND) injected.call && injected.image == 1) }
{
    injected.call >= APPEND - 1 && injected.image == 1
}

/// Applies a transaction. If the live disk fails in it, the result says whether the record survives: an append writes
/// the record first, and then its gate.
fn keep(
    store: &mut Store<MemoryDisk>,
    tx: &Transaction,
    injected: InjectedFault,
) -> Result<Kept, StoreStop>
    requires unbroken { store.old.broken ≡ false }
    requires sound { IsSound state_of store.old }
    ensures sound { IsSound state_of store.new }
    ensures unbroken { result ≡ Ok Kept.Whole → store.new.broken ≡ false }
    ensures keeps { (member : Member) (m : Map) (f : Files) →
        HasFault injected.disk injected.call injected.image member m f store.old →
        Keeps injected member m f tx.now store.new result }
{
    match store.apply(tx) {
        Ok(()) => Ok(Kept::Whole),
        Err(StoreStop::DiskFault) => Ok(Kept::Cut {
            kept: opens_gate(injected),
        }),
        Err(stop) => Err(stop),
    }
}

/// Makes the checkpoint that is due, if one is. A fault of the other disk cuts it short, and is no error.
fn checkpoint(store: &mut Store<MemoryDisk>) -> Result<(), StoreStop>
    requires unbroken { store.old.broken ≡ false }
    requires sound { IsSound state_of store.old }
    ensures { (live : Bool) (call image : ℕ) (member : Member) (m : Map) (f : Files) →
        IsKept live call image member m f store.old → Checkpoints live call image member m f store.new result }
{
    match store.restart_if_due() {
        Ok(_) => Ok(()),
        Err(StoreStop::DiskFault) => Ok(()),
        Err(stop) => Err(stop),
    }
}

/// Applies the transaction and the due checkpoint until the injected fault. Returns whether the transaction survives.
fn apply_until_fault(
    store: &mut Store<MemoryDisk>,
    tx: &Transaction,
    injected: InjectedFault,
) -> Result<bool, StoreStop>
    requires unbroken { store.old.broken ≡ false }
    requires sound { IsSound state_of store.old }
    ensures { (member : Member) (m : Map) (f : Files) →
        HasFault injected.disk injected.call injected.image member m f store.old →
        Writes injected member m f tx.now (disk_a store.new) (disk_b store.new) result }
{
    match keep(store, tx, injected) {
        Ok(Kept::Whole) => match checkpoint(store) {
            Ok(()) => Ok(true),
            Err(stop) => Err(stop),
        },
        Ok(Kept::Cut { kept }) => Ok(kept),
        Err(stop) => Err(stop),
    }
}

/// Applies a transaction, makes the checkpoint that is due, if one is, and closes the store. The injected fault cuts
/// these short: the disk fails at its call number `injected.call`, counted after the opening. Returns Full if the map
/// would be too large, TooLong if the transaction's encoding is too long, and OutOfMemory.
pub fn finish(
    mut store: Store<MemoryDisk>,
    tx: &Transaction,
    injected: InjectedFault,
) -> Result<Ended, StoreStop>
    requires unbroken { store.broken ≡ false }
    requires sound { IsSound state_of store }
    ensures { (member : Member) (m : Map) (f : Files)
        → HasFault injected.disk injected.call injected.image member m f store →
        Finishes injected member m f tx.now result }
{
    match apply_until_fault(&mut store, tx, injected) {
        Ok(kept) => Ok(Ended {
            disks: store.close(),
            kept,
        }),
        Err(stop) => {
            drop(store);
            Err(stop)
        }
    }
}
