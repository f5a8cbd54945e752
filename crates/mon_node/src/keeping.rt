//! Keeps the transaction of a core's reaction in the store.

ghost use Rattle.std.specs.Prelude.{◌≡◌, ◌≤◌, ◌<◌, ◌⊎◌, false, length, OnOk, IfErr};
ghost use Rattle.mon_kv.specs.Readers.{size_of};
ghost use Rattle.mon_store.specs.Checkpoint.{most_size};
ghost use Rattle.mon_store.specs.Whole.{IsSound, disk_a, disk_b};
ghost use Rattle.mon_tx.specs.Map.{apply};
ghost use Rattle.mon_tx.specs.Text.{text, most};
ghost use Rattle.mon_store.specs.Times.{Meanwhile};
ghost use Rattle.mon_node.specs.Keeping.{Keeps, changed, renewed, kept, IsOfDisk, DisksCount};
ghost use Rattle.mon_node.specs.Lasting.{BothVisible, IsWithin, On, Pass, recorded};
ghost use Rattle.mon_node.specs.Nodes.{disks_of, store_view_of};

use crate::end::NodeEnd;
use mon_disk::Disk;
use mon_store::{Store, StoreStop};
use mon_tx::Transaction;

/// Makes a transaction's changes.
fn change<D: Disk>(store: &mut Store<D>, tx: &Transaction) -> Result<(), NodeEnd>
    requires unbroken { store.old.broken ≡ false }
    requires sound { IsSound D.state store.old }
    requires short { length (text tx.now) ≤ most }
    ensures sound { IsSound D.state store.new }
    ensures unbroken { OnOk result (store.new.broken ≡ false) }
    ensures keeps { Keeps tx.now store.old.kv store.new.kv result }
    ensures stands { OnOk result (store_view_of store.new ≡ changed tx.now (store_view_of store.old)) }
    ensures counts { DisksCount result (D.state (disk_a store.old)).faults (D.state (disk_b store.old)).faults
        (D.state (disk_a store.new)).faults (D.state (disk_b store.new)).faults }
    ensures large { most_size < size_of (apply tx.now store.old.kv)
        → (disk_a store.new ≡ disk_a store.old) × (disk_b store.new ≡ disk_b store.old) }
    ensures visible { BothVisible (disks_of D.state store.old) → BothVisible (disks_of D.state store.new) }

    // A crash at any time leaves the store as it was, or after the record.
    ensures meanwhile { let old = disks_of D.state store.old in let new = disks_of D.state store.new in
        BothVisible old → Meanwhile old.a old.b new.a new.b (On
        (λ s. (s ≡ store_view_of store.old) ⊎ (s ≡ recorded tx.now (store_view_of store.old)))) }
{
    match store.apply(tx) {
        Ok(()) => Ok(()),
        Err(StoreStop::Full { would_be }) => Err(NodeEnd::Full { would_be }),
        Err(StoreStop::DiskFault) => Err(NodeEnd::DiskFault),
        Err(StoreStop::OutOfMemory) => Err(NodeEnd::OutOfMemory),
        Err(StoreStop::Broken | StoreStop::TooLong { .. }) => unreachable!(),
    }
}

/// Makes the checkpoint that is due, if one is.
fn renew<D: Disk>(store: &mut Store<D>) -> Result<(), NodeEnd>
    requires unbroken { store.old.broken ≡ false }
    requires sound { IsSound D.state store.old }
    ensures sound { IsSound D.state store.new }
    ensures unbroken { OnOk result (store.new.broken ≡ false) }
    ensures map { store.new.kv ≡ store.old.kv }
    ensures stands { OnOk result (store_view_of store.new ≡ renewed (store_view_of store.old)) }
    ensures stop { IfErr result IsOfDisk }
    ensures counts { DisksCount result (D.state (disk_a store.old)).faults (D.state (disk_b store.old)).faults
        (D.state (disk_a store.new)).faults (D.state (disk_b store.new)).faults }
    ensures visible { BothVisible (disks_of D.state store.old) → BothVisible (disks_of D.state store.new) }

    // A crash at any time leaves the store as it was, or after the checkpoint that is due.
    ensures meanwhile { let old = disks_of D.state store.old in let new = disks_of D.state store.new in
        Meanwhile old.a old.b new.a new.b (On (λ s. (s ≡ store_view_of store.old)
        ⊎ (s ≡ renewed (store_view_of store.old)))) }
{
    match store.restart_if_due() {
        Ok(_) => Ok(()),
        Err(StoreStop::DiskFault) => Err(NodeEnd::DiskFault),
        Err(StoreStop::OutOfMemory) => Err(NodeEnd::OutOfMemory),
        Err(_) => unreachable!(),
    }
}

/// Makes a transaction's changes, and then the checkpoint that is due, if one is.
pub(crate) fn keep<D: Disk>(store: &mut Store<D>, tx: &Transaction) -> Result<(), NodeEnd>
    requires unbroken { store.old.broken ≡ false }
    requires sound { IsSound D.state store.old }
    requires short { length (text tx.now) ≤ most }
    ensures sound { IsSound D.state store.new }
    ensures unbroken { OnOk result (store.new.broken ≡ false) }
    ensures keeps { Keeps tx.now store.old.kv store.new.kv result }
    ensures stands { OnOk result (store_view_of store.new ≡ kept tx.now (store_view_of store.old)) }
    ensures counts { DisksCount result (D.state (disk_a store.old)).faults (D.state (disk_b store.old)).faults
        (D.state (disk_a store.new)).faults (D.state (disk_b store.new)).faults }
    ensures large { most_size < size_of (apply tx.now store.old.kv)
        → (disk_a store.new ≡ disk_a store.old) × (disk_b store.new ≡ disk_b store.old) }
    ensures passes { BothVisible (disks_of D.state store.old)
        → Pass (IsWithin tx.now (store_view_of store.old)) (disks_of D.state store.old) (disks_of D.state store.new) }
{
    change(store, tx)?;
    renew(store)?;
    Ok(())
}
