//! A store that is open on two disks without injected faults.

ghost use Rattle.std.specs.Prelude.{◌≡◌, false, true, IfOk, OnOk};
ghost use Rattle.mon_types.specs.declared.member.Member.{Member};
ghost use Rattle.mon_disk.specs.MemoryDisk.{state_of};
ghost use Rattle.mon_store.specs.Calls.{journal_after};
ghost use Rattle.mon_store.specs.Sound.{BeforeOrAfter, ThisOrNext};
ghost use Rattle.mon_store.specs.Whole.{IsSound, disk_a, disk_b, disk_of};
ghost use Rattle.mon_tx.specs.Map.{Store as Map, apply};
ghost use Rattle.quorum_model.specs.Files.{Files, is_created};
ghost use Rattle.mon_site.specs.Calm.{Rest, Runs, Starts, Changes, Renews, Applies};
ghost use Rattle.mon_site.specs.Faults.{OpensMap, Rests};
ghost use Rattle.mon_site.specs.Times.{Meanwhile, OpensEither, WhileOpening};

use mon_bytes::OutOfMemory;
use mon_disk::{MemoryDisk, NodeDisks};
use mon_store::{OpenRefused, OpenStop, Store, StoreStop};
use mon_tx::Transaction;
use mon_types::Member;
use std::alloc::Global;

/// Opens the store that is on two disks at rest. If they are empty, one is created on disk A.
pub fn start(
    alloc: Global,
    disks: NodeDisks<MemoryDisk>,
    member: Member,
) -> Result<Store<MemoryDisk>, OutOfMemory>
    requires { Rest member disks.a disks.b }
    ensures starts { (m : Map) (f : Files) → Rests member m f disks.a disks.b → Starts member m f result }

    // A crash at any point leaves two images on which the member opens the map from before.
    ensures any_time { (m : Map) (f : Files) → Rests member m f disks.a disks.b → IfOk result
        (λ store. WhileOpening disks.a disks.b (disk_a store) (disk_b store) (OpensMap member m)) }
{
    match Store::open(alloc, disks, member) {
        Ok(store) => Ok(store),
        Err(OpenRefused { why, disks }) => {
            drop(disks);
            match why {
                OpenStop::OutOfMemory => Err(OutOfMemory),
                _ => unreachable!(),
            }
        }
    }
}

/// Applies a transaction.
fn change(store: &mut Store<MemoryDisk>, tx: &Transaction) -> Result<(), StoreStop>
    requires sound { IsSound state_of store.old }
    ensures sound { IsSound state_of store.new }
    ensures changes { (member : Member) (m : Map) (f : Files) → Runs member m f store.old →
        Changes member m f tx.now store.new result }
    ensures any_time { store.old.broken ≡ false →
        Meanwhile (disk_a store.old) (disk_b store.old) (disk_a store.new) (disk_b store.new)
        (BeforeOrAfter store.old.side store.old.journal store.old.kv tx.now) }
    ensures side { store.new.side ≡ store.old.side }
    ensures other { store.new.other ≡ store.old.other }
    ensures journal { OnOk result (store.new.journal ≡ journal_after store.old.journal tx.now) }
{
    store.apply(tx)
}

/// Makes the checkpoint that is due, if one is.
fn renew(store: &mut Store<MemoryDisk>) -> Result<(), StoreStop>
    requires sound { IsSound state_of store.old }
    ensures sound { IsSound state_of store.new }
    ensures renews { (member : Member) (m : Map) (f : Files) → Runs member m f store.old →
        Renews member m f store.new result }
    ensures any_time { store.old.broken ≡ false →
        Meanwhile (disk_a store.old) (disk_b store.old) (disk_a store.new) (disk_b store.new)
        (ThisOrNext store.old.side store.old.journal store.old.kv) }
    ensures untouched { disk_of store.old.side store.new ≡ store.old.live }
{
    match store.restart_if_due() {
        Ok(_) => Ok(()),
        Err(stop) => Err(stop),
    }
}

/// Applies a transaction, and then makes the checkpoint that is due, if one is. Returns Full if the map would be too
/// large, TooLong if the transaction's encoding is too long, and OutOfMemory.
pub fn apply(store: &mut Store<MemoryDisk>, tx: &Transaction) -> Result<(), StoreStop>
    requires sound { IsSound state_of store.old }
    ensures sound { IsSound state_of store.new }
    ensures applies { (member : Member) (m : Map) (f : Files) → Runs member m f store.old →
        Applies member m f tx.now store.new result }

    // A crash at any point leaves two images on which the member opens the map from before the transaction or from
    // after it.
    ensures any_time { (member : Member) (m : Map) (f : Files) → Runs member m f store.old →
        Meanwhile (disk_a store.old) (disk_b store.old) (disk_a store.new) (disk_b store.new)
        (OpensEither member m (apply tx.now m)) }
{
    match change(store, tx) {
        Ok(()) => renew(store),
        Err(stop) => Err(stop),
    }
}

/// Closes a store. Its disks are at rest then, and one of them has a file.
pub fn close(store: Store<MemoryDisk>) -> NodeDisks<MemoryDisk>
    ensures a { result.a ≡ disk_a store }
    ensures b { result.b ≡ disk_b store }
    ensures rests { (member : Member) (m : Map) (f : Files) → Runs member m f store →
        Rests member m f result.a result.b }
    ensures created { (member : Member) (m : Map) (f : Files) → Runs member m f store → is_created f ≡ true }
{
    store.close()
}
