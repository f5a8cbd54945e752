//! The steps of an import.

ghost use Rattle.std.specs.Prelude.{◌≡◌, ◌≤◌, ◌==◌, false, [], ◌∷◌, is_some, length, None, Some, Err, IfOk, OnOk, IfSome};
ghost use Rattle.std.specs.Result.{result_err};
ghost use Rattle.mon_types.specs.declared.names.Side.TheVariants.{A, B};
ghost use Rattle.mon_types.specs.declared.names.Stop.{Stop};
ghost use Rattle.mon_disk.specs.Images.{images, LeavesOnly, Only};
ghost use Rattle.mon_disk.specs.Calls.{Called};
ghost use Rattle.mon_disk.specs.declared.disk.DiskCall.TheVariants.{Sync};
ghost use Rattle.mon_kv.specs.Readers.{size_of, most_size};
ghost use Rattle.mon_journal.specs.Written.{owner_of};
ghost use Rattle.mon_journal.specs.declared.journal.Journal.{Journal};
ghost use Rattle.mon_journal.specs.Steps.{Keeps, create_calls, made_more, stop_in, IsOutside};
ghost use Rattle.mon_store.specs.Checkpoint.{checkpoint_text, HasCheckpoint};
ghost use Rattle.mon_store.specs.Times.{EachPair};
ghost use Rattle.mon_store.specs.Opening.{BothCount};
ghost use Rattle.mon_store.specs.Sound.{Begins};
ghost use Rattle.store_tool.specs.Import.{filled, imported, Whole, BothKeep, KeepThenMake, WhileImporting, IfWritten, making_calls, MakesObserved};

use mon_disk::Disk;
use mon_journal::{JournalStop, restart};
use mon_kv::Kv;
use mon_store::checkpoint_bytes;
use mon_types::{Member, Side, Stop};
use std::alloc::Global;

fn is_empty<D: Disk>(disk: &mut D) -> Result<bool, Stop>
    ensures call { Called [] (images (D.state disk.old).content) (result_err result) (D.state disk.old)
        (D.state disk.new) }
    ensures length { IfOk result (λ empty. IfSome (D.state disk.old).content.seen
        (λ file. empty ≡ (length file == 0))) }
    ensures seen { (D.state disk.new).content.seen ≡ (D.state disk.old).content.seen }
{
    let len = disk.len()?;
    Ok(len == 0)
}

/// The first of two disks that isn't empty.
pub(crate) fn filled<D: Disk>(a: &mut D, b: &mut D) -> Result<Option<Side>, Stop>
    ensures answer { IfOk result (λ side. IfSome (D.state a.old).content.seen
        (λ x. IfSome (D.state b.old).content.seen (λ y. side ≡ filled x y))) }
    ensures empty_a { IfOk result (λ side. side ≡ None → IfSome (D.state a.old).content.seen (λ x. x ≡ [])) }
    ensures empty_b { IfOk result (λ side. side ≡ None → IfSome (D.state b.old).content.seen (λ y. y ≡ [])) }
    ensures observed_a { (D.state a.new).observed ≡ (D.state a.old).observed }
    ensures seen_a { (D.state a.new).content.seen ≡ (D.state a.old).content.seen }
    ensures seen_b { (D.state b.new).content.seen ≡ (D.state b.old).content.seen }
    ensures any_time { BothKeep (D.state a.old).content (D.state b.old).content (D.state a.new).content
        (D.state b.new).content }
    ensures calls { MakesObserved [] (D.state a.old).observed (D.state b.old).observed (D.state a.new).observed
        (D.state b.new).observed
        (result_err result) }
    ensures counts { BothCount (result_err result) (D.state a.old) (D.state b.old) (D.state a.new) (D.state b.new) }
{
    if !is_empty(a)? {
        return Ok(Some(Side::A));
    }
    if !is_empty(b)? {
        return Ok(Some(Side::B));
    }
    Ok(None)
}

fn sync_both<D: Disk>(a: &mut D, b: &mut D) -> Result<(), Stop>
    ensures only_a { OnOk result (Only (D.state a.new).content) }
    ensures only_b { OnOk result (Only (D.state b.new).content) }
    ensures seen_a { OnOk result ((D.state a.new).content.seen ≡ (D.state a.old).content.seen) }
    ensures seen_b { OnOk result ((D.state b.new).content.seen ≡ (D.state b.old).content.seen) }
    ensures a_visible { is_some (D.state a.new).content.seen ≡ is_some (D.state a.old).content.seen }
    ensures b_visible { is_some (D.state b.new).content.seen ≡ is_some (D.state b.old).content.seen }
    ensures any_time { BothKeep (D.state a.old).content (D.state b.old).content (D.state a.new).content
        (D.state b.new).content }
    ensures few { IfSome (D.state a.old).observed
        (λ s. IfSome (D.state a.new).observed (λ t. made_more 1 s t ≡ false)) }
    ensures calls { MakesObserved ((A, Sync) ∷ (B, Sync) ∷ []) (D.state a.old).observed (D.state b.old).observed
        (D.state a.new).observed (D.state b.new).observed (result_err result) }
    ensures counts { BothCount (result_err result) (D.state a.old) (D.state b.old) (D.state a.new) (D.state b.new) }
{
    a.sync()?;
    b.sync()?;
    Ok(())
}

/// The disk's stop for a journal's. `restart` never returns NotAStore.
fn outside(stop: JournalStop) -> Stop
    requires { IsOutside stop }
    ensures { Some result ≡ stop_in {T = Journal} (Err stop) }
{
    match stop {
        JournalStop::DiskFault => Stop::Failed,
        JournalStop::OutOfMemory => Stop::OutOfMemory,
        JournalStop::NotAStore { .. } => unreachable!(),
    }
}

/// Makes a store's file on a disk, with a checkpoint of the map.
fn make_on<D: Disk>(alloc: Global, disk: &mut D, member: Member, kv: &Kv) -> Result<(), Stop>
    requires { size_of kv.now ≤ most_size }
    ensures kept { OnOk result (Keeps (imported member kv.now) (checkpoint_text kv.now ∷ []) (D.state disk.new).known
        (D.state disk.new).content) }
    ensures form { OnOk result (HasCheckpoint kv.now) }
    ensures call { Called (create_calls (owner_of member) 1 (Some (checkpoint_text kv.now)))
        (Begins (D.state disk.old).content (imported member kv.now) kv.now) (result_err result) (D.state disk.old)
        (D.state disk.new) }
{
    let Ok(text) = checkpoint_bytes(alloc, kv) else {
        return Err(Stop::OutOfMemory);
    };
    match restart(alloc, disk, member, 1, &text) {
        Ok(_) => Ok(()),
        Err(stop) => Err(outside(stop)),
    }
}

/// Syncs two empty disks, and makes a store of the map on them.
pub(crate) fn make_both<D: Disk>(
    alloc: Global,
    a: &mut D,
    b: &mut D,
    member: Member,
    kv: &Kv,
) -> Result<(), Stop>
    requires size { size_of kv.now ≤ most_size }
    requires empty_a { IfSome (D.state a.old).content.seen (λ x. x ≡ []) }
    requires empty_b { IfSome (D.state b.old).content.seen (λ y. y ≡ []) }
    ensures any_time { WhileImporting member kv.now (D.state a.old).content (D.state b.old).content
        (D.state a.new).content (D.state b.new).content }
    ensures written { IfWritten (D.state a.old).observed (D.state a.new).observed (KeepThenMake member kv.now
        (D.state a.old).content (D.state b.old).content (D.state a.new).content (D.state b.new).content) }
    ensures safe { OnOk result (EachPair (D.state a.new).content (D.state b.new).content (Whole member kv.now)) }
    ensures a_visible { is_some (D.state a.new).content.seen ≡ is_some (D.state a.old).content.seen }
    ensures b_visible { is_some (D.state b.new).content.seen ≡ is_some (D.state b.old).content.seen }
    ensures calls { MakesObserved (making_calls (owner_of member) kv.now) (D.state a.old).observed
        (D.state b.old).observed
        (D.state a.new).observed (D.state b.new).observed (result_err result) }
    ensures counts { BothCount (result_err result) (D.state a.old) (D.state b.old) (D.state a.new) (D.state b.new) }
{
    sync_both(a, b)?;
    make_on(alloc, a, member, kv)
}
