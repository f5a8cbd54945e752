//! A write that is on the disk before the next one begins.

ghost use Rattle.std.specs.Prelude.{◌≡◌, ◌≤◌, ◌<◌, ◌+◌, ◌^◌, max, length, [], ◌∷◌, Some, Err, OnOk, IfSome};
ghost use Rattle.std.specs.Result.{result_err};
ghost use Rattle.mon_types.specs.Faults.{risen};
ghost use Rattle.mon_types.specs.declared.names.Stop.TheVariants.{OutOfMemory};
ghost use Rattle.mon_disk.specs.Images.{Only, LeavesOnly, TornFrom, images, written};
ghost use Rattle.mon_disk.specs.Calls.{Called};
ghost use Rattle.mon_disk.specs.declared.disk.DiskCall.TheVariants.{Write, Sync};

use mon_disk::Disk;
use mon_types::Stop;

/// Writes over what is there, and syncs.
pub fn write_synced<D: Disk>(disk: &mut D, at: u64, bytes: &[u8]) -> Result<(), Stop>
    requires { at ≤ (D.state disk.old).known }
    ensures call { Called (Write at bytes.now ∷ Sync ∷ []) (TornFrom (D.state disk.old).content at bytes.now)
        (result_err result) (D.state disk.old) (D.state disk.new) }
    ensures seen { OnOk result ((D.state disk.new).content.seen
        ≡ written at bytes.now (D.state disk.old).content.seen) }
    ensures durable { OnOk result (Only (D.state disk.new).content) }
    ensures end { OnOk result (at + length bytes.now < 2 ^ 64) }
    ensures known { OnOk result ((D.state disk.new).known ≡ max (D.state disk.old).known (at + length bytes.now)) }
    ensures no_memory { result ≡ Err OutOfMemory → (D.state disk.new).refusals ≡ risen (D.state disk.old).refusals }

    // If no call was made, a crash leaves nothing new.
    ensures not_begun { let old = D.state disk.old in
        IfSome old.observed (λ s. (D.state disk.new).observed ≡ Some s
        → LeavesOnly old.content (D.state disk.new).content (images old.content)) }
{
    disk.write_at(at, bytes)?;
    disk.sync()?;
    Ok(())
}
