ghost use Rattle.std.specs.Prelude.{◌≡◌, ◌≤◌, ◌<◌, ◌+◌, ◌^◌, ◌||◌, true, false, [], ◌∷◌, ◌++◌, Ok, Err, Some, length, IfOk, IfErr, IfSome, OnOk};
ghost use Rattle.mon_kv.specs.Readers.{size_of};
ghost use Rattle.mon_disk.specs.Calls.{Called};
ghost use Rattle.mon_journal.specs.Written.{owner_of};
ghost use Rattle.mon_journal.specs.Steps.{Keeps, Any, IsRefusedFirst, create_calls, made_more};
ghost use Rattle.mon_store.specs.Checkpoint.{checkpoint_text, most_size, HasCheckpoint};
ghost use Rattle.mon_types.specs.Sides.{other as other_side};
ghost use Rattle.mon_store.specs.Sound.{is_first, is_due, next_journal, Begins, BegunAs};
ghost use Rattle.mon_store.specs.Calls.{stop_in, unless_early};
ghost use Rattle.mon_store.specs.Refusals.{IsOutside, Restarts, breaks};

use crate::checkpoint::write_checkpoint;
use crate::stop::StoreStop;
use crate::store::Store;
use mon_bytes::{Out, OutOfMemory};
use mon_disk::Disk;
use mon_journal::{Form, Journal, restart};
use mon_kv::{Kv, LEAST_LENGTH};
use mon_types::GREATEST;
use std::alloc::Global;
use std::mem::swap;

fn is_first(form: Form) -> bool
    ensures { result ≡ is_first form }
{
    match form {
        Form::First => true,
        Form::Second => false,
    }
}

/// Whether a checkpoint is due: the generation is below 2^62, and the live file has the first header, or is longer than
/// 1,048,576 bytes and than four times the map's size.
fn is_due(journal: &Journal, kv: &Kv) -> bool
    ensures { result ≡ is_due journal.now kv.now }
{
    if journal.generation >= GREATEST {
        return false;
    }
    is_first(journal.form)
        || (journal.next_gate >= LEAST_LENGTH && journal.next_gate / 4 >= kv.size())
}

/// Encodes a map as a checkpoint. It takes memory for the bytes alone.
pub fn checkpoint_bytes(alloc: Global, kv: &Kv) -> Result<Vec<u8>, OutOfMemory>
    requires { size_of kv.now ≤ most_size }
    ensures text { IfOk result (λ bytes. bytes.items ≡ checkpoint_text kv.now) }
    ensures form { IfOk result (λ _. HasCheckpoint kv.now) }
{
    let mut out = Out::new(alloc);
    write_checkpoint(&mut out, kv)?;
    Ok(out.into_bytes())
}

/// Begins the next journal on a disk, with a checkpoint of the map.
pub(crate) fn begin<D: Disk>(
    alloc: Global,
    disk: &mut D,
    journal: &Journal,
    kv: &Kv,
) -> Result<Journal, StoreStop>
    requires size { size_of kv.now ≤ most_size }
    requires generation { journal.now.generation < 2 ^ 62 }
    ensures journal { IfOk result (λ next. next ≡ next_journal journal.now kv.now) }
    ensures kept { IfOk result (λ next. Keeps next (checkpoint_text kv.now ∷ []) (D.state disk.new).known
        (D.state disk.new).content) }
    ensures form { OnOk result (HasCheckpoint kv.now) }
    ensures outside { IfErr result IsOutside }
    ensures no_memory { IsRefusedFirst D.state StoreStop.OutOfMemory result disk.old disk.new }

    // Which writes and syncs were made. A crash at any point leaves what it might have left before, a closed file, or
    // the new journal.
    ensures call { let old = D.state disk.old in
        Called (create_calls (owner_of journal.now.member) (journal.now.generation + 1) (Some (checkpoint_text kv.now)))
        (Begins old.content (next_journal journal.now kv.now) kv.now) (stop_in result) old (D.state disk.new) }

    // If the gate of the settled file is open and more than four calls were made, the disk settles to the new journal.
    // Otherwise it settles to what a crash might have left before, or to a closed file.
    ensures settles { IfSome (D.state disk.old).observed
        (λ s. IfSome (D.state disk.new).observed
        (λ t. BegunAs (D.state disk.old).content (next_journal journal.now kv.now) kv.now (made_more 4 s t)
        (t.settles t.made))) }
{
    let text = checkpoint_bytes(alloc, kv)?;
    let member = journal.member;
    Ok(restart(alloc, disk, member, journal.generation + 1, &text)?)
}

impl<D: Disk> Store<D> {
    ghost use Rattle.mon_store.specs.Times.{Meanwhile, EachPair};
    ghost use Rattle.mon_store.specs.Sound.{of_a, of_b, StandsOn, ThisOrNext, Restarted};
    ghost use Rattle.mon_store.specs.Calls.{restart_calls};
    ghost use Rattle.mon_store.specs.Whole.{IsSound, disk_a, disk_b, disk_of};

    /// Begins a new journal on the other disk if a checkpoint is due. After that the other disk is live. Returns
    /// whether a checkpoint was due. It is due if the live generation is below 2^62, and the live file has the first
    /// header, or is longer than 1,048,576 bytes and than four times the map's size. The length counts the bytes up to
    /// and with the first closed gate. Broken is returned if an earlier call broke the store. DiskFault and OutOfMemory
    /// break it.
    pub fn restart_if_due(&mut self) -> Result<bool, StoreStop>
        requires { IsSound D.state self.old }
        ensures sound { IsSound D.state self.new }
        ensures answer { Restarts self.old.broken (is_due self.old.journal self.old.kv) result }
        ensures broken { self.new.broken ≡ (self.old.broken || breaks result) }
        ensures map { self.new.kv ≡ self.old.kv }
        ensures refused { result ≡ Err StoreStop.Broken → self.new ≡ self.old }

        // A crash at any point leaves the store as it was, or as it is after the checkpoint, on the other disk.
        ensures any_time { self.old.broken ≡ false
            → Meanwhile (D.state (disk_a self.old)).content (D.state (disk_b self.old)).content
            (D.state (disk_a self.new)).content (D.state (disk_b self.new)).content
            (ThisOrNext self.old.side self.old.journal self.old.kv) }

        // If the gate of the other disk is open and more than four calls were made on it, the disks settle to the next
        // journal. Otherwise they settle to this one, and the other disk to what it might have held before, or to a
        // closed file.
        ensures settles { self.old.broken ≡ false
            → IfSome (D.state (disk_of self.old.side self.new)).observed
            (λ l. IfSome (D.state self.old.other).observed
            (λ s. IfSome (D.state (disk_of (other_side self.old.side) self.new)).observed
            (λ t. Restarted self.old.side self.old.journal self.old.kv (D.state self.old.other).content
            (made_more 4 s t) (of_a self.old.side (l.settles l.made) (t.settles t.made))
            (of_b self.old.side (l.settles l.made) (t.settles t.made))))) }

        ensures safe { OnOk result (EachPair (D.state (disk_a self.new)).content (D.state (disk_b self.new)).content
            (StandsOn self.new.side self.new.journal self.new.kv)) }

        // If a checkpoint was due and succeeded, the other disk is live.
        ensures live { result ≡ Ok true → self.new.side ≡ other_side self.old.side }
        ensures journal { result ≡ Ok true → self.new.journal ≡ next_journal self.old.journal self.old.kv }
        ensures same { result ≡ Ok false → self.new ≡ self.old }

        // Which writes and syncs were made on the other disk, and what it counted. After OutOfMemory the other disk is
        // unchanged, or it counted the failed allocation. The live disk is unchanged.
        ensures call { Called (unless_early result (restart_calls self.old.journal self.old.kv)) Any (stop_in result)
            (D.state self.old.other) (D.state (disk_of (other_side self.old.side) self.new)) }
        ensures no_memory { IsRefusedFirst D.state StoreStop.OutOfMemory result self.old.other
            (disk_of (other_side self.old.side) self.new) }
        ensures untouched { disk_of self.old.side self.new ≡ self.old.live }
    {
        if self.broken {
            return Err(StoreStop::Broken);
        }
        if !is_due(&self.journal, &self.kv) {
            return Ok(false);
        }
        match begin(self.alloc, &mut self.other, &self.journal, &self.kv) {
            Ok(journal) => {
                self.journal = journal;
                swap(&mut self.live, &mut self.other);
                self.side = self.side.other();
                Ok(true)
            }
            Err(stop) => {
                self.broken = true;
                Err(stop)
            }
        }
    }
}
