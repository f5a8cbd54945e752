ghost use Rattle.std.specs.Prelude.{◌≡◌, ◌≤◌, ◌<◌, ◌||◌, false, [], ◌∷◌, ◌++◌, length, IfOk, IfErr, OnOk, OnErr, IfSome};
ghost use Rattle.mon_tx.specs.Map.{apply};
ghost use Rattle.mon_tx.specs.Text.{text, most};
ghost use Rattle.mon_tx.specs.Decode.{HasText};
ghost use Rattle.mon_kv.specs.Readers.{size_of};
ghost use Rattle.mon_disk.specs.Calls.{Called};
ghost use Rattle.mon_journal.specs.Steps.{Stands, Keeps, Any, IsRefusedFirst, append_calls, payloads_seen};
ghost use Rattle.mon_journal.specs.Content.{appended};
ghost use Rattle.mon_store.specs.Checkpoint.{most_size};
ghost use Rattle.mon_store.specs.Sound.{WithChange};
ghost use Rattle.mon_store.specs.Calls.{stop_in, unless_early, apply_calls, journal_after};
ghost use Rattle.mon_store.specs.Refusals.{AfterRefusal, IsEarly, LeavesDisk, Answers, breaks};

use crate::stop::StoreStop;
use crate::store::Store;
use mon_disk::Disk;
use mon_journal::Journal;
use mon_kv::{Kv, MOST_SIZE};
use mon_tx::Transaction;
use std::alloc::Global;

/// Makes a transaction's changes in the map, and returns its encoding.
fn prepare(kv: &mut Kv, tx: &Transaction) -> Result<Vec<u8>, StoreStop>
    ensures text { IfOk result (λ bytes. bytes.items ≡ text tx.now) }
    ensures form { IfOk result (λ _. HasText tx.now) }
    ensures map { OnOk result (kv.new ≡ apply tx.now kv.old) }
    ensures size { OnOk result (size_of (apply tx.now kv.old) ≤ most_size) }
    ensures refused { IfErr result (AfterRefusal tx.now kv.old kv.new) }
    ensures early { IfErr result IsEarly }
{
    let text = tx.encode()?;
    kv.apply(tx)?;
    let would_be = kv.size();
    if would_be > MOST_SIZE {
        return Err(StoreStop::Full { would_be });
    }
    Ok(text)
}

/// Makes a transaction's changes in the map, and appends it to the journal.
pub(crate) fn keep<D: Disk>(
    alloc: Global,
    disk: &mut D,
    journal: &mut Journal,
    kv: &mut Kv,
    tx: &Transaction,
) -> Result<(), StoreStop>
    requires { Stands journal.old (D.state disk.old).known (D.state disk.old).content }
    ensures kept { OnOk result (Keeps journal.new (payloads_seen (D.state disk.old).content ++ text tx.now ∷ [])
        (D.state disk.new).known (D.state disk.new).content) }
    ensures journal { OnOk result (journal.new ≡ appended journal.old (text tx.now)) }
    ensures journal_err { OnErr result (journal.new ≡ journal.old) }
    ensures form { OnOk result (HasText tx.now) }
    ensures map { OnOk result (kv.new ≡ apply tx.now kv.old) }
    ensures size { OnOk result (size_of (apply tx.now kv.old) ≤ most_size) }
    ensures refused { IfErr result (AfterRefusal tx.now kv.old kv.new) }
    ensures disk { IfErr result (LeavesDisk disk.old disk.new) }
    ensures large { most_size < size_of (apply tx.now kv.old) → disk.new ≡ disk.old }

    // Which writes and syncs were made. A crash at any point leaves the earlier payloads, and the transaction if its
    // gate is open.
    ensures call { let old = D.state disk.old in
        Called (unless_early result (append_calls journal.old.next_gate (text tx.now)))
        (WithChange journal.old (payloads_seen old.content) kv.old tx.now) (stop_in result) old (D.state disk.new) }
    ensures no_memory { IsRefusedFirst D.state StoreStop.OutOfMemory result disk.old disk.new }
{
    let text = prepare(kv, tx)?;
    journal.append(alloc, disk, &text)?;
    Ok(())
}

/// Whether a result breaks the store: Full, DiskFault and OutOfMemory do.
pub(crate) fn breaks<T>(answer: &Result<T, StoreStop>) -> bool
    ensures { result ≡ breaks answer.now }
{
    matches!(
        answer,
        Err(StoreStop::Full { .. } | StoreStop::DiskFault | StoreStop::OutOfMemory)
    )
}

impl<D: Disk> Store<D> {
    ghost use Rattle.std.specs.Prelude.{is_some, IsTrue};
    ghost use Rattle.mon_store.specs.Times.{Meanwhile, EachPair};
    ghost use Rattle.mon_store.specs.Sound.{StandsOn, BeforeOrAfter};
    ghost use Rattle.mon_store.specs.Whole.{IsSound, disk_a, disk_b, Stays};

    /// Applies a transaction to the map, and appends its record on the live disk. An empty transaction makes no call on
    /// a disk. Broken is returned if an earlier call broke the store, and TooLong if the text passes 4,194,304 bytes;
    /// nothing changes then. The other errors break the store: OutOfMemory; Full, if the map would be larger than
    /// 268,435,456; DiskFault. After DiskFault or OutOfMemory the disks represent the old map or the new one.
    pub fn apply(&mut self, tx: &Transaction) -> Result<(), StoreStop>
        requires { IsSound D.state self.old }
        ensures sound { IsSound D.state self.new }
        ensures answer { Answers tx.now self.old.kv self.new.kv self.old.broken result }
        ensures broken { self.new.broken ≡ (self.old.broken || breaks result) }
        ensures same { Stays tx.now self.old self.new result }

        // A crash at any point leaves the store as it was, or with the change if and only if the gate of its record
        // is open.
        ensures any_time { self.old.broken ≡ false → IsTrue (is_some (D.state self.old.live).content.seen)
            → Meanwhile (D.state (disk_a self.old)).content (D.state (disk_b self.old)).content
            (D.state (disk_a self.new)).content (D.state (disk_b self.new)).content
            (BeforeOrAfter self.old.side self.old.journal self.old.kv tx.now) }

        // The same holds of what the disks settle to, if their calls and contents can be seen.
        ensures settles { self.old.broken ≡ false → IsTrue (is_some (D.state self.old.live).content.seen)
            → IfSome (D.state (disk_a self.new)).observed
            (λ s. IfSome (D.state (disk_b self.new)).observed
            (λ t. BeforeOrAfter self.old.side self.old.journal self.old.kv tx.now (s.settles s.made)
            (t.settles t.made))) }

        // After Ok a crash leaves only the store as it is now.
        ensures safe { OnOk result (EachPair (D.state (disk_a self.new)).content (D.state (disk_b self.new)).content
            (StandsOn self.new.side self.new.journal self.new.kv)) }

        ensures journal { OnOk result (self.new.journal ≡ journal_after self.old.journal tx.now) }
        ensures journal_err { OnErr result (self.new.journal ≡ self.old.journal) }
        ensures disk { IfErr result (LeavesDisk self.old.live self.new.live) }

        // If the map would be too large, the live disk is unchanged, whatever is returned.
        ensures large { most_size < size_of (apply tx.now self.old.kv) → self.new.live ≡ self.old.live }

        ensures other { self.new.other ≡ self.old.other }
        ensures side { self.new.side ≡ self.old.side }

        // Which writes and syncs were made on the live disk, and what it counted. After OutOfMemory the live disk is
        // unchanged, or it counted the failed allocation.
        ensures call { Called (unless_early result (apply_calls self.old.journal.next_gate tx.now)) Any (stop_in result)
            (D.state self.old.live) (D.state self.new.live) }
        ensures no_memory { IsRefusedFirst D.state StoreStop.OutOfMemory result self.old.live self.new.live }
    {
        if self.broken {
            return Err(StoreStop::Broken);
        }
        if tx.ops().is_empty() {
            return Ok(());
        }
        let answer = keep(
            self.alloc,
            &mut self.live,
            &mut self.journal,
            &mut self.kv,
            tx,
        );
        self.broken = breaks(&answer);
        answer
    }
}
