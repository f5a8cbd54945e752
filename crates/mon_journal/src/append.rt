ghost use Rattle.std.specs.Prelude.{◌≡◌, ◌<◌, ◌^◌, ◌++◌, [], ◌∷◌, length, OnOk, OnErr, IfErr, IfSome};
ghost use Rattle.mon_disk.specs.Calls.{Called};
ghost use Rattle.mon_journal.specs.Content.{appended, WithOrWithout};
ghost use Rattle.mon_journal.specs.Steps.{append_calls, payloads_seen, Stands, Keeps, stop_in, IsOutside, IsRefusedFirst};

use crate::encoded::record_body;
use crate::journal::{Journal, RECORD_HEAD};
use crate::step::write_synced;
use crate::stop::JournalStop;
use mon_disk::Disk;
use std::alloc::Global;

impl Journal {
    /// Appends a record with this payload: it is written after the closed commit byte (the gate), and then that gate is
    /// opened. A crash at any point of the call leaves the earlier payloads, with the new one or without it. After `Ok`
    /// a crash leaves all of them. It takes its memory before the first write.
    pub fn append<D: Disk>(
        &mut self,
        alloc: Global,
        disk: &mut D,
        payload: &[u8],
    ) -> Result<(), JournalStop>
        requires short { length payload.now < 2 ^ 32 }
        requires stands { Stands self.old (D.state disk.old).known (D.state disk.old).content }

        // Which writes and syncs were made. A crash at any point of the call leaves the earlier payloads, and the new
        // one if its gate is open.
        ensures call { let old = D.state disk.old in Called (append_calls self.old.next_gate payload.now)
            (WithOrWithout self.old (payloads_seen old.content) payload.now) (stop_in result) old (D.state disk.new) }

        // The same holds of what the disk settles to, if its calls can be seen.
        ensures settles { IfSome (D.state disk.new).observed
            (λ t. WithOrWithout self.old (payloads_seen (D.state disk.old).content) payload.now (t.settles t.made)) }

        ensures kept { OnOk result (Keeps self.new (payloads_seen (D.state disk.old).content ++ payload.now ∷ [])
            (D.state disk.new).known (D.state disk.new).content) }
        ensures journal { OnOk result (self.new ≡ appended self.old payload.now) }
        ensures journal_err { OnErr result (self.new ≡ self.old) }
        ensures outside { IfErr result IsOutside }
        ensures no_memory { IsRefusedFirst D.state JournalStop.OutOfMemory result disk.old disk.new }
    {
        let body = record_body(alloc, payload)?;
        write_synced(disk, self.next_gate + 1, &body)?;
        write_synced(disk, self.next_gate, &[1])?;
        self.next_gate += RECORD_HEAD + payload.len() as u64;
        Ok(())
    }
}
