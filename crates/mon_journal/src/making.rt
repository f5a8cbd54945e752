ghost use Rattle.std.specs.Prelude.{◌≡◌, ◌≤◌, ◌<◌, ◌^◌, Some, length, IfOk, IfErr, IfSome, option_map};
ghost use Rattle.std.specs.Option.{ForSome};
ghost use Rattle.mon_disk.specs.Calls.{Called};
ghost use Rattle.mon_journal.specs.Written.{first_payloads, owner_of, created};
ghost use Rattle.mon_journal.specs.Steps.{create_calls, CreatedFrom, made_more, Made, Keeps, stop_in, IsOutside, IsRefusedFirst};

use crate::encoded::head_bytes;
use crate::journal::{Form, Journal};
use crate::step::write_synced;
use crate::stop::JournalStop;
use mon_disk::Disk;
use mon_types::Member;
use std::alloc::Global;

/// Overwrites whatever a disk holds with a new store's file. The gate is closed, the header and the first record, if
/// there is one, are written after it, and then the gate is opened. It takes its memory before the first write.
pub fn create<D: Disk>(
    alloc: Global,
    disk: &mut D,
    member: Member,
    generation: u64,
    first: Option<&[u8]>,
) -> Result<Journal, JournalStop>
    requires from_one { 1 ≤ generation }
    requires most { generation ≤ 2 ^ 62 }
    requires short { ForSome first (λ payload. length payload.now < 2 ^ 32) }
    ensures journal { IfOk result (λ journal. journal
        ≡ created member generation (option_map (λ payload. payload.now) first.entry)) }
    ensures kept { IfOk result (λ journal. let payload = option_map (λ payload. payload.now) first.entry in
        Keeps journal (first_payloads payload) (D.state disk.new).known (D.state disk.new).content) }

    // Which writes and syncs were made. A crash at any point of the call leaves what it might have left before, a
    // closed file, or the new one.
    ensures call { let old = D.state disk.old in let payload = option_map (λ payload. payload.now) first.entry in
        Called (create_calls (owner_of member) generation payload)
        (CreatedFrom old.content (created member generation payload) (first_payloads payload)) (stop_in result) old
        (D.state disk.new) }

    // If the settled file's gate is open and more than four calls were made, the disk settles to the new file.
    // Otherwise it settles to what a crash might have left before, or to a closed file.
    ensures settles { let old = D.state disk.old in let payload = option_map (λ payload. payload.now) first.entry in
        IfSome old.observed (λ s. IfSome (D.state disk.new).observed
        (λ t. Made old.content (created member generation payload) (first_payloads payload) (made_more 4 s t)
        (t.settles t.made))) }

    ensures outside { IfErr result IsOutside }
    ensures no_memory { IsRefusedFirst D.state JournalStop.OutOfMemory result disk.old disk.new }
{
    let head = head_bytes(alloc, &member, generation, first)?;
    write_synced(disk, 0, &[0])?;
    write_synced(disk, 1, &head)?;
    write_synced(disk, 0, &[1])?;
    Ok(Journal {
        member,
        generation,
        next_gate: head.len() as u64,
        form: Form::Second,
    })
}

/// Makes a store's file with a checkpoint as its first record.
pub fn restart<D: Disk>(
    alloc: Global,
    disk: &mut D,
    member: Member,
    generation: u64,
    checkpoint: &[u8],
) -> Result<Journal, JournalStop>
    requires from_one { 1 ≤ generation }
    requires most { generation ≤ 2 ^ 62 }
    requires short { length checkpoint.now < 2 ^ 32 }
    ensures journal { IfOk result (λ journal. journal ≡ created member generation (Some checkpoint.now)) }
    ensures kept { IfOk result (λ journal. Keeps journal (first_payloads (Some checkpoint.now)) (D.state disk.new).known
        (D.state disk.new).content) }

    // Which writes and syncs were made. A crash at any point of the call leaves what it might have left before, a
    // closed file, or the new one.
    ensures call { let old = D.state disk.old in
        Called (create_calls (owner_of member) generation (Some checkpoint.now))
        (CreatedFrom old.content (created member generation (Some checkpoint.now)) (first_payloads (Some checkpoint.now)))
        (stop_in result) old (D.state disk.new) }

    // If the settled file's gate is open and more than four calls were made, the disk settles to the new file.
    // Otherwise it settles to what a crash might have left before, or to a closed file.
    ensures settles { let old = D.state disk.old in IfSome old.observed (λ s. IfSome (D.state disk.new).observed
        (λ t. Made old.content (created member generation (Some checkpoint.now)) (first_payloads (Some checkpoint.now))
        (made_more 4 s t) (t.settles t.made))) }

    ensures outside { IfErr result IsOutside }
    ensures no_memory { IsRefusedFirst D.state JournalStop.OutOfMemory result disk.old disk.new }
{
    create(alloc, disk, member, generation, Some(checkpoint))
}
