//! Two disks at rest, and how many calls opening makes on them.

ghost use Rattle.std.specs.Prelude.{◌≡◌, ◌≤◌, ◌∷◌, [], not, is_some, length, take, IfOk};
ghost use Rattle.std.specs.FinMap.{empty};
ghost use Rattle.mon_types.specs.declared.member.Member.{Member};
ghost use Rattle.mon_disk.specs.Memory.{seen_of};
ghost use Rattle.mon_journal.specs.Content.{is_closed};
ghost use Rattle.mon_tx.specs.Map.{Store as Map};
ghost use Rattle.quorum_model.specs.Files.{Files, no_files};
ghost use Rattle.quorum_model.specs.InjectedFaults.{opening_count};
ghost use Rattle.mon_site.specs.Calm.{IsRead};
ghost use Rattle.mon_site.specs.Faults.{Rests};

use mon_bytes::OutOfMemory;
use mon_disk::{Disk, MemoryDisk, NodeDisks};
use mon_types::{Side, Stop};
use quorum_model::{FIRST_OPENING, OPENING, SYNC};
use std::alloc::Global;

/// Two empty disks. They take no memory.
pub fn empty_disks(alloc: Global) -> NodeDisks<MemoryDisk>
    ensures { (member : Member) → Rests member empty no_files result.a result.b }
{
    NodeDisks {
        a: MemoryDisk::new(alloc),
        b: MemoryDisk::new(alloc),
    }
}

/// How long a disk is.
fn length_of(disk: &mut MemoryDisk) -> Result<u64, OutOfMemory>
    ensures read { IsRead disk.old disk.new }
    ensures length { IfOk result (λ n. n ≡ length (seen_of disk.old.life)) }
    ensures known { IfOk result (λ n. disk.new.known ≡ n) }
{
    match disk.len() {
        Ok(length) => Ok(length),
        Err(Stop::OutOfMemory) => Err(OutOfMemory),
        Err(Stop::Failed) => unreachable!(),
    }
}

/// The first byte of a disk that has one.
fn first_byte(disk: &mut MemoryDisk) -> Result<u8, OutOfMemory>
    requires { 1 ≤ disk.old.known }
    ensures read { IsRead disk.old disk.new }
    ensures byte { IfOk result (λ byte. byte ∷ [] ≡ take 1 (seen_of disk.old.life)) }
{
    let mut bytes = [0];
    match disk.read(0, &mut bytes) {
        Ok(()) => Ok(bytes[0]),
        Err(Stop::OutOfMemory) => Err(OutOfMemory),
        Err(Stop::Failed) => unreachable!(),
    }
}

/// Whether a disk has an open file: the gate of its header is its first byte, and more follows.
fn is_open(disk: &mut MemoryDisk) -> Result<bool, OutOfMemory>
    ensures read { IsRead disk.old disk.new }
    ensures open { IfOk result (λ answer. answer ≡ not (is_closed (seen_of disk.old.life))) }
{
    if length_of(disk)? < 2 {
        return Ok(false);
    }
    Ok(first_byte(disk)? == 1)
}

/// How many writes and syncs opening makes on a disk, if `a` and `b` say which disks have an open file. Opening syncs
/// the disk. Of an open file it also writes the first closed gate, and syncs that. If neither is open, it creates a
/// store on disk A.
fn count(side: Side, a: bool, b: bool) -> u64
    ensures { (f : Files) → is_some f.a ≡ a → is_some f.b ≡ b → result ≡ opening_count side f }
{
    match (side, a, b) {
        (Side::A, false, false) => FIRST_OPENING,
        (Side::A, true, _) | (Side::B, _, true) => OPENING,
        (Side::A, false, true) | (Side::B, _, false) => SYNC,
    }
}

/// How many writes and syncs opening makes on one of two disks. Both are still at rest afterwards.
pub fn opening_count(disks: &mut NodeDisks<MemoryDisk>, side: Side) -> Result<u64, OutOfMemory>
    ensures rests { (member : Member) (m : Map) (f : Files) → Rests member m f disks.old.a disks.old.b →
        Rests member m f disks.new.a disks.new.b }
    ensures count { (member : Member) (m : Map) (f : Files) → Rests member m f disks.old.a disks.old.b →
        IfOk result (λ n. n ≡ opening_count side f) }
{
    let a = is_open(&mut disks.a)?;
    let b = is_open(&mut disks.b)?;
    Ok(count(side, a, b))
}
