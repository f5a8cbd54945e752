//! Undoes unsynced writes in a file, and writes the parts of them that an image keeps.

ghost use Rattle.std.specs.Prelude.{◌≡◌, map, reverse, OnOk};
ghost use Rattle.mon_disk.specs.Memory.{imaged};
ghost use Rattle.mon_disk.specs.Holding.{undone, all_undone, call_of};

use crate::unsynced::{Unsynced, keep_part, overwrite};
use mon_bytes::OutOfMemory;
use std::alloc::Global;

/// Undoes a write.
fn undo(file: &mut Vec<u8>, write: &Unsynced) -> Result<(), OutOfMemory>
    ensures { OnOk result (file.new.items ≡ undone write.now file.old.items) }
{
    let at = write.at as usize;
    if write.under.as_slice().len() == write.bytes.as_slice().len() {
        return overwrite(file, at, write.under.as_slice());
    }
    file.truncate(at);
    file.extend_from_slice(write.under.as_slice())?;
    Ok(())
}

/// Undoes writes, the newest first.
pub(crate) fn undo_all(file: &mut Vec<u8>, writes: &[Unsynced]) -> Result<(), OutOfMemory>
    ensures { OnOk result (file.new.items ≡ all_undone (reverse writes.now) file.old.items) }
{
    match writes.split_last() {
        None => Ok(()),
        Some((newest, older)) => {
            undo(file, newest)?;
            undo_all(file, older)
        }
    }
}

/// Writes the part of each write that an image keeps, the oldest write first.
pub(crate) fn keep_parts(
    alloc: Global,
    file: &mut Vec<u8>,
    image: u8,
    writes: &[Unsynced],
) -> Result<(), OutOfMemory>
    ensures { OnOk result (file.new.items ≡ imaged image file.old.items (map call_of (reverse writes.now))) }
{
    match writes.split_last() {
        None => Ok(()),
        Some((newest, older)) => {
            keep_parts(alloc, file, image, older)?;
            keep_part(alloc, file, image, newest.at, newest.bytes.as_slice())
        }
    }
}
