//! Unsynced writes of a disk in memory, and the part of each that an image keeps.

ghost use Rattle.std.specs.Prelude.{◌≡◌, ◌≤◌, map, take, drop, reverse, length, OnOk, OnErr};
ghost use Rattle.mon_disk.specs.Images.{overwritten};
ghost use Rattle.mon_disk.specs.Memory.{part, placed, imaged};

use mon_bytes::{Bytes, OutOfMemory};
use std::alloc::Global;

/// An unsynced write, and the bytes that it overwrote.
#[derive(Drop)]
pub(crate) struct Unsynced {
    pub(crate) at: u64,
    pub(crate) bytes: Bytes,
    pub(crate) under: Bytes,
}

/// Writes the bytes at an offset, or at the end if the offset is past it, over what is there and past the end. After
/// an `Err` nothing changed.
pub(crate) fn overwrite(file: &mut Vec<u8>, at: usize, bytes: &[u8]) -> Result<(), OutOfMemory>
    ensures ok { OnOk result (file.new.items ≡ overwritten at bytes.now file.old.items) }
    ensures err { OnErr result (file.new.items ≡ file.old.items) }
{
    let start = at.min(file.len());
    let inside = bytes.len().min(file.len() - start);
    file.extend_from_slice(&bytes[inside..])?;
    file[start..start + inside].copy_from_slice(&bytes[..inside]);
    Ok(())
}

/// The bytes from an offset on, at most this many.
pub(crate) fn bytes_at(file: &[u8], at: usize, most: usize) -> &[u8]
    requires { at ≤ length file.now }
    ensures { result.now ≡ take most (drop at file.now) }
{
    let rest = &file[at..];
    if most < rest.len() {
        &rest[..most]
    } else {
        rest
    }
}

/// Writes the part of a write that an image keeps. After an `Err` the file is unspecified.
pub(crate) fn keep_part(
    alloc: Global,
    file: &mut Vec<u8>,
    image: u8,
    at: u64,
    bytes: &[u8],
) -> Result<(), OutOfMemory>
    ensures { OnOk result (file.new.items ≡ placed at (part image bytes.now) file.old.items) }
{
    match image {
        0 => Ok(()),
        1 => place(file, at as usize, bytes),
        2 => place(file, at as usize, &bytes[..bytes.len() / 2]),
        _ => {
            let torn = vec![in alloc; 0xA5u8; bytes.len()]?;
            place(file, at as usize, torn.as_slice())
        }
    }
}

/// Writes the bytes at a place, with zeros between the old end and them.
fn place(file: &mut Vec<u8>, at: usize, bytes: &[u8]) -> Result<(), OutOfMemory>
    ensures { OnOk result (file.new.items ≡ placed at bytes.now file.old.items) }
{
    if bytes.is_empty() {
        return Ok(());
    }
    if file.len() < at {
        file.resize(at, 0)?;
    }
    overwrite(file, at, bytes)
}
