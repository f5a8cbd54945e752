ghost use Rattle.std.specs.Prelude.{◌≡◌, ◌≤◌, length, IfOk, OnOk, OnErr, is_some};
ghost use Rattle.std.specs.Io.KnownBytes.{Appends};
ghost use Rattle.mon_types.specs.Faults.{HasCause};
ghost use Rattle.mon_link.specs.Whole.{ReadsWhole, ConsumesPrefix, AppendsPrefix};

use crate::outside::{Sink, Source};
use mon_types::Stop;
use std::alloc::Global;

/// The bytes of a source to its end, or the first `most` of them. What was read before an `Err` is gone, and isn't more
/// than `most` bytes.
pub fn read_all<S: Source>(alloc: Global, source: &mut S, most: usize) -> Result<Vec<u8>, Stop>
    ensures whole { IfOk result (λ bytes. ReadsWhole most (S.left source.old) (S.left source.new) bytes.items) }
    ensures most { IfOk result (λ bytes. length bytes.items ≤ most) }
    ensures part { OnErr result (ConsumesPrefix most (S.left source.old) (S.left source.new)) }
    ensures visible { is_some (S.left source.new) ≡ is_some (S.left source.old) }
    ensures cause { HasCause (S.faults source.old) (S.faults source.new) result }
{
    let mut bytes = Vec::new(alloc);
    let mut buffer = [0u8; 4096];
    while bytes.len() < most {
        let room = (most - bytes.len()).min(4096);
        let piece = &mut buffer[..room];
        let count = source.read(piece)?;
        if count == 0 {
            return Ok(bytes);
        }
        if bytes.extend_from_slice(&piece[..count]).is_err() {
            return Err(Stop::OutOfMemory);
        }
    }
    Ok(bytes)
}

/// Writes the bytes in order. What went out before an `Err` is a prefix of them.
pub fn write_all<K: Sink>(sink: &mut K, bytes: &[u8]) -> Result<(), Stop>
    ensures whole { OnOk result (Appends (K.held sink.old) (K.held sink.new) bytes.now) }
    ensures part { OnErr result (AppendsPrefix (K.held sink.old) (K.held sink.new) bytes.now) }
    ensures visible { is_some (K.held sink.new) ≡ is_some (K.held sink.old) }
    ensures cause { HasCause (K.faults sink.old) (K.faults sink.new) result }
{
    let mut done = 0;
    while done < bytes.len() {
        done += sink.write(&bytes[done..])?;
    }
    Ok(())
}
