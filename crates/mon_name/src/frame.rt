ghost use Rattle.std.specs.Prelude.{◌≡◌, ◌∷◌, ◌++◌, IfOk, option_map};
ghost use Rattle.mon_frag.specs.Pieces.{u64_bytes};
ghost use Rattle.mon_name.specs.Frames.{framed, unframed};
ghost use Rattle.mon_name.specs.Numbers.{renumbered};

use crate::life::Life;
use crate::renumber::put_renumbered;
use mon_bytes::{Bytes, Cursor, Out, OutOfMemory};
use std::alloc::Global;

/// The byte with which a framed datagram begins. No message begins with it, and no piece of one.
const FRAME: u8 = 3;

/// How many bytes of a frame come before its datagram.
const FRONT: usize = 9;

/// The beginning of a frame, with room for a datagram of `len` bytes.
#[tactic(auto, unfolding(mon_frag::specs::Pieces::u64_bytes))]
fn front(alloc: Global, tag: u64, len: usize) -> Result<Out, OutOfMemory>
    ensures { IfOk result (λ out. out ≡ FRAME ∷ u64_bytes tag) }
{
    let mut out = Out::with_capacity(alloc, len.saturating_add(FRONT))?;
    out.put_u8(FRAME)?;
    out.put_u64(tag)?;
    Ok(out)
}

/// A datagram in the frame of a tag.
pub fn framed(alloc: Global, tag: u64, datagram: &[u8]) -> Result<Bytes, OutOfMemory>
    ensures { IfOk result (λ bytes. bytes ≡ framed tag datagram.now) }
{
    let mut out = front(alloc, tag, datagram.len())?;
    out.put_bytes(datagram)?;
    Ok(Bytes::new(out.into_bytes()))
}

/// A datagram in the frame of a tag. In a piece of a long message, the number of a life replaces the sender's boot.
pub(crate) fn framed_for(
    alloc: Global,
    tag: u64,
    life: Life,
    datagram: &[u8],
) -> Result<Bytes, OutOfMemory>
    ensures { IfOk result (λ bytes. bytes ≡ framed tag (renumbered life datagram.now)) }
{
    let mut out = front(alloc, tag, datagram.len())?;
    put_renumbered(&mut out, life, datagram)?;
    Ok(Bytes::new(out.into_bytes()))
}

/// The datagram in the frame of a tag. `None` if the bytes aren't in one.
#[tactic(auto, unfolding(crate::specs::Frames::unframed))]
pub fn unframed(tag: u64, bytes: &[u8]) -> Option<&[u8]>
    ensures { option_map (λ x. x.now) result ≡ unframed tag bytes.now }
{
    let mut cursor = Cursor::new(bytes);
    let mark = cursor.take_u8().ok()?;
    if mark != FRAME {
        return None;
    }
    let found = cursor.take_u64().ok()?;
    if found != tag {
        return None;
    }
    cursor.take_bytes(cursor.left()).ok()
}
