//! Requests for what a monitor knows of itself, and the datagrams of answers.

ghost use Rattle.std.specs.Prelude.{◌≡◌, false, IfErr, IfOk};
ghost use Rattle.mon_bytes.specs.Forms.{Gives, Reads, no_memory};
ghost use Rattle.mon_watch.specs.Requests.{answer_text, asked_at, is_watch, mark_at, request_of};

use mon_bytes::{Bytes, Cursor, MapRefused, Out, OutOfMemory};
use std::alloc::Global;

/// The byte with which datagrams of the watch begin. No message begins with it, no piece of one, no frame and no hello.
pub const MARK: u8 = 5;

/// A client that asked, and the number of its request.
#[derive(Clone, Copy)]
pub struct Asker {
    pub client: u32,
    pub id: u64,
}

/// Whether a datagram begins as those of the watch do.
pub(crate) fn is_watch(bytes: &[u8]) -> bool
    ensures { result ≡ is_watch bytes.now }
{
    match bytes.first() {
        Some(mark) => *mark == MARK,
        None => false,
    }
}

#[tactic(auto, unfolding(crate::specs::Requests::mark_at))]
fn read_mark(cursor: &mut Cursor<'_>) -> Result<u8, MapRefused>
    ensures reads { Reads (λ x. x) result cursor.new (mark_at cursor.old) }
    ensures known { IfErr result (λ e. no_memory e ≡ false) }
{
    let at = cursor.at();
    let byte = cursor.take_u8()?;
    if byte != MARK {
        return Err(MapRefused::Form { at });
    }
    Ok(byte)
}

#[tactic(auto, unfolding(crate::specs::Requests::asked_at, mon_bytes::specs::Forms::ended))]
fn read_request(cursor: &mut Cursor<'_>) -> Result<u64, MapRefused>
    ensures value { Gives (λ x. x) result (asked_at cursor.old) }
    ensures known { IfErr result (λ e. no_memory e ≡ false) }
{
    read_mark(cursor)?;
    let id = cursor.take_u64()?;
    if cursor.left() != 0 {
        return Err(MapRefused::Form { at: cursor.at() });
    }
    Ok(id)
}

/// The number of the request that all of the bytes encode. A refusal names the first byte of the first faulty field.
pub fn read_status_request(bytes: &[u8]) -> Result<u64, MapRefused>
    ensures value { Gives (λ x. x) result (request_of bytes.now) }
    ensures known { IfErr result (λ e. no_memory e ≡ false) }
{
    let mut cursor = Cursor::new(bytes);
    read_request(&mut cursor)
}

/// The datagram that answers the request of this number by a text.
pub(crate) fn answer_of(alloc: Global, id: u64, text: &[u8]) -> Result<Bytes, OutOfMemory>
    ensures { IfOk result (λ bytes. bytes ≡ answer_text id text.now) }
{
    let mut out = Out::new(alloc);
    out.put_u8(MARK)?;
    out.put_u64(id)?;
    out.put_bytes(text)?;
    Ok(Bytes::new(out.into_bytes()))
}
