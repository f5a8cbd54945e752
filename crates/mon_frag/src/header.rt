ghost use Rattle.std.specs.Prelude.{◌≡◌, ◌<◌, drop, IfOk};
ghost use Rattle.mon_frag.specs.declared.header.TheConstants.{PIECE_HEADER};
ghost use Rattle.mon_frag.specs.Headers.{fields_of, formed, header_of, is_piece};

use crate::cutting::DATAGRAM;
use crate::refused::FragRefused;
use mon_bytes::{Cursor, MOST_MESSAGE};
use mon_types::GREATEST;

/// The byte with which a piece begins. No message begins with it.
pub const PIECE: u8 = 2;

/// How many bytes of a piece come before those of its message.
pub const PIECE_HEADER: usize = 28;

/// The most bytes of a message that a piece has.
pub const PART: u32 = 59_000;

/// The least bytes of a message that is cut.
const LEAST: u32 = DATAGRAM as u32 + 1;

/// The header of a piece: of the message that these two numbers name, which has `total` bytes, it has those from `place` on.
#[derive(Clone, Copy)]
pub struct Header {
    pub zero_1: u8,
    pub zero_2: u8,
    pub zero_3: u8,
    pub boot: u64,
    pub seq: u64,
    pub total: u32,
    pub place: u32,
}

/// The fields of a header. One that doesn't fit is `Cut`.
#[tactic(auto, unfolding(crate::specs::Headers::fields_at))]
fn read_fields(datagram: &[u8]) -> Result<Header, FragRefused>
    ensures { result ≡ fields_of datagram.now }
{
    let mut cursor = Cursor::new(datagram);
    let _mark = cursor.take_u8()?;
    let zero_1 = cursor.take_u8()?;
    let zero_2 = cursor.take_u8()?;
    let zero_3 = cursor.take_u8()?;
    let boot = cursor.take_u64()?;
    let seq = cursor.take_u64()?;
    let total = cursor.take_u32()?;
    let place = cursor.take_u32()?;
    Ok(Header {
        zero_1,
        zero_2,
        zero_3,
        boot,
        seq,
        total,
        place,
    })
}

/// Whether the fields have their form, given that this many bytes follow them. The first that hasn't is named by
/// `Form`.
fn check(count: usize, header: Header) -> Result<Header, FragRefused>
    ensures form { result ≡ formed count header }
    ensures within { IfOk result (λ h. h.place < h.total) }
{
    let Header {
        boot,
        seq,
        total,
        place,
        ..
    } = header;
    if header.zero_1 != 0 {
        return Err(FragRefused::Form { at: 1 });
    }
    if header.zero_2 != 0 {
        return Err(FragRefused::Form { at: 2 });
    }
    if header.zero_3 != 0 {
        return Err(FragRefused::Form { at: 3 });
    }
    if boot > GREATEST {
        return Err(FragRefused::Form { at: 4 });
    }
    if seq > GREATEST {
        return Err(FragRefused::Form { at: 12 });
    }
    if total < LEAST || total as usize > MOST_MESSAGE {
        return Err(FragRefused::Form { at: 20 });
    }
    if place % PART != 0 || place >= total {
        return Err(FragRefused::Form { at: 24 });
    }
    if count != PART.min(total - place) as usize {
        return Err(FragRefused::Form { at: 28 });
    }
    Ok(header)
}

/// Whether a datagram is a piece of a long message.
pub fn is_piece(datagram: &[u8]) -> bool
    ensures { result ≡ is_piece datagram.now }
{
    match datagram {
        [first, ..] => *first == PIECE,
        [] => false,
    }
}

/// The bytes of its message that a piece has.
#[tactic(auto, using(std::proofs::lemmas::List::drop_min))]
pub fn piece_payload(datagram: &[u8]) -> &[u8]
    ensures { result.now ≡ drop PIECE_HEADER datagram.now }
{
    let (_, bytes) = datagram.split_at(PIECE_HEADER.min(datagram.len()));
    bytes
}

/// The header of a piece. A refusal names the first field that doesn't fit or isn't as it is in a piece.
pub fn read_header(datagram: &[u8]) -> Result<Header, FragRefused>
    ensures header { result ≡ header_of datagram.now }
    ensures within { IfOk result (λ h. h.place < h.total) }
{
    let header = read_fields(datagram)?;
    check(piece_payload(datagram).len(), header)
}
