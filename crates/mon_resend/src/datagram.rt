//! Which part of its message a datagram is.

ghost use Rattle.std.specs.Prelude.{◌≡◌};
ghost use Rattle.mon_resend.specs.Datagrams.{part_of, piece_in};

use mon_decode::{Header, read_header};
use mon_frag::{PART, is_whole, piece_payload};

/// A piece of a long message that isn't the first one. The two numbers distinguish the message from others of its sender.
#[derive(Clone, Copy)]
pub struct Piece {
    pub boot: u64,
    pub seq: u64,
    pub is_last: bool,
}

/// Which part of its message a datagram is.
#[derive(Clone, Copy)]
pub enum Part {
    /// The whole message.
    Whole(Header),
    /// The first piece of a message of this many bytes.
    First(Header, u32),
    Later(Piece),
}

fn read_piece(datagram: &[u8]) -> Option<Part>
    ensures { result ≡ piece_in datagram.now }
{
    let Ok(piece) = mon_frag::read_header(datagram) else {
        return None;
    };
    if piece.place != 0 {
        return Some(Part::Later(Piece {
            boot: piece.boot,
            seq: piece.seq,
            is_last: piece.total - piece.place <= PART,
        }));
    }
    match read_header(piece_payload(datagram)) {
        Some(header) => Some(Part::First(header, piece.total)),
        None => None,
    }
}

/// Which part of a message a datagram is, or `None` if its header can't be read.
pub fn part_of(datagram: &[u8]) -> Option<Part>
    ensures { result ≡ part_of datagram.now }
{
    if !is_whole(datagram) {
        return read_piece(datagram);
    }
    match read_header(datagram) {
        Some(header) => Some(Part::Whole(header)),
        None => None,
    }
}
