ghost use Rattle.std.specs.Prelude.{◌≡◌, ◌+◌, ◌*◌, ◌≤◌, ◌<◌, ◌++◌, length, IfOk, OnOk};
ghost use Rattle.mon_bytes.specs.declared.limits.TheConstants.{MOST_MESSAGE};
ghost use Rattle.mon_frag.specs.Pieces.{u64_bytes, header, part_at, piece, pieces_of, piece_count, cut_up};

use crate::header::{PART, PIECE};
use mon_bytes::{Bytes, Items, Out, OutOfMemory, write_count};
use std::alloc::Global;

/// The most bytes of a datagram. UDP carries up to 65,507.
pub const DATAGRAM: usize = 60_000;

/// How many pieces a message of this many bytes has.
pub(crate) fn count_of(total: usize) -> usize
    ensures { result ≡ piece_count total }
{
    total.div_ceil(PART as usize)
}

#[tactic(auto, unfolding(crate::specs::Pieces::u64_bytes))]
fn put_u64(out: &mut Out, n: u64) -> Result<(), OutOfMemory>
    ensures { OnOk result (out.new ≡ out.old ++ u64_bytes n) }
{
    out.put_u64(n)
}

fn put_header(out: &mut Out, boot: u64, seq: u64, total: u32, place: u32) -> Result<(), OutOfMemory>
    ensures { OnOk result (out.new ≡ out.old ++ header boot seq total place) }
{
    out.put_bytes(&[PIECE, 0, 0, 0])?;
    put_u64(out, boot)?;
    put_u64(out, seq)?;
    write_count(out, total)?;
    write_count(out, place)
}

/// The bytes of a message from a place on that a piece has.
#[tactic(auto, using(std::proofs::lemmas::List::take_min))]
fn part_at(message: &[u8], place: usize) -> &[u8]
    requires { place ≤ length message.now }
    ensures { result.now ≡ part_at message.now place }
{
    let (_, rest) = message.split_at(place);
    let (part, _) = rest.split_at((PART as usize).min(rest.len()));
    part
}

/// The piece from a place on.
fn cut(
    alloc: Global,
    message: &[u8],
    boot: u64,
    seq: u64,
    place: usize,
) -> Result<Bytes, OutOfMemory>
    requires most { length message.now ≤ MOST_MESSAGE }
    requires within { place < length message.now }
    ensures { IfOk result (λ bytes. bytes ≡ piece message.now boot seq place) }
{
    let mut out = Out::new(alloc);
    put_header(&mut out, boot, seq, message.len() as u32, place as u32)?;
    out.put_bytes(part_at(message, place))?;
    Ok(Bytes::new(out.into_bytes()))
}

/// All pieces of a message, in order.
#[tactic(auto, using(crate::proofs::Lists::made_next))]
fn cut_up(alloc: Global, message: &[u8], boot: u64, seq: u64) -> Result<Items<Bytes>, OutOfMemory>
    requires { length message.now ≤ MOST_MESSAGE }
    ensures { IfOk result (λ datagrams. datagrams ≡ cut_up message.now boot seq) }
{
    let mut datagrams = Items::new(alloc);
    for k in 0..count_of(message.len()) {
        datagrams.push(cut(alloc, message, boot, seq, PART as usize * k)?)?;
    }
    Ok(datagrams)
}

/// The datagrams of a message: itself, without a copy, if it has at most 60,000 bytes, and else its pieces, in order. The
/// two numbers distinguish it from the other messages of its sender.
pub fn pieces(
    alloc: Global,
    message: Bytes,
    boot: u64,
    seq: u64,
) -> Result<Items<Bytes>, OutOfMemory>
    requires { length message ≤ MOST_MESSAGE }
    ensures { IfOk result (λ datagrams. datagrams ≡ pieces_of message boot seq) }
{
    if message.as_slice().len() > DATAGRAM {
        return cut_up(alloc, message.as_slice(), boot, seq);
    }
    let mut datagrams = Items::new(alloc);
    datagrams.push(message)?;
    Ok(datagrams)
}
