ghost use Rattle.std.specs.Prelude.{◌≡◌, ◌++◌, IfOk, OnOk, take, drop};
ghost use Rattle.mon_name.specs.Numbers.{renumbered};

use crate::life::Life;
use mon_bytes::{Bytes, Out, OutOfMemory};
use mon_frag::is_piece;
use std::alloc::Global;

/// The bytes of a piece before its sender's boot.
#[tactic(auto, using(std::proofs::lemmas::List::take_min))]
fn before_boot(piece: &[u8]) -> &[u8]
    ensures { result.now ≡ take 4 piece.now }
{
    let (first, _) = piece.split_at(piece.len().min(4));
    first
}

/// The bytes of a piece after its sender's boot.
#[tactic(auto, using(std::proofs::lemmas::List::drop_min))]
fn after_boot(piece: &[u8]) -> &[u8]
    ensures { result.now ≡ drop 12 piece.now }
{
    let (_, rest) = piece.split_at(piece.len().min(12));
    rest
}

/// Appends a datagram, in which the number of a life replaces the sender's boot if it is a piece of a long message.
#[tactic(auto, unfolding(mon_frag::specs::Pieces::u64_bytes))]
pub(crate) fn put_renumbered(out: &mut Out, life: Life, datagram: &[u8]) -> Result<(), OutOfMemory>
    ensures { OnOk result (out.new ≡ out.old ++ renumbered life datagram.now) }
{
    if !is_piece(datagram) {
        return out.put_bytes(datagram);
    }
    out.put_bytes(before_boot(datagram))?;
    out.put_u64(life.get())?;
    out.put_bytes(after_boot(datagram))
}

/// A datagram, in which the number of a life replaces the sender's boot if it is a piece of a long message.
pub fn renumbered(alloc: Global, life: Life, datagram: &[u8]) -> Result<Bytes, OutOfMemory>
    ensures { IfOk result (λ bytes. bytes ≡ renumbered life datagram.now) }
{
    let mut out = Out::with_capacity(alloc, datagram.len())?;
    put_renumbered(&mut out, life, datagram)?;
    Ok(Bytes::new(out.into_bytes()))
}
