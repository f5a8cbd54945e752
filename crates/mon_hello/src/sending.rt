//! Sending hellos. A hello whose send fails isn't repeated: the next round follows.

ghost use Rattle.std.specs.Prelude.{◌≡◌, ◌++◌, ◌∷◌, [], if◌then◌else◌};
ghost use Rattle.mon_link.specs.Layers.{Grows};
ghost use Rattle.mon_hello.specs.Histories.{AreSent};
ghost use Rattle.mon_hello.specs.Greets.{SendsAll, answer, hellos_to, outgoing, round, to_other};

use crate::own::Own;
use mon_link::{Link, Peer};
use mon_types::{Member, Rank, Stop};

/// Sends a hello.
fn send_one<L: Link>(link: &mut L, to: Peer, bytes: &[u8]) -> Result<(), Stop>
    ensures sends { SendsAll (outgoing to bytes.now ∷ []) result (L.state link.old) (L.state link.new) }
    ensures grows { Grows (L.history link.old) (AreSent (outgoing to bytes.now ∷ []) result) (L.history link.new) }
{
    match link.send(to, bytes) {
        Ok(()) | Err(Stop::Failed) => Ok(()),
        Err(Stop::OutOfMemory) => Err(Stop::OutOfMemory),
    }
}

/// Greets a monitor, unless it is one's own.
fn greet_one<L: Link>(link: &mut L, own: Rank, to: Rank, bytes: &[u8]) -> Result<(), Stop>
    ensures sends { SendsAll (to_other own to bytes.now) result (L.state link.old) (L.state link.new) }
    ensures grows { Grows (L.history link.old) (AreSent (to_other own to bytes.now) result) (L.history link.new) }
{
    if to == own {
        return Ok(());
    }
    send_one(link, Peer::Monitor(to), bytes)
}

/// Greets each other monitor.
fn greet_all<L: Link>(link: &mut L, member: Member, bytes: &[u8]) -> Result<(), Stop>
    ensures sends { SendsAll (round member.rank member.monitors bytes.now) result (L.state link.old) (L.state link.new) }
    ensures grows { Grows (L.history link.old) (AreSent (round member.rank member.monitors bytes.now) result)
        (L.history link.new) }
{
    for rank in 0..member.monitors {
        greet_one(link, member.rank, Rank::known(rank), bytes)?;
    }
    Ok(())
}

/// Answers a client, if one asked.
fn answer_one<L: Link>(link: &mut L, asker: Option<u32>, bytes: &[u8]) -> Result<(), Stop>
    ensures sends { SendsAll (answer bytes.now asker) result (L.state link.old) (L.state link.new) }
    ensures grows { Grows (L.history link.old) (AreSent (answer bytes.now asker) result) (L.history link.new) }
{
    match asker {
        Some(client) => send_one(link, Peer::Client(client), bytes),
        None => Ok(()),
    }
}

fn greet_if<L: Link>(link: &mut L, own: &Own, due: bool) -> Result<(), Stop>
    ensures sends { SendsAll (if due then round own.now.member.rank own.now.member.monitors own.now.datagram else []) result
        (L.state link.old) (L.state link.new) }
    ensures grows { Grows (L.history link.old)
        (AreSent (if due then round own.now.member.rank own.now.member.monitors own.now.datagram else []) result)
        (L.history link.new) }
{
    if due {
        greet_all(link, own.member, own.datagram.as_slice())
    } else {
        Ok(())
    }
}

/// Answers a client, if one asked that is answered now, and greets each other monitor, if a round is due. The only error is that memory ran
/// out.
pub(crate) fn greet<L: Link>(
    link: &mut L,
    own: &Own,
    asker: Option<u32>,
    due: bool,
) -> Result<(), Stop>
    ensures sends { SendsAll
        (answer own.now.answer asker
        ++ (if due then round own.now.member.rank own.now.member.monitors own.now.datagram else []))
        result (L.state link.old) (L.state link.new) }
    ensures grows { Grows (L.history link.old) (AreSent (hellos_to own.now asker due) result) (L.history link.new) }
{
    answer_one(link, asker, own.answer.as_slice())?;
    greet_if(link, own, due)
}
