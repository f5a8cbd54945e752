//! Messages to several monitors, in ascending order of their ranks.

ghost use Rattle.std.specs.Prelude.{◌≡◌, ◌++◌, ◌==◌, ◌&&◌, not, map, IfOk, OnOk};
ghost use Rattle.mon_types.specs.Ranks.{has};
ghost use Rattle.mon_msg.specs.Protocol.Sending.{members, others, message_to, answer_to};

use crate::plans::message;
use mon_bytes::{Items, OutOfMemory};
use mon_msg::plan::Sent;
use mon_msg::{Body, Me, Origin, Reply};
use mon_types::{Epoch, Rank, RankSet};
use std::alloc::Global;

/// Whether the rank is another monitor's, and is in the set.
fn is_member(me: &Me, quorum: RankSet, rank: Rank) -> bool
    ensures { result ≡ (has quorum rank && not (rank == me.now.member.rank)) }
{
    quorum.has(rank) && rank != me.member.rank
}

/// Whether the rank is another monitor's.
fn is_other(me: &Me, rank: Rank) -> bool
    ensures { result ≡ not (rank == me.now.member.rank) }
{
    rank != me.member.rank
}

/// The ranks of a set without the own one, ascending.
pub fn members(alloc: Global, me: &Me, quorum: RankSet) -> Result<Vec<Rank>, OutOfMemory>
    ensures { IfOk result (λ ranks. ranks.items ≡ members me.now quorum) }
{
    let mut ranks = Vec::new(alloc);
    for r in 0..me.member.monitors {
        let rank = Rank::known(r);
        if !is_member(me, quorum, rank) {
            continue;
        }
        ranks.push(rank)?;
    }
    Ok(ranks)
}

/// All ranks of the map without the own one, ascending.
pub fn others(alloc: Global, me: &Me) -> Result<Vec<Rank>, OutOfMemory>
    ensures { IfOk result (λ ranks. ranks.items ≡ others me.now) }
{
    let mut ranks = Vec::new(alloc);
    for r in 0..me.member.monitors {
        let rank = Rank::known(r);
        if !is_other(me, rank) {
            continue;
        }
        ranks.push(rank)?;
    }
    Ok(ranks)
}

/// Appends one message per rank, all with the same body. The body is copied once per rank.
pub fn send_each(
    alloc: Global,
    out: &mut Items<Sent>,
    me: &Me,
    epoch: Epoch,
    ranks: &[Rank],
    body: &Body,
) -> Result<(), OutOfMemory>
    ensures { OnOk result (out.new ≡ out.old ++ map (message_to me.now epoch body.now) ranks.now) }
{
    for rank in ranks {
        out.push(message(me, epoch, body.copy(alloc)?, *rank))?;
    }
    Ok(())
}

/// The answer to whoever waits for it: to a client here, or by way of the peon that handed the command on.
pub fn answer(me: &Me, epoch: Epoch, origin: Origin, reply: Reply) -> Sent
    ensures { result ≡ answer_to me.now epoch origin reply }
{
    match origin {
        Origin::Session(session) => Sent::Reply { to: session, reply },
        Origin::Forwarded { rank, seq } => message(me, epoch, Body::Route { seq, reply }, rank),
    }
}
