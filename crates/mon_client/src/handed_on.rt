//! Commands that a peon forwards to its leader, and the leader's answers.

ghost use Rattle.std.specs.Prelude.{◌≡◌, ◌&&◌, ◌==◌, ◌++◌, not, nat_lt, filter, map, IfOk, slice_set, slice_index_or};
ghost use Rattle.mon_msg.specs.Protocol.Commands.{hear_forward, hear_route};
ghost use Rattle.mon_msg.specs.Protocol.Phases.{is_leading, is_peon};
ghost use Rattle.mon_msg.specs.Protocol.Readings.{epoch_of, readings_of};
ghost use Rattle.mon_msg.specs.declared.plan.Sent.TheVariants as sent;
ghost use Rattle.mon_types.specs.Ranks.{has};
ghost use Rattle.mon_plan.specs.Leaves.{Leaves};
ghost use Rattle.mon_client.specs.Rows.{ByRow};

use crate::commands::at_leader;
use crate::here::Here;
use mon_bytes::{Command, Items, OutOfMemory};
use mon_msg::plan::Sent;
use mon_msg::{Asked, Clients, Origin, Plan, Reply, RoleStop};
use mon_plan::{sending, stay};
use mon_types::{Epoch, Rank};
use std::alloc::Global;

/// Whether a message of an epoch is of a member of the quorum that the monitor leads.
fn is_of_member(here: &Here<'_>, from: Rank, epoch: Epoch) -> bool
    ensures { result ≡
        (is_leading here.now.view.now.phase && epoch == epoch_of (readings_of here.now.kv.now)
        && has here.now.view.now.quorum from) }
{
    here.view.phase.is_leading() && epoch == here.epoch() && here.view.quorum.has(from)
}

/// Whether a message of an epoch is of the leader that the monitor follows.
fn is_of_leader(here: &Here<'_>, from: Rank, epoch: Epoch) -> bool
    ensures { result ≡
        (is_peon here.now.view.now.phase && epoch == epoch_of (readings_of here.now.kv.now)
        && from == here.now.view.now.leader) }
{
    here.view.phase.is_peon() && epoch == here.epoch() && from == here.view.leader
}

/// Whether a command of a peon wasn't taken before.
fn is_new(clients: &Clients, from: Rank, seq: u64) -> bool
    ensures { result ≡ nat_lt (slice_index_or clients.now.taken from 0) seq }
{
    clients.taken[from.get() as usize] < seq
}

/// A command of a peon is taken.
fn mark_taken(mut clients: Clients, from: Rank, seq: u64) -> Clients
    ensures { result ≡ record clients { taken = slice_set clients.taken from seq } }
{
    clients.taken[from.get() as usize] = seq;
    clients
}

/// A peon forwards a command. It counts once: a command whose number isn't above those before is dropped.
pub(crate) fn forward(
    here: &Here<'_>,
    clients: Clients,
    from: Rank,
    epoch: Epoch,
    seq: u64,
    command: &Command,
) -> Result<Plan<Clients>, RoleStop>
    ensures plans { ByRow here.now clients
        (hear_forward here.now.me.now here.now.time from epoch seq command.now) result }
    ensures leaves { IfOk result (λ plan. Leaves here.now.view.now.phase plan.next plan.tx) }
{
    if !is_of_member(here, from, epoch) {
        return Ok(stay(here.alloc, clients));
    }
    if !is_new(&clients, from, seq) {
        return Ok(stay(here.alloc, clients));
    }
    let command = command.copy(here.alloc)?;
    let origin = Origin::Forwarded { rank: from, seq };
    at_leader(here, mark_taken(clients, from, seq), command, origin)
}

/// The clients that wait under other numbers.
fn others(alloc: Global, sessions: &[Asked], seq: u64) -> Result<Items<Asked>, OutOfMemory>
    ensures { IfOk result (λ kept. kept ≡ filter (λ a. not (a.seq == seq)) sessions.now) }
{
    let mut kept = Items::new(alloc);
    for asked in sessions {
        if asked.seq == seq {
            continue;
        }
        kept.push(*asked)?;
    }
    Ok(kept)
}

/// The answer to each client that waits under a number.
fn replies(
    alloc: Global,
    sessions: &[Asked],
    seq: u64,
    reply: &Reply,
) -> Result<Items<Sent>, OutOfMemory>
    ensures { IfOk result
        (λ out. out ≡ map (λ a. sent.Reply a.session reply.now) (filter (λ a. a.seq == seq) sessions.now)) }
{
    let mut out = Items::new(alloc);
    for asked in sessions {
        if asked.seq != seq {
            continue;
        }
        out.push(Sent::Reply {
            to: asked.session,
            reply: reply.copy(alloc)?,
        })?;
    }
    Ok(out)
}

/// The leader answers a command that was forwarded.
pub(crate) fn route(
    here: &Here<'_>,
    mut clients: Clients,
    from: Rank,
    epoch: Epoch,
    seq: u64,
    reply: &Reply,
) -> Result<Plan<Clients>, RoleStop>
    ensures plans { ByRow here.now clients (hear_route from epoch seq reply.now) result }
    ensures leaves { IfOk result (λ plan. Leaves here.now.view.now.phase plan.next plan.tx) }
{
    if !is_of_leader(here, from, epoch) {
        return Ok(stay(here.alloc, clients));
    }
    let sessions = clients.sessions.as_slice();
    let out = replies(here.alloc, sessions, seq, reply)?;
    let kept = others(here.alloc, sessions, seq)?;
    clients.sessions = kept;
    Ok(sending(here.alloc, out, clients))
}
