//! Commands at a leader, and at a peon.

ghost use Rattle.std.specs.Prelude.{◌≡◌, ◌<◌, ◌&&◌, ◌∷◌, true, length, IfOk};
ghost use Rattle.mon_msg.specs.Protocol.Commands.{at_leader, at_peon, ask, propose_due};
ghost use Rattle.mon_msg.specs.Protocol.Phases.{same_phase, is_peon};
ghost use Rattle.mon_msg.specs.declared.limits.TheConstants.{MOST_WAITING};
ghost use Rattle.mon_wire.specs.declared.phase.Phase.TheVariants.{Active};
ghost use Rattle.mon_plan.specs.Leaves.{Leaves};
ghost use Rattle.mon_client.specs.Rows.{ByRow, ByRowOnce};

use crate::answers::{answered, is_too_long, too_long};
use crate::here::Here;
use crate::proposals::propose;
use mon_bytes::{Command, Items};
use mon_msg::plan::Sent;
use mon_msg::{
    Asked, Body, Clients, MOST_WAITING, Origin, Phase, Plan, Reply, RoleStop, Session, View,
    Waiting,
};
use mon_plan::{message, stay};
use mon_types::{GREATEST, Which};

fn busy() -> Reply
    ensures { result ≡ Reply.Busy MOST_WAITING }
{
    Reply::Busy {
        waiting: MOST_WAITING,
    }
}

/// Whether a command may be proposed now.
fn may_propose(view: &View) -> bool
    ensures { result ≡ (same_phase view.now.phase Active && view.now.standing) }
{
    matches!(view.phase, Phase::Active) && view.standing
}

/// A leader proposes a command if it may and no other command waits. Otherwise the command queues after the others. It
/// is refused if it is too long, or if `MOST_WAITING` commands wait.
pub(crate) fn at_leader(
    here: &Here<'_>,
    mut clients: Clients,
    command: Command,
    origin: Origin,
) -> Result<Plan<Clients>, RoleStop>
    ensures plans { ByRowOnce here.now clients (at_leader here.now.me.now here.now.time command origin) result }
    ensures leaves { IfOk result (λ plan. Leaves here.now.view.now.phase plan.next plan.tx) }
{
    if is_too_long(&command) {
        let sent = here.answer(origin, too_long(&command));
        drop(command);
        return Ok(answered(here.alloc, clients, sent)?);
    }
    if may_propose(here.view) && clients.queue.is_empty() {
        let plan = propose(here, clients, &command, origin);
        drop(command);
        return plan;
    }
    if clients.queue.len() as u64 >= MOST_WAITING {
        drop(command);
        let sent = here.answer(origin, busy());
        return Ok(answered(here.alloc, clients, sent)?);
    }
    clients.queue.push(Waiting { command, origin })?;
    Ok(stay(here.alloc, clients))
}

/// A peon forwards a command to its leader, and its client waits under the next number. The command is refused if it is
/// too long, or if `MOST_WAITING` clients wait. `Spent` names the number if it would pass 2^62.
fn at_peon(
    here: &Here<'_>,
    mut clients: Clients,
    command: Command,
    session: Session,
) -> Result<Plan<Clients>, RoleStop>
    requires { is_peon here.now.view.now.phase ≡ true }
    ensures plans { ByRowOnce here.now clients (at_peon here.now.me.now command session) result }
    ensures leaves { IfOk result (λ plan. Leaves here.now.view.now.phase plan.next plan.tx) }
{
    if is_too_long(&command) {
        let reply = too_long(&command);
        drop(command);
        return Ok(answered(here.alloc, clients, Sent::Reply { to: session, reply })?);
    }
    if clients.sessions.len() as u64 >= MOST_WAITING {
        drop(command);
        let reply = busy();
        return Ok(answered(here.alloc, clients, Sent::Reply { to: session, reply })?);
    }
    let seq = clients.next_seq;
    if seq > GREATEST {
        drop(clients);
        drop(command);
        return Err(RoleStop::Spent { which: Which::Seq });
    }
    clients.sessions.push(Asked { seq, session })?;
    clients.next_seq = seq + 1;
    let forward = Body::Forward { seq, command };
    let sent = message(here.me, here.epoch(), forward, here.view.leader);
    Ok(answered(here.alloc, clients, sent)?)
}

/// A client's command. A leader proposes or queues it, a peon forwards it, and any other monitor is unavailable.
pub(crate) fn ask(
    here: &Here<'_>,
    clients: Clients,
    session: Session,
    command: Command,
) -> Result<Plan<Clients>, RoleStop>
    ensures plans { ByRow here.now clients (ask here.now.me.now here.now.time session command) result }
    ensures leaves { IfOk result (λ plan. Leaves here.now.view.now.phase plan.next plan.tx) }
{
    if here.view.phase.is_leading() {
        let origin = Origin::Session(session);
        return at_leader(here, clients, command, origin);
    }
    if here.view.phase.is_peon() {
        return at_peon(here, clients, command, session);
    }
    drop(command);
    let reply = Reply::Unavailable;
    Ok(answered(here.alloc, clients, Sent::Reply { to: session, reply })?)
}

/// The command that waits first, and the others.
fn take_first(mut clients: Clients) -> (Waiting, Clients)
    requires { 0 < length clients.queue }
    ensures { clients ≡ record result.1 { queue = result.0 ∷ result.1.queue } }
{
    let mut waiting = clients.queue.into_vec();
    let first = waiting.remove(0);
    clients.queue = Items::from_vec(waiting);
    (first, clients)
}

/// The first command that waits is proposed, if one may be.
pub(crate) fn propose_due(here: &Here<'_>, clients: Clients) -> Result<Plan<Clients>, RoleStop>
    ensures plans { ByRow here.now clients (propose_due here.now.me.now here.now.time) result }
    ensures leaves { IfOk result (λ plan. Leaves here.now.view.now.phase plan.next plan.tx) }
{
    if !may_propose(here.view) {
        return Ok(stay(here.alloc, clients));
    }
    if clients.queue.is_empty() {
        return Ok(stay(here.alloc, clients));
    }
    let (first, clients) = take_first(clients);
    let Waiting { command, origin } = first;
    let plan = propose(here, clients, &command, origin);
    drop(command);
    plan
}
