//! What a leader does when members accept its value and take its leases.

ghost use Rattle.std.specs.Prelude.{◌≡◌, ℕ, suc, ◌≤◌, ◌==◌, ◌&&◌, [], ◌∷◌, ◌++◌, length, map, true, None, Some, IfOk};
ghost use Rattle.mon_msg.specs.Protocol.Leader.{commit_any as commits_any, hear_accept as accept_row, hear_lease_ack as ack_row};
ghost use Rattle.mon_msg.specs.Protocol.Leading.{commit as commits};
ghost use Rattle.mon_msg.specs.Protocol.Readings.{readings_of, epoch_of};
ghost use Rattle.mon_msg.specs.Protocol.Sending.{answers_to, members as members_of, message_to};
ghost use Rattle.mon_msg.specs.Protocol.Sets.{are_within as within};
ghost use Rattle.mon_msg.specs.declared.plan.Arming.TheVariants as arming;
ghost use Rattle.mon_tx.specs.Map.{apply};
ghost use Rattle.mon_tx.specs.Text.{text, most};
ghost use Rattle.mon_types.specs.Ranks.{with_rank};
ghost use Rattle.mon_wire.specs.declared.phase.Phase.TheVariants as phase;
ghost use Rattle.mon_plan.specs.Plans.{PlansRow, leads};
ghost use Rattle.paxos_leader.specs.Drafts.{ActsOn, GoesOn, IsHere, IsVoted};
ghost use Rattle.paxos_leader.specs.Inputs.{may_begin_any};
ghost use Rattle.paxos_leader.specs.Parts.{announced, without_value};
ghost use Rattle.paxos_leader.specs.Rows.{ByRow, IsHeard};

use crate::acts::be_active;
use crate::draft::{Draft, send_to_members};
use crate::seen::Act;
use crate::sets::are_within;
use mon_bytes::{Items, OutOfMemory};
use mon_msg::plan::Sent;
use mon_msg::{Body, Leader, Me, Next, Origin, Plan, Reply, RoleStop, Timer};
use mon_plan::{answer, disarmed, learn, one, stay};
use mon_stored::{Here, Stored};
use mon_tx::Transaction;
use mon_types::{Epoch, Pn, Rank, RankSet, Version, Which};
use std::alloc::Global;

/// Appends the answer `Done` for a version to what a plan sends, if it has an origin.
fn answered(
    act: &Act<'_>,
    origin: Option<Origin>,
    version: Version,
    plan: Plan<Leader>,
) -> Result<Plan<Leader>, OutOfMemory>
    ensures { IfOk result (λ p.
        p ≡ record plan { out = plan.out ++ answers_to act.now.me.now act.now.epoch origin (Reply.Done version) }) }
{
    match origin {
        None => Ok(plan),
        Some(origin) => {
            let mut plan = plan;
            plan.out
                .push(answer(act.me, act.epoch, origin, Reply::Done { version }))?;
            Ok(plan)
        }
    }
}

/// The leader's state without its value and the value's origin.
fn without_value(mut state: Leader) -> Leader
    ensures { result ≡ without_value state }
{
    state.value = None;
    state.origin = None;
    state
}

/// A COMMIT with these values for each other member of the quorum.
fn send_commit(
    act: &Act<'_>,
    quorum: RankSet,
    from: Version,
    values: Items<Transaction>,
) -> Result<Items<Sent>, OutOfMemory>
    ensures { IfOk result (λ sent. sent ≡ map (message_to act.now.me.now act.now.epoch (Body.Commit from values))
        (members_of act.now.me.now quorum)) }
{
    let commit = Body::Commit { from, values };
    send_to_members(act, Items::new(act.alloc), quorum, commit)
}

/// Sends committed values to the other members, gives them a lease, and answers the origin of the first value.
fn announce(
    act: &Act<'_>,
    last: Version,
    tx: Transaction,
    state: Leader,
    version: Version,
    values: Items<Transaction>,
) -> Result<Plan<Leader>, OutOfMemory>
    ensures goes { IfOk result (λ p.
        ActsOn act.now (IsHere act.now.epoch last) (record { tx = tx; out = []; state = state })
        (λ me now. announced me now version values) (Ok p)) }
    ensures stays { IfOk result (λ p. p.next ≡ Next.Stay) }
{
    let origin = state.origin;
    let out = send_commit(act, state.quorum, version, values)?;
    let state = without_value(state);
    let draft = Draft { tx, out, state };
    let plan = be_active(act, last, draft)?;
    Ok(answered(act, origin, version, plan)?)
}

/// The same as `announce`, with the epoch and the last version that the store has after the changes so far.
fn announce_after(
    here: &Here<'_>,
    tx: Transaction,
    state: Leader,
    version: Version,
    values: Items<Transaction>,
) -> Result<Plan<Leader>, OutOfMemory>
    ensures goes { IfOk result
        (λ p. GoesOn here.now.me.now here.now.time
        (IsHere (epoch_of (readings_of (apply tx here.now.kv.now))) (readings_of (apply tx here.now.kv.now)).last)
        (record { tx = tx; out = []; state = state }) (announced here.now.me.now here.now.time version values) (Ok p)) }
    ensures stays { IfOk result (λ p. p.next ≡ Next.Stay) }
{
    let (epoch, last) = epoch_and_last(here, &tx)?;
    let act = Act::of(here, epoch);
    announce(&act, last, tx, state, version, values)
}

/// The epoch and the last version after changes.
fn epoch_and_last(here: &Here<'_>, tx: &Transaction) -> Result<(Epoch, Version), OutOfMemory>
    ensures { IfOk result (λ epoch_and_last.
        epoch_and_last ≡ (
          epoch_of (readings_of (apply tx.now here.now.kv.now)),
          (readings_of (apply tx.now here.now.kv.now)).last,
        )) }
{
    let stored = Stored::after(here.alloc, here.kv, tx)?;
    Ok((stored.epoch(), stored.last()))
}

/// Commits a value that all of the quorum accepted. The leader then has no value. `accepted` stays as it is until the
/// next value is begun.
fn commit(here: &Here<'_>, state: Leader, value: Transaction) -> Result<Plan<Leader>, RoleStop>
    requires { length (text value) ≤ most }
    ensures goes { GoesOn here.now.me.now here.now.time (IsVoted (readings_of here.now.kv.now))
        (record { tx = []; out = []; state = record state { value = Some value } })
        (commits here.now.me.now here.now.time value) result }
    ensures stays { IfOk result (λ p. p.next ≡ Next.Stay) }
{
    let Some(version) = here.own_last().plus_one() else {
        drop(state);
        drop(value);
        return Err(RoleStop::Spent {
            which: Which::Version,
        });
    };
    let values = one(here.alloc, value)?;
    let mut tx = Transaction::new(here.alloc);
    match learn(&mut tx, version.get(), values.as_slice()) {
        Ok(()) => {}
        Err(stop) => {
            drop(state);
            return Err(stop);
        }
    }
    Ok(announce_after(here, tx, state, version, values)?)
}

/// Takes the value out of the leader's state.
fn take_value(mut state: Leader) -> (Leader, Option<Transaction>)
    ensures { result ≡ (record state { value = None }, state.value) }
{
    let value = state.value.take();
    (state, value)
}

/// Commits the leader's value, which all of the quorum accepted. A leader without a value does nothing.
fn commit_any(here: &Here<'_>, state: Leader) -> Result<Plan<Leader>, RoleStop>
    requires { may_begin_any state.value ≡ true }
    ensures goes { GoesOn here.now.me.now here.now.time (IsVoted (readings_of here.now.kv.now))
        (record { tx = []; out = []; state = state })
        (commits_any here.now.me.now here.now.time state.value) result }
    ensures stays { IfOk result (λ p. p.next ≡ Next.Stay) }
{
    let (state, value) = take_value(state);
    match value {
        None => Ok(stay(here.alloc, state)),
        Some(value) => commit(here, state, value),
    }
}

/// The leader's state with one more member that accepted its value.
fn with_vote(mut state: Leader, from: Rank) -> Leader
    ensures { result ≡ record state { accepted = with_rank state.accepted from } }
{
    state.accepted = state.accepted.with(from);
    state
}

/// Whether all of the quorum accepted the leader's value.
fn all_accepted(me: &Me, state: &Leader) -> bool
    ensures { result ≡ within me.now.member.monitors state.now.quorum state.now.accepted }
{
    are_within(me, state.quorum, state.accepted)
}

/// Whether an ACCEPT is for the value under way: under the leader's number, for the version after the last one.
fn is_asked(here: &Here<'_>, state: &Leader, pn: Pn, version: Version) -> bool
    ensures { result ≡ (pn == state.now.pn && version == suc (readings_of here.now.kv.now).last) }
{
    pn.get() == state.pn.get() && version.get() == here.own_last().get() + 1
}

/// Notes a member's ACCEPT, if it is for the value under way. The value is committed once all of the quorum accepted
/// it.
pub(crate) fn hear_accept(
    here: &Here<'_>,
    state: Leader,
    from: Rank,
    pn: Pn,
    version: Version,
) -> Result<Plan<Leader>, RoleStop>
    requires { may_begin_any state.value ≡ true }
    ensures plans { (e : ℕ) →
        ByRow here.now (IsHeard (phase.Previous ∷ phase.Updating ∷ []) from e (readings_of here.now.kv.now) state)
        (λ me now. accept_row me now from e pn version) result }
    ensures stays { IfOk result (λ p. p.next ≡ Next.Stay) }
{
    if !is_asked(here, &state, pn, version) {
        return Ok(stay(here.alloc, state));
    }
    let state = with_vote(state, from);
    if !all_accepted(here.me, &state) {
        return Ok(stay(here.alloc, state));
    }
    commit_any(here, state)
}

/// The leader's state with one more member that took its lease.
fn with_ack(mut state: Leader, from: Rank) -> Leader
    ensures { result ≡ record state { acks = with_rank state.acks from } }
{
    state.acks = state.acks.with(from);
    state
}

/// The plan once all of the quorum took the lease: it disarms `LeaseAck`, and does nothing else.
fn all_acked(alloc: Global, state: Leader) -> Result<Plan<Leader>, OutOfMemory>
    ensures { IfOk result (λ p. p ≡ record {
      tx = [];
      out = [];
      timers = arming.Disarm Timer.LeaseAck ∷ [];
      state = state;
      next = Next.Stay;
    }) }
{
    let timers = one(alloc, disarmed(Timer::LeaseAck))?;
    Ok(Plan {
        tx: Transaction::new(alloc),
        out: Items::new(alloc),
        timers,
        state,
        next: Next::Stay,
    })
}

/// Notes the LEASE_ACK of a member, if it is for the last version.
pub(crate) fn hear_lease_ack(
    here: &Here<'_>,
    state: Leader,
    from: Rank,
    last: Version,
) -> Result<Plan<Leader>, RoleStop>
    ensures plans { (now e : ℕ) →
        PlansRow here.now.me.now now leads (IsHeard (phase.Active ∷ []) from e (readings_of here.now.kv.now) state)
        (ack_row here.now.me.now from e last) result }
    ensures stays { IfOk result (λ p. p.next ≡ Next.Stay) }
{
    let own = here.own_last();
    if last.get() != own.get() {
        return Ok(stay(here.alloc, state));
    }
    let state = with_ack(state, from);
    if !are_within(here.me, state.quorum, state.acks) {
        return Ok(stay(here.alloc, state));
    }
    Ok(all_acked(here.alloc, state)?)
}
