//! The acts of an active leader: leases, and values that are begun and committed.

ghost use Rattle.std.specs.Prelude.{◌≡◌, ℕ, ◌≤◌, ◌++◌, length, map, None, Some, IfOk};
ghost use Rattle.mon_lease.specs.Lease.{extended};
ghost use Rattle.mon_msg.specs.Protocol.Changes.{Vote, ops_of};
ghost use Rattle.mon_msg.specs.Protocol.Leading.{be_active as active, begin_with as begun_with, begin as begun};
ghost use Rattle.mon_msg.specs.Protocol.Played.{Fits};
ghost use Rattle.mon_msg.specs.Protocol.Sending.{members as members_of, message_to};
ghost use Rattle.mon_msg.specs.Protocol.Sets.{only as only_one};
ghost use Rattle.mon_msg.specs.declared.paxos.LeaderStage.TheVariants as stage;
ghost use Rattle.mon_tx.specs.Text.{text, most};
ghost use Rattle.paxos_leader.specs.Drafts.{ActsOn, CommitsAlone, IsHere};

use crate::draft::{Draft, send_to_members};
use crate::seen::Act;
use crate::sets::{is_alone, leads_alone, only};
use crate::timers::{lease_timers, value_timers};
use mon_bytes::{Items, OutOfMemory};
use mon_lease::Lease;
use mon_msg::plan::Sent;
use mon_msg::{Body, Leader, LeaderStage, Me, Next, Origin, Plan, RoleStop};
use mon_plan::{learn, put_vote};
use mon_tx::Transaction;
use mon_types::{Moment, RankSet, Version, Which};
use std::alloc::Global;

/// The state of an active leader that gives a lease at `now`. Only its own acknowledgement is counted.
fn leasing(me: &Me, mut state: Leader, now: Moment) -> Leader
    ensures { result ≡ record state { stage = stage.Active; lease = extended now; acks = only_one me.now.member.rank } }
{
    let mut lease = Lease::none();
    lease.extend(now);
    state.stage = LeaderStage::Active;
    state.lease = lease;
    state.acks = only(me);
    state
}

/// Appends a LEASE for each other member of the quorum to what was sent so far.
fn send_lease(
    act: &Act<'_>,
    out: Items<Sent>,
    quorum: RankSet,
    last: Version,
) -> Result<Items<Sent>, OutOfMemory>
    ensures { IfOk result (λ sent. sent ≡ out ++ map (message_to act.now.me.now act.now.epoch (Body.Lease last))
        (members_of act.now.me.now quorum)) }
{
    let lease = Body::Lease { last };
    send_to_members(act, out, quorum, lease)
}

/// The leader becomes active, and gives a lease to all other members of its quorum.
pub(crate) fn be_active(
    act: &Act<'_>,
    last: Version,
    draft: Draft,
) -> Result<Plan<Leader>, OutOfMemory>
    ensures goes { IfOk result
        (λ p. ActsOn act.now (IsHere act.now.epoch last) draft (λ me now y. Ok (active me now y)) (Ok p)) }
    ensures stays { IfOk result (λ p. p.next ≡ Next.Stay) }
{
    let Draft { tx, out, state } = draft;
    let out = send_lease(act, out, state.quorum, last)?;
    let timers = lease_timers(act.alloc, is_alone(act.me, state.quorum), act.time)?;
    let state = leasing(act.me, state, act.time);
    Ok(Plan {
        tx,
        out,
        timers,
        state,
        next: Next::Stay,
    })
}

/// The leader's state while its value awaits acceptances. The leader has accepted the value itself.
fn awaiting_votes(
    me: &Me,
    mut state: Leader,
    stage: LeaderStage,
    value: Transaction,
    origin: Option<Origin>,
) -> Leader
    ensures { result ≡ record state {
      stage = stage;
      accepted = only_one me.now.member.rank;
      value = Some value;
      origin = origin;
    } }
{
    state.stage = stage;
    state.accepted = only(me);
    state.value = Some(value);
    state.origin = origin;
    state
}

/// Appends a BEGIN with the value for each other member of the quorum to what was sent so far.
fn ask(
    act: &Act<'_>,
    out: Items<Sent>,
    state: &Leader,
    version: Version,
    value: &Transaction,
) -> Result<Items<Sent>, OutOfMemory>
    ensures { IfOk result (λ sent.
        sent ≡ out ++ map (message_to act.now.me.now act.now.epoch (Body.Begin state.now.pn version value.now))
        (members_of act.now.me.now state.now.quorum)) }
{
    let begin = Body::Begin {
        pn: state.pn,
        version,
        value: value.copy()?,
    };
    send_to_members(act, out, state.quorum, begin)
}

/// The leader votes for a value itself, and sends a BEGIN to each other member. Its state stays the same.
fn put_to_vote(
    act: &Act<'_>,
    draft: Draft,
    version: Version,
    value: &Transaction,
) -> Result<Draft, OutOfMemory>
    requires { length (text value.now) ≤ most }
    ensures draft { IfOk result (λ d. d ≡ record {
      tx = draft.tx ++ ops_of (Vote version draft.state.pn value.now);
      out = draft.out ++ map (message_to act.now.me.now act.now.epoch (Body.Begin draft.state.pn version value.now))
          (members_of act.now.me.now draft.state.quorum);
      state = draft.state;
    }) }
    ensures fit { Fits (Vote version draft.state.pn value.now) }
{
    let Draft { mut tx, out, state } = draft;
    put_vote(&mut tx, version, state.pn, value)?;
    let out = ask(act, out, &state, version, value)?;
    Ok(Draft { tx, out, state })
}

/// Puts a value to the vote. The leader then awaits the acceptances of the other members.
pub(crate) fn begin_with(
    act: &Act<'_>,
    draft: Draft,
    stage: LeaderStage,
    version: Version,
    value: Transaction,
    origin: Option<Origin>,
) -> Result<Plan<Leader>, RoleStop>
    requires { length (text value) ≤ most }
    ensures goes { (last : ℕ) → ActsOn act.now (IsHere act.now.epoch last) draft
        (λ me now y. Ok (begun_with me now stage version value origin y)) result }
    ensures stays { IfOk result (λ p. p.next ≡ Next.Stay) }
{
    let timers = value_timers(act.alloc, act.time)?;
    let asked = put_to_vote(act, draft, version, &value)?;
    let Draft { tx, out, state } = asked;
    Ok(Plan {
        tx,
        out,
        timers,
        state: awaiting_votes(act.me, state, stage, value, origin),
        next: Next::Stay,
    })
}

/// The leader's state with the stage `Active`. Nothing else in it changes.
fn at_rest(mut state: Leader) -> Leader
    ensures { result ≡ record state { stage = stage.Active } }
{
    state.stage = LeaderStage::Active;
    state
}

/// A leader that is alone in its quorum commits a value at once. The caller answers a client that waits for it.
pub(crate) fn commit_alone(
    alloc: Global,
    draft: Draft,
    version: Version,
    value: Transaction,
) -> Result<Plan<Leader>, RoleStop>
    requires short { length (text value) ≤ most }
    requires above { 1 ≤ version }
    ensures alone { CommitsAlone draft version value result }
    ensures stays { IfOk result (λ p. p.next ≡ Next.Stay) }
{
    let Draft { mut tx, out, state } = draft;
    match learn(&mut tx, version.get(), &[value]) {
        Ok(()) => {}
        Err(stop) => {
            drop(state);
            return Err(stop);
        }
    }
    Ok(Plan {
        tx,
        out,
        timers: Items::new(alloc),
        state: at_rest(state),
        next: Next::Stay,
    })
}

/// Begins a value that no client waits for. `Spent` names the version after `last` if it would pass 2^62.
pub(crate) fn begin_value(
    act: &Act<'_>,
    last: Version,
    draft: Draft,
    stage: LeaderStage,
    value: Transaction,
) -> Result<Plan<Leader>, RoleStop>
    requires { length (text value) ≤ most }
    ensures goes { ActsOn act.now (IsHere act.now.epoch last) draft (λ me now. begun me now stage value None) result }
    ensures stays { IfOk result (λ p. p.next ≡ Next.Stay) }
{
    let Some(version) = last.plus_one() else {
        drop(draft);
        drop(value);
        return Err(RoleStop::Spent {
            which: Which::Version,
        });
    };
    if leads_alone(act.me, &draft.state) {
        return commit_alone(act.alloc, draft, version, value);
    }
    begin_with(act, draft, stage, version, value, None)
}
