//! The acts of a leader that collects what its quorum accepted.

ghost use Rattle.std.specs.Prelude.{◌≡◌, ◌≤◌, ◌^◌, ◌↔◌, true, [], ◌∷◌, ◌++◌, Some, IfOk, IfSome, IsSome};
ghost use Rattle.mon_msg.specs.Protocol.Changes.{Numbers, encoded};
ghost use Rattle.mon_msg.specs.Protocol.Collecting.{begin_found as begins_found, collect as collected, collector as collecting, settle as settled};
ghost use Rattle.mon_msg.specs.Protocol.Readings.{readings_of, or_zero};
ghost use Rattle.mon_msg.specs.Protocol.Sets.{only as only_one};
ghost use Rattle.mon_msg.specs.Protocol.State.{start_leader};
ghost use Rattle.paxos_leader.specs.Drafts.{ActsOn, IsAsking, IsCollecting, IsHere, armed_now};
ghost use Rattle.paxos_leader.specs.Inputs.{may_begin_found};
ghost use Rattle.paxos_leader.specs.Parts.{asked, made, without_found};

use crate::acts::{be_active, begin_value};
use crate::catch_up::send_missed;
use crate::draft::{Draft, send_to_members};
use crate::seen::Act;
use crate::sets::{is_alone, only};
use mon_bytes::{Items, OutOfMemory};
use mon_lease::Lease;
use mon_msg::plan::Sent;
use mon_msg::{Body, Found, Leader, LeaderStage, Me, Next, Plan, RoleStop, Timer};
use mon_plan::{armed, one, put_numbers};
use mon_stored::Stored;
use mon_tx::Transaction;
use mon_types::{Moment, Pn, RankSet, Version, Which, next_pn};
use std::alloc::Global;

/// Begins a value that was found, if it is for the next version. Otherwise the leader becomes active.
fn begin_if_next(
    act: &Act<'_>,
    last: Version,
    draft: Draft,
    found: Found,
) -> Result<Plan<Leader>, RoleStop>
    requires { may_begin_found (Some found) ≡ true }
    ensures goes { ActsOn act.now (IsHere act.now.epoch last) draft
        (λ me now. begins_found me now (Some found)) result }
    ensures stays { IfOk result (λ p. p.next ≡ Next.Stay) }
{
    if found.version.get() != last.get() + 1 {
        return Ok(be_active(act, last, draft)?);
    }
    let stage = LeaderStage::Previous;
    let value = found.value;
    begin_value(act, last, draft, stage, value)
}

/// Begins the value that was found for the next version. If there is none, the leader becomes active.
fn begin_found(
    act: &Act<'_>,
    last: Version,
    draft: Draft,
    found: Option<Found>,
) -> Result<Plan<Leader>, RoleStop>
    requires { may_begin_found found ≡ true }
    ensures goes { ActsOn act.now (IsHere act.now.epoch last) draft (λ me now. begins_found me now found) result }
    ensures stays { IfOk result (λ p. p.next ≡ Next.Stay) }
{
    match found {
        None => Ok(be_active(act, last, draft)?),
        Some(found) => begin_if_next(act, last, draft, found),
    }
}

/// Takes the value that was found out of the leader's state.
pub(crate) fn take_found(mut state: Leader) -> (Leader, Option<Found>)
    ensures { result ≡ (without_found state, state.found) }
{
    let found = state.found.take();
    (state, found)
}

/// All of the quorum answered. Members that lack versions get them. A value that was found for the next version is
/// begun before any command; otherwise the leader becomes active.
pub(crate) fn settle(
    act: &Act<'_>,
    stored: &Stored<'_>,
    draft: Draft,
) -> Result<Plan<Leader>, RoleStop>
    requires { may_begin_found draft.state.found ≡ true }
    ensures goes { ActsOn act.now (IsCollecting act.now.epoch (readings_of stored.now)) draft settled result }
    ensures stays { IfOk result (λ p. p.next ≡ Next.Stay) }
{
    let Draft { tx, out, state } = draft;
    let out = send_missed(act, stored, &state, out)?;
    let (state, found) = take_found(state);
    let draft = Draft { tx, out, state };
    begin_found(act, stored.last(), draft, found)
}

/// The state of a leader that collects under a number. Only its own answer is counted.
fn collector(me: &Me, quorum: RankSet, pn: Pn, found: Option<Found>) -> Leader
    ensures { result ≡ record start_leader {
      quorum = quorum;
      pn = pn;
      answered = only_one me.now.member.rank;
      found = found;
    } }
{
    Leader {
        quorum,
        pn,
        stage: LeaderStage::Collecting,
        answered: only(me),
        lasts: [Version::known(0); 15],
        found,
        accepted: RankSet::empty(),
        value: None,
        origin: None,
        lease: Lease::none(),
        acks: RankSet::empty(),
    }
}

/// The number itself, or 0 if there is none.
fn or_zero(pn: Option<Pn>) -> Pn
    ensures { result ≡ or_zero pn }
{
    pn.unwrap_or(Pn::known(0))
}

/// A new proposal number above all known ones, or `None` if and only if it would pass 2^62.
fn made(stored: &Stored<'_>, me: &Me, above: Pn) -> Option<Pn>
    ensures fits { IsSome result ↔ (made me.now above (readings_of stored.now) ≤ 2 ^ 62) }
    ensures value { IfSome result (λ pn. pn ≡ made me.now above (readings_of stored.now)) }
{
    let known = Pn::known(stored.promise().get().max(above.get()));
    next_pn(or_zero(stored.last_pn()), known, me.member.rank)
}

/// Appends a COLLECT for each other member of the quorum to what was sent so far.
fn send_collect(
    act: &Act<'_>,
    stored: &Stored<'_>,
    out: Items<Sent>,
    quorum: RankSet,
    pn: Pn,
) -> Result<Items<Sent>, OutOfMemory>
    ensures { IfOk result (λ sent.
        sent ≡ out ++ asked act.now.me.now quorum pn act.now.epoch (readings_of stored.now)) }
{
    let question = Body::Collect {
        pn,
        first: stored.first(),
        last: stored.last(),
    };
    send_to_members(act, out, quorum, question)
}

/// The transaction that notes a proposal number as the last one made and as promised.
fn to_number(alloc: Global, pn: Pn) -> Result<Transaction, OutOfMemory>
    ensures { IfOk result (λ tx. tx ≡ encoded (Numbers pn ∷ [])) }
{
    let mut tx = Transaction::new(alloc);
    put_numbers(&mut tx, pn)?;
    Ok(tx)
}

/// Notes a new proposal number and asks the quorum under it, besides what was sent so far.
fn ask(
    act: &Act<'_>,
    stored: &Stored<'_>,
    out: Items<Sent>,
    quorum: RankSet,
    pn: Pn,
) -> Result<Draft, OutOfMemory>
    ensures draft { IfOk result (λ d. d ≡ record {
      tx = encoded (Numbers pn ∷ []);
      out = out ++ asked act.now.me.now quorum pn act.now.epoch (readings_of stored.now);
      state = collecting act.now.me.now quorum pn (readings_of stored.now);
    }) }
    ensures found { IfOk result (λ d. may_begin_found d.state.found ≡ true) }
{
    let out = send_collect(act, stored, out, quorum, pn)?;
    let tx = to_number(act.alloc, pn)?;
    let found = stored.pending(act.alloc)?;
    let state = collector(act.me, quorum, pn, found);
    Ok(Draft { tx, out, state })
}

/// The plan of a draft whose leader awaits its quorum's answers, until `Collect` fires.
fn await_answers(alloc: Global, draft: Draft, now: Moment) -> Result<Plan<Leader>, OutOfMemory>
    ensures { IfOk result (λ p. p ≡ record {
      tx = draft.tx;
      out = draft.out;
      timers = armed_now now Timer.Collect ∷ [];
      state = draft.state;
      next = Next.Stay;
    }) }
{
    let timers = one(alloc, armed(now, Timer::Collect))?;
    let Draft { tx, out, state } = draft;
    Ok(Plan {
        tx,
        out,
        timers,
        state,
        next: Next::Stay,
    })
}

/// Asks the quorum what was accepted, under a number above all known ones. Everything but the epoch is read from
/// `stored`; the epoch is that of `act`. `Spent` names the number, or a found value's version, that would pass 2^62.
pub(crate) fn collect(
    act: &Act<'_>,
    stored: &Stored<'_>,
    out: Items<Sent>,
    quorum: RankSet,
    above: Pn,
) -> Result<Plan<Leader>, RoleStop>
    ensures goes { ActsOn act.now (IsAsking act.now.epoch (readings_of stored.now))
        (record { tx = []; out = out; state = start_leader }) (λ me now. collected me now quorum above) result }
    ensures stays { IfOk result (λ p. p.next ≡ Next.Stay) }
{
    let Some(pn) = made(stored, act.me, above) else {
        return Err(RoleStop::Spent { which: Which::Pn });
    };
    let draft = ask(act, stored, out, quorum, pn)?;
    if is_alone(act.me, quorum) {
        return settle(act, stored, draft);
    }
    Ok(await_answers(act.alloc, draft, act.time)?)
}

/// The same as `collect`, in an event that has written and sent nothing so far.
pub(crate) fn ask_again(
    act: &Act<'_>,
    stored: &Stored<'_>,
    quorum: RankSet,
    above: Pn,
) -> Result<Plan<Leader>, RoleStop>
    ensures goes { ActsOn act.now (IsAsking act.now.epoch (readings_of stored.now))
        (record { tx = []; out = []; state = start_leader }) (λ me now. collected me now quorum above) result }
    ensures stays { IfOk result (λ p. p.next ≡ Next.Stay) }
{
    let out = Items::new(act.alloc);
    collect(act, stored, out, quorum, above)
}
