//! What a leader does when a member answers its collect.

ghost use Rattle.std.specs.Prelude.{◌≡◌, ℕ, ◌+◌, ◌-◌, ◌≤◌, ◌^◌, ◌++◌, [], ◌∷◌, length, true, ◌&&◌, nat_lt, suc, Some, IfOk, OnOk};
ghost use Rattle.std.specs.List.{AllByRecursion};
ghost use Rattle.mon_msg.specs.Protocol.Changes.{encoded};
ghost use Rattle.mon_msg.specs.Protocol.Found.{is_newer as newer};
ghost use Rattle.mon_msg.specs.Protocol.Leader.{hear_last as last_row, hear_answer as answer_row, hear_whole as whole_row};
ghost use Rattle.mon_msg.specs.Protocol.Learning.{news, news_from};
ghost use Rattle.mon_msg.specs.Protocol.Played.{Fits};
ghost use Rattle.mon_msg.specs.Protocol.Readings.{readings_of, epoch_of};
ghost use Rattle.mon_msg.specs.Protocol.Records.{may_begin};
ghost use Rattle.mon_tx.specs.Map.{apply};
ghost use Rattle.mon_tx.specs.Text.{text, most};
ghost use Rattle.mon_wire.specs.declared.phase.Phase.TheVariants as phases;
ghost use Rattle.mon_wire.specs.declared.phase.Phase.{Phase};
ghost use Rattle.mon_wire.specs.declared.write_lists.TheConstants.{MOST_ITEMS};
ghost use Rattle.mon_plan.specs.Leaves.{Leaves};
ghost use Rattle.mon_plan.specs.Learned.{Learns, learned};
ghost use Rattle.paxos_leader.specs.Drafts.{ActsOn, GoesOn, IsAsking};
ghost use Rattle.paxos_leader.specs.Inputs.{may_begin_found};
ghost use Rattle.paxos_leader.specs.Parts.{with_answer};
ghost use Rattle.paxos_leader.specs.Rows.{ByRow, IsHeard, Notes, NotesFound, may_begin_pending, goes_on};

use crate::collecting::{ask_again, settle, take_found};
use crate::draft::Draft;
use crate::seen::Act;
use crate::sets::are_within;
use mon_bytes::OutOfMemory;
use mon_msg::{Found, Leader, Next, Plan, RoleStop, Told};
use mon_plan::{learn, planned, stay};
use mon_stored::{Here, MOST_PROPOSED, Stored};
use mon_tx::Transaction;
use mon_types::{Pn, Rank, Version, Which};

/// What a member answered to a collect.
#[derive(Clone, Copy)]
pub(crate) struct Answer<'a> {
    pub(crate) from: Rank,
    pub(crate) pn: Pn,
    pub(crate) first: Version,
    pub(crate) last: Version,
    pub(crate) whole: bool,
    /// The version of the first of the values.
    pub(crate) start: Version,
    pub(crate) values: &'a [Transaction],
    pub(crate) pending: &'a Option<Told>,
}

/// Whether a pending value ranks above the one that was found: by version, and then by proposal number.
fn is_after(version: Version, pn: Pn, found: &Found) -> bool
    ensures { result ≡ newer version pn (Some found.now) }
{
    found.version.get() < version.get()
        || (version.get() == found.version.get() && found.pn.get() < pn.get())
}

/// Whether a pending value ranks above the one that was found so far. Any value does if none was found.
fn is_newer(version: Version, pn: Pn, found: &Option<Found>) -> bool
    ensures { result ≡ newer version pn found.now }
{
    match found {
        None => true,
        Some(found) => is_after(version, pn, found),
    }
}

/// The value that is found once a member reported `last` as its last version, and this pending value for the version
/// after it. A value that is too long to be proposed counts as none.
fn found_with(found: Option<Found>, last: Version, told: &Told) -> Result<Option<Found>, RoleStop>
    requires found { may_begin_found found ≡ true }
    requires told { may_begin told.now.value ≡ true }
    ensures notes { NotesFound found last (Some told.now) result }
    ensures short { IfOk result (λ new. may_begin_found new ≡ true) }
{
    if told.value.text_len() > MOST_PROPOSED as u64 {
        return Ok(found);
    }
    let Some(version) = last.plus_one() else {
        return Err(RoleStop::Spent {
            which: Which::Version,
        });
    };
    if !is_newer(version, told.pn, &found) {
        return Ok(found);
    }
    let value = told.value.copy()?;
    Ok(Some(Found {
        version,
        pn: told.pn,
        value,
    }))
}

/// The value that is found once a member reported `last` as its last version, and perhaps a pending value.
fn found_with_any(
    found: Option<Found>,
    last: Version,
    told: &Option<Told>,
) -> Result<Option<Found>, RoleStop>
    requires found { may_begin_found found ≡ true }
    requires told { may_begin_pending told.now ≡ true }
    ensures notes { NotesFound found last told.now result }
    ensures short { IfOk result (λ new. may_begin_found new ≡ true) }
{
    match told {
        None => Ok(found),
        Some(told) => found_with(found, last, told),
    }
}

/// The leader's state with a member's complete answer: its rank, its last version, and the value that is found by then.
fn answered(mut state: Leader, from: Rank, last: Version, found: Option<Found>) -> Leader
    ensures { result ≡ with_answer from last found state }
{
    state.answered = state.answered.with(from);
    state.lasts[usize::from(from.get())] = last;
    state.found = found;
    state
}

/// The leader's state with a member's complete answer, by what the member reported.
fn note(state: Leader, answer: &Answer<'_>) -> Result<Leader, RoleStop>
    requires found { may_begin_found state.found ≡ true }
    requires told { may_begin_pending answer.now.pending.now ≡ true }
    ensures notes { Notes state answer.now.from answer.now.last answer.now.pending.now result }
    ensures short { IfOk result (λ new. may_begin_found new.found ≡ true) }
    ensures stage { IfOk result (λ new. new.stage ≡ state.stage) }
{
    let (state, old) = take_found(state);
    match found_with_any(old, answer.last, answer.pending) {
        Ok(found) => Ok(answered(state, answer.from, answer.last, found)),
        Err(stop) => {
            drop(state);
            Err(stop)
        }
    }
}

/// Notes a member's complete answer. The leader settles if all of the quorum answered.
fn hear_whole(
    act: &Act<'_>,
    stored: &Stored<'_>,
    state: Leader,
    answer: &Answer<'_>,
) -> Result<Plan<Leader>, RoleStop>
    requires found { may_begin_found state.found ≡ true }
    requires told { may_begin_pending answer.now.pending.now ≡ true }
    ensures goes { ActsOn act.now (IsAsking act.now.epoch (readings_of stored.now))
        (record { tx = []; out = []; state = state })
        (λ me now. whole_row me now answer.now.from answer.now.last answer.now.pending.now) result }
    ensures stays { IfOk result (λ p. p.next ≡ Next.Stay) }
{
    let state = note(state, answer)?;
    if !are_within(act.me, state.quorum, state.answered) {
        return Ok(stay(act.alloc, state));
    }
    let draft = Draft::new(act.alloc, state);
    settle(act, stored, draft)
}

/// Goes on after the values of an answer are learned: notes a complete answer, or collects again for the rest.
fn go_on(
    act: &Act<'_>,
    stored: &Stored<'_>,
    state: Leader,
    answer: &Answer<'_>,
) -> Result<Plan<Leader>, RoleStop>
    requires found { may_begin_found state.found ≡ true }
    requires told { may_begin_pending answer.now.pending.now ≡ true }
    ensures goes { ActsOn act.now (IsAsking act.now.epoch (readings_of stored.now))
        (record { tx = []; out = []; state = state })
        (λ me now. goes_on me now answer.now.from answer.now.last answer.now.whole answer.now.pending.now) result }
    ensures stays { IfOk result (λ p. p.next ≡ Next.Stay) }
{
    if answer.whole {
        return hear_whole(act, stored, state, answer);
    }
    let quorum = state.quorum;
    drop(state);
    let above = Pn::known(0);
    ask_again(act, stored, quorum, above)
}

/// The same as `go_on`, with the store as it is after these changes.
fn go_on_after(
    here: &Here<'_>,
    tx: &Transaction,
    state: Leader,
    answer: &Answer<'_>,
) -> Result<Plan<Leader>, RoleStop>
    requires found { may_begin_found state.found ≡ true }
    requires told { may_begin_pending answer.now.pending.now ≡ true }
    ensures goes { GoesOn here.now.me.now here.now.time
        (IsAsking (epoch_of (readings_of (apply tx.now here.now.kv.now))) (readings_of (apply tx.now here.now.kv.now)))
        (record { tx = []; out = []; state = state })
        (goes_on here.now.me.now here.now.time answer.now.from answer.now.last answer.now.whole answer.now.pending.now)
        result }
    ensures stays { IfOk result (λ p. p.next ≡ Next.Stay) }
{
    let stored = Stored::after(here.alloc, here.kv, tx)?;
    let act = Act::of(here, stored.epoch());
    go_on(&act, &stored, state, answer)
}

/// The plan with these changes before its own.
fn prepended(mut tx: Transaction, mut plan: Plan<Leader>) -> Result<Plan<Leader>, OutOfMemory>
    ensures { IfOk result (λ p. p ≡ record plan { tx = tx ++ plan.tx }) }
{
    tx.append(&plan.tx)?;
    plan.tx = tx;
    Ok(plan)
}

/// Learns the values of an answer above the last version.
fn learn_news(tx: &mut Transaction, own: Version, answer: &Answer<'_>) -> Result<(), RoleStop>
    requires short { AllByRecursion (λ ops. length (text ops) ≤ most) answer.now.values.now }
    requires few { length answer.now.values.now ≤ MOST_ITEMS }
    ensures act { Learns (news_from own answer.now.start) (news own answer.now.start answer.now.values.now) result }
    ensures changes { OnOk result (tx.new ≡ tx.old ++ encoded (learned (news_from own answer.now.start)
        (news own answer.now.start answer.now.values.now))) }
    ensures fit { OnOk result
        (AllByRecursion Fits (learned (news_from own answer.now.start)
        (news own answer.now.start answer.now.values.now))) }
{
    let next = own.get() + 1;
    let start = answer.start.get();
    let known = next.saturating_sub(start).min(answer.values.len() as u64) as usize;
    learn(tx, start.max(next), &answer.values[known..])
}

/// An answer under the leader's own number: its values above the last version are learned first.
fn hear_answer(
    here: &Here<'_>,
    state: Leader,
    answer: &Answer<'_>,
) -> Result<Plan<Leader>, RoleStop>
    requires short { AllByRecursion (λ ops. length (text ops) ≤ most) answer.now.values.now }
    requires few { length answer.now.values.now ≤ MOST_ITEMS }
    requires found { may_begin_found state.found ≡ true }
    requires told { may_begin_pending answer.now.pending.now ≡ true }
    ensures plans { (e : ℕ) →
        ByRow here.now (IsHeard (phases.Collecting ∷ []) answer.now.from e (readings_of here.now.kv.now) state)
        (λ me now. answer_row me now answer.now.from answer.now.last answer.now.whole answer.now.start
        answer.now.values.now answer.now.pending.now) result }
    ensures stays { IfOk result (λ p. p.next ≡ Next.Stay) }
{
    let own = here.own_last();
    let mut tx = Transaction::new(here.alloc);
    match learn_news(&mut tx, own, answer) {
        Ok(()) => {}
        Err(stop) => {
            drop(state);
            return Err(stop);
        }
    }
    match go_on_after(here, &tx, state, answer) {
        Ok(plan) => Ok(prepended(tx, plan)?),
        Err(stop) => Err(stop),
    }
}

/// Whether a member no longer keeps the version after the leader's last one. Only a synchronization then helps the
/// leader.
fn needs_copy(own: Version, answer: &Answer<'_>) -> bool
    ensures { result ≡ (nat_lt (suc own) answer.now.first && nat_lt own answer.now.last) }
{
    own.get() + 1 < answer.first.get() && own.get() < answer.last.get()
}

/// A member answers the leader's collect.
pub(crate) fn hear_last(
    here: &Here<'_>,
    state: Leader,
    answer: &Answer<'_>,
) -> Result<Plan<Leader>, RoleStop>
    requires short { AllByRecursion (λ ops. length (text ops) ≤ most) answer.now.values.now }
    requires few { length answer.now.values.now ≤ MOST_ITEMS }
    requires found { may_begin_found state.found ≡ true }
    requires told { may_begin_pending answer.now.pending.now ≡ true }
    ensures plans { (e : ℕ) →
        ByRow here.now (IsHeard (phases.Collecting ∷ []) answer.now.from e (readings_of here.now.kv.now) state)
        (λ me now. last_row me now answer.now.from e answer.now.pn answer.now.first answer.now.last answer.now.whole
        answer.now.start answer.now.values.now answer.now.pending.now) result }
    ensures leaves { (at : Phase) → IfOk result (λ p. Leaves at p.next p.tx) }
{
    if answer.pn.get() > state.pn.get() {
        let quorum = state.quorum;
        drop(state);
        let stored = Stored::of(here.alloc, here.kv);
        let act = Act::of(here, stored.epoch());
        return ask_again(&act, &stored, quorum, answer.pn);
    }
    if answer.pn.get() < state.pn.get() {
        return Ok(stay(here.alloc, state));
    }
    if needs_copy(here.own_last(), answer) {
        return Ok(planned(here.alloc, state, Next::Bootstrap));
    }
    hear_answer(here, state, answer)
}
