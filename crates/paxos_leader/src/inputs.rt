//! What a leader does at each of its inputs, as it begins to lead, and when a command's value is begun.

ghost use Rattle.std.specs.Prelude.{◌≡◌, ℕ, ◌≤◌, ◌&&◌, ◌==◌, ◌∷◌, [], List, length, map, true, Some, IfOk};
ghost use Rattle.mon_bytes.specs.declared.entry.Entry.{Entry};
ghost use Rattle.mon_msg.specs.Protocol.Hearing.{hear as hears};
ghost use Rattle.mon_msg.specs.Protocol.Leader.{is_one_of, renew as renew_row};
ghost use Rattle.mon_msg.specs.Protocol.Leading.{begin_alone as begun_alone};
ghost use Rattle.mon_msg.specs.Protocol.Length.{fits};
ghost use Rattle.mon_msg.specs.Protocol.Readings.{epoch_of, readings_of};
ghost use Rattle.mon_msg.specs.Protocol.Records.{may_begin};
ghost use Rattle.mon_msg.specs.Protocol.Sending.{answers_to, members as members_of, message_to};
ghost use Rattle.mon_msg.specs.Protocol.Table.{timer_comes};
ghost use Rattle.mon_plan.specs.Inputs.{input_is_short, row};
ghost use Rattle.mon_plan.specs.Leaves.{Leaves};
ghost use Rattle.mon_plan.specs.Plans.{Plans, PlansAct, PlansRow, leads};
ghost use Rattle.mon_plan.specs.Seen.{IsMet};
ghost use Rattle.mon_tx.specs.Map.{apply};
ghost use Rattle.mon_tx.specs.Text.{text, most};
ghost use Rattle.mon_types.specs.Ranks.{has};
ghost use Rattle.mon_wire.specs.declared.phase.Phase.TheVariants as phases;
ghost use Rattle.paxos_leader.specs.Drafts.{IsLed, IsWon};
ghost use Rattle.paxos_leader.specs.Inputs.{is_input, is_own, is_role_message, may_begin_all, phases_for};
ghost use Rattle.paxos_leader.specs.Rows.{ByRow, Meets};

use crate::acts::{be_active, begin_with, commit_alone};
use crate::answers::{Answer, hear_last};
use crate::collecting::collect;
use crate::draft::{Draft, send_to_members};
use crate::seen::Act;
use crate::sets::leads_alone;
use crate::values::{hear_accept, hear_lease_ack};
use mon_bytes::{Items, OutOfMemory};
use mon_kv::Kv;
use mon_msg::input::Input;
use mon_msg::plan::Sent;
use mon_msg::{
    Body, Leader, LeaderStage, Me, Message, Next, Origin, Phase, Plan, Reply, RoleStop, Timer, View,
};
use mon_plan::{answer, one, planned, stay};
use mon_stored::{Here, Stored, epoch_after};
use mon_tx::Transaction;
use mon_types::{Epoch, Moment, Pn, RankSet, Version, Which};
use std::alloc::Global;

/// Whether a leader in this phase collects what its quorum accepted.
fn collects(phase: Phase) -> bool
    ensures { result ≡ is_one_of (phases.Collecting ∷ []) phase }
{
    matches!(phase, Phase::Collecting)
}

/// Whether a leader in this phase has a value that awaits acceptances.
fn has_begun(phase: Phase) -> bool
    ensures { result ≡ is_one_of (phases.Previous ∷ phases.Updating ∷ []) phase }
{
    matches!(phase, Phase::Previous | Phase::Updating)
}

/// Whether a leader in this phase waits for commands.
fn is_active(phase: Phase) -> bool
    ensures { result ≡ is_one_of (phases.Active ∷ []) phase }
{
    matches!(phase, Phase::Active)
}

/// Whether a leader in this phase hears a LAST, ACCEPT or LEASE_ACK.
fn is_for(phase: Phase, body: &Body) -> bool
    requires { is_role_message body.now ≡ true }
    ensures { result ≡ is_one_of (phases_for body.now) phase }
{
    match body {
        Body::Last { .. } => collects(phase),
        Body::Accept { .. } => has_begun(phase),
        Body::LeaseAck { .. } => is_active(phase),
        _ => unreachable!(),
    }
}

/// Whether a message is of this epoch, from a member of the leader's quorum, and is heard in the leader's phase.
fn is_ours(epoch: Epoch, view: &View, state: &Leader, message: &Message) -> bool
    requires { is_role_message message.now.body ≡ true }
    ensures { result ≡ (is_one_of (phases_for message.now.body) view.now.phase && message.now.epoch == epoch
        && has state.now.quorum message.now.from) }
{
    is_for(view.phase, &message.body)
        && message.epoch.get() == epoch.get()
        && state.quorum.has(message.from)
}

/// Hears a LAST, ACCEPT or LEASE_ACK. It is dropped if it isn't of this epoch, isn't from a member of the leader's
/// quorum, or isn't for the leader's phase.
fn hear(
    here: &Here<'_>,
    view: &View,
    state: Leader,
    message: &Message,
) -> Result<Plan<Leader>, RoleStop>
    requires input { is_role_message message.now.body ≡ true }
    requires fits { fits here.now.me.now.member.monitors message.now.body ≡ true }
    requires held { may_begin_all state ≡ true }
    ensures plans { (shared : List Entry) → ByRow here.now (Meets here.now view.now state)
        (λ me now. hears me shared now message.now.from message.now.epoch message.now.body) result }
    ensures leaves { IfOk result (λ p. Leaves view.now.phase p.next p.tx) }
{
    let epoch = here.own_epoch();
    if !is_ours(epoch, view, &state, message) {
        return Ok(stay(here.alloc, state));
    }
    let from = message.from;
    match &message.body {
        Body::Last {
            pn,
            first,
            last,
            whole,
            from: start,
            values,
            pending,
        } => {
            let answer = Answer {
                from,
                pn: *pn,
                first: *first,
                last: *last,
                whole: *whole,
                start: *start,
                values: values.as_slice(),
                pending,
            };
            hear_last(here, state, &answer)
        }
        Body::Accept { pn, version } => hear_accept(here, state, from, *pn, *version),
        Body::LeaseAck { last } => hear_lease_ack(here, state, from, *last),
        _ => unreachable!(),
    }
}

/// The timer `Renew` fires. An active leader gives leases again; any other does nothing.
fn renew(here: &Here<'_>, view: &View, state: Leader) -> Result<Plan<Leader>, RoleStop>
    ensures plans { ByRow here.now (Meets here.now view.now state) renew_row result }
    ensures stays { IfOk result (λ p. p.next ≡ Next.Stay) }
{
    if !is_active(view.phase) {
        return Ok(stay(here.alloc, state));
    }
    let epoch = here.own_epoch();
    let last = here.own_last();
    let draft = Draft::new(here.alloc, state);
    let act = Act::of(here, epoch);
    Ok(be_active(&act, last, draft)?)
}

/// A timer of the leader fires. Each of them but `Renew` means that the quorum is lost, so the monitor bootstraps.
fn ring(here: &Here<'_>, view: &View, state: Leader, kind: Timer) -> Result<Plan<Leader>, RoleStop>
    requires { is_own kind ≡ true }
    ensures plans { ByRow here.now (Meets here.now view.now state) (λ me now. timer_comes me now kind) result }
    ensures leaves { IfOk result (λ p. Leaves view.now.phase p.next p.tx) }
{
    match kind {
        Timer::Renew => renew(here, view, state),
        _ => Ok(planned(here.alloc, state, Next::Bootstrap)),
    }
}

/// What a leader does at a LAST, ACCEPT or LEASE_ACK that is heard, and when one of its timers fires: its row of the
/// protocol's table. The timer was armed, and is disarmed already. A message is dropped if it isn't of this epoch,
/// isn't from a member of the leader's quorum, or isn't for the leader's phase. `Spent` names the proposal number or
/// the version that would pass 2^62.
pub fn step(
    alloc: Global,
    kv: &Kv,
    me: &Me,
    view: &View,
    state: &Leader,
    input: &Input,
    now: Moment,
) -> Result<Plan<Leader>, RoleStop>
    requires input { is_input input.now ≡ true }
    requires fits { input_is_short me.now.member.monitors input.now ≡ true }
    requires held { may_begin_all state.now ≡ true }
    ensures plans { (shared : List Entry) → PlansRow me.now now leads (IsMet me.now now (readings_of kv.now) view.now
        (λ s. s.leader) state.now)
        (row me.now shared now input.now) result }
    ensures leaves { IfOk result (λ p. Leaves view.now.phase p.next p.tx) }
{
    let here = Here {
        alloc,
        kv,
        me,
        time: now,
    };
    step_owned(&here, view, state.copy()?, input)
}

/// The same as `step`, by value: the leader's state moves into the plan, and the value under way isn't copied.
pub fn step_owned(
    here: &Here<'_>,
    view: &View,
    state: Leader,
    input: &Input,
) -> Result<Plan<Leader>, RoleStop>
    requires input { is_input input.now ≡ true }
    requires fits { input_is_short here.now.me.now.member.monitors input.now ≡ true }
    requires held { may_begin_all state ≡ true }
    ensures plans { (shared : List Entry) →
        ByRow here.now (Meets here.now view.now state) (λ me now. row me shared now input.now) result }
    ensures leaves { IfOk result (λ p. Leaves view.now.phase p.next p.tx) }
{
    match input {
        Input::Deliver(message) => hear(here, view, state, message),
        Input::Timer(kind) => ring(here, view, state, *kind),
        Input::Start | Input::Client(..) => unreachable!(),
    }
}

/// A VICTORY for each other member of the quorum.
fn send_victory(act: &Act<'_>, quorum: RankSet) -> Result<Items<Sent>, OutOfMemory>
    ensures { IfOk result (λ sent. sent ≡ map (message_to act.now.me.now act.now.epoch (Body.Victory quorum))
        (members_of act.now.me.now quorum)) }
{
    let victory = Body::Victory { quorum };
    send_to_members(act, Items::new(act.alloc), quorum, victory)
}

/// The monitor has won, and begins to lead this quorum. It announces its victory, and asks the quorum under a new
/// proposal number what was accepted. `epoch` is its epoch now. `Spent` names that number if it would pass 2^62, or the
/// version after the last one.
pub fn enter(
    alloc: Global,
    kv: &Kv,
    me: &Me,
    epoch: Epoch,
    quorum: RankSet,
    now: Moment,
) -> Result<Plan<Leader>, RoleStop>
    ensures plans { PlansAct me.now now leads (IsWon epoch (readings_of kv.now)) (Next.Win quorum) result }
    ensures stays { IfOk result (λ p. p.next ≡ Next.Stay) }
{
    let act = Act {
        alloc,
        me,
        epoch,
        time: now,
    };
    let out = send_victory(&act, quorum)?;
    let stored = Stored::of(alloc, kv);
    let above = Pn::known(0);
    collect(&act, &stored, out, quorum, above)
}

/// The answer `Done` to the origin of a version that these changes commit, under the epoch after them.
fn answers(
    here: &Here<'_>,
    tx: &Transaction,
    version: Version,
    origin: Origin,
) -> Result<Items<Sent>, OutOfMemory>
    ensures { IfOk result (λ sent.
        sent ≡ answers_to here.now.me.now (epoch_of (readings_of (apply tx.now here.now.kv.now))) (Some origin)
        (Reply.Done version)) }
{
    let epoch = epoch_after(here.alloc, here.kv, tx)?;
    let done = answer(here.me, epoch, origin, Reply::Done { version });
    one(here.alloc, done)
}

/// A leader that is alone in its quorum commits a value at once, and answers its origin.
fn begin_answered(
    here: &Here<'_>,
    state: Leader,
    version: Version,
    value: Transaction,
    origin: Origin,
) -> Result<Plan<Leader>, RoleStop>
    requires short { length (text value) ≤ most }
    requires above { 1 ≤ version }
    ensures plans { (now : ℕ) →
        Plans here.now.me.now now leads (IsLed (readings_of here.now.kv.now) state) (λ x. x)
        (begun_alone here.now.me.now version value (Some origin)) result }
    ensures stays { IfOk result (λ p. p.next ≡ Next.Stay) }
{
    let draft = Draft::new(here.alloc, state);
    let mut plan = commit_alone(here.alloc, draft, version, value)?;
    let out = answers(here, &plan.tx, version, origin)?;
    plan.out = out;
    Ok(plan)
}

/// Begins the value of a command for the version after the last one. A leader that is alone in its quorum commits it at
/// once. `Spent` names the version if it would pass 2^62.
pub fn begin(
    alloc: Global,
    kv: &Kv,
    me: &Me,
    state: &Leader,
    value: &Transaction,
    origin: &Origin,
    now: Moment,
) -> Result<Plan<Leader>, RoleStop>
    requires { may_begin value.now ≡ true }
    ensures plans { PlansAct me.now now leads (IsLed (readings_of kv.now) state.now)
        (Next.Begin value.now origin.now) result }
    ensures stays { IfOk result (λ p. p.next ≡ Next.Stay) }
{
    let value = value.copy()?;
    let here = Here {
        alloc,
        kv,
        me,
        time: now,
    };
    begin_owned(&here, state.copy()?, value, *origin)
}

/// The same as `begin`, by value: the leader's state and the value move into the plan.
pub fn begin_owned(
    here: &Here<'_>,
    state: Leader,
    value: Transaction,
    origin: Origin,
) -> Result<Plan<Leader>, RoleStop>
    requires { may_begin value ≡ true }
    ensures plans { PlansAct here.now.me.now here.now.time leads (IsLed (readings_of here.now.kv.now) state)
        (Next.Begin value origin) result }
    ensures stays { IfOk result (λ p. p.next ≡ Next.Stay) }
{
    let Some(version) = here.own_last().plus_one() else {
        drop(state);
        drop(value);
        return Err(RoleStop::Spent {
            which: Which::Version,
        });
    };
    if leads_alone(here.me, &state) {
        return begin_answered(here, state, version, value, origin);
    }
    let epoch = here.own_epoch();
    let draft = Draft::new(here.alloc, state);
    let act = Act::of(here, epoch);
    let stage = LeaderStage::Updating;
    begin_with(&act, draft, stage, version, value, Some(origin))
}
