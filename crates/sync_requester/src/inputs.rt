//! What a requester does at each of its inputs.

ghost use Rattle.std.specs.Prelude.{◌≡◌, ◌&&◌, ◌==◌, List, IfOk, IsTrue};
ghost use Rattle.mon_bytes.specs.declared.entry.Entry.{Entry};
ghost use Rattle.mon_msg.specs.Protocol.Course.{requester_is};
ghost use Rattle.mon_msg.specs.Protocol.Hearing.{hear as hears};
ghost use Rattle.mon_msg.specs.Protocol.Length.{fits};
ghost use Rattle.mon_msg.specs.Protocol.Phases.{same_phase};
ghost use Rattle.mon_msg.specs.Protocol.Readings.{readings_of};
ghost use Rattle.mon_msg.specs.Protocol.Replay.{replay_step};
ghost use Rattle.mon_msg.specs.Protocol.Table.{timer_comes};
ghost use Rattle.mon_plan.specs.Inputs.{input_is_short, row};
ghost use Rattle.mon_plan.specs.Leaves.{Leaves};
ghost use Rattle.mon_plan.specs.Plans.{PlansRow};
ghost use Rattle.mon_plan.specs.Seen.{IsMet};
ghost use Rattle.sync_requester.specs.Inputs.{is_role_message, is_own, is_input};
ghost use Rattle.sync_requester.specs.Rows.{ByRow};

use crate::chunks::{Chunk, hear_chunk, hear_last_chunk};
use crate::cookies::{hear_cookie, hear_no_cookie};
use crate::replay::replay;
use mon_kv::Kv;
use mon_msg::input::Input;
use mon_msg::{Body, Me, Message, Next, Phase, Plan, Requester, RoleStop, SyncStage, Timer, View};
use mon_plan::{planned, stay};
use mon_stored::Here;
use mon_types::{Moment, Rank};
use std::alloc::Global;

/// Whether a monitor in this phase synchronizes.
fn synchronizes(phase: Phase) -> bool
    ensures { result ≡ same_phase phase Phase.Synchronizing }
{
    matches!(phase, Phase::Synchronizing)
}

/// Whether a message is of the provider, while the monitor synchronizes.
fn is_of_provider(view: &View, state: &Requester, from: Rank) -> bool
    ensures { result ≡ (same_phase view.now.phase Phase.Synchronizing && from == state.now.provider) }
{
    synchronizes(view.phase) && from == state.provider
}

/// Hears a COOKIE, CHUNK, LAST_CHUNK or NO_COOKIE. It is dropped if it isn't from the provider, or the monitor doesn't
/// synchronize.
fn hear(
    here: &Here<'_>,
    view: &View,
    state: &Requester,
    message: &Message,
) -> Result<Plan<Requester>, RoleStop>
    requires input { IsTrue (is_role_message message.now.body) }
    requires fits { IsTrue (fits here.now.me.now.member.monitors message.now.body) }
    ensures plans { (shared : List Entry) → ByRow here.now view.now state.now
        (hears here.now.me.now shared here.now.time message.now.from message.now.epoch message.now.body) result }
    ensures leaves { IfOk result (λ plan. Leaves view.now.phase plan.next plan.tx) }
{
    if !is_of_provider(view, state, message.from) {
        return Ok(stay(here.alloc, state.copy(here.alloc)?));
    }
    match &message.body {
        Body::Cookie { full, cookie, last } => hear_cookie(here, state, *full, *cookie, *last),
        Body::Chunk {
            cookie,
            place,
            values,
            entries,
            done,
        } => {
            let chunk = Chunk {
                place,
                values: values.as_slice(),
                entries: entries.as_slice(),
            };
            hear_chunk(here, state, *cookie, &chunk, *done)
        }
        Body::LastChunk {
            cookie,
            place,
            values,
            entries,
            last,
        } => {
            let chunk = Chunk {
                place,
                values: values.as_slice(),
                entries: entries.as_slice(),
            };
            hear_last_chunk(here, state, *cookie, &chunk, *last)
        }
        Body::NoCookie { cookie } => hear_no_cookie(here, state, *cookie),
        _ => unreachable!(),
    }
}

/// The timer `Step` fires: the next step of a replay, if one is under way.
fn step_replay(here: &Here<'_>, view: &View, state: &Requester) -> Result<Plan<Requester>, RoleStop>
    ensures plans { ByRow here.now view.now state.now (replay_step here.now.me.now here.now.time) result }
    ensures leaves { IfOk result (λ plan. Leaves view.now.phase plan.next plan.tx) }
{
    if !synchronizes(view.phase) {
        return Ok(stay(here.alloc, state.copy(here.alloc)?));
    }
    match state.stage {
        SyncStage::Replay { next, end } => replay(here, state, next, end),
        SyncStage::Cookie | SyncStage::Chunks => Ok(stay(here.alloc, state.copy(here.alloc)?)),
    }
}

/// A timer of the requester fires. `Sync` ends the synchronization, as the provider didn't answer in time, and the
/// monitor bootstraps.
fn ring(
    here: &Here<'_>,
    view: &View,
    state: &Requester,
    kind: Timer,
) -> Result<Plan<Requester>, RoleStop>
    requires { IsTrue (is_own kind) }
    ensures plans { ByRow here.now view.now state.now (timer_comes here.now.me.now here.now.time kind) result }
    ensures leaves { IfOk result (λ plan. Leaves view.now.phase plan.next plan.tx) }
{
    match kind {
        Timer::Sync => Ok(planned(here.alloc, state.copy(here.alloc)?, Next::Bootstrap)),
        Timer::Step => step_replay(here, view, state),
        _ => unreachable!(),
    }
}

/// What a requester does at a COOKIE, CHUNK, LAST_CHUNK or NO_COOKIE that is taken, and when one of its timers fires:
/// its row of the protocol's table. A message is dropped if it isn't from the provider, isn't the awaited one, or comes
/// while the monitor doesn't synchronize. It then takes no memory but for a copy of the remembered place. `Spent` names
/// the version of the place after a chunk, or the first one that is replayed, if that would pass 2^62.
pub fn step(
    alloc: Global,
    kv: &Kv,
    me: &Me,
    view: &View,
    state: &Requester,
    input: &Input,
    now: Moment,
) -> Result<Plan<Requester>, RoleStop>
    requires input { IsTrue (is_input input.now) }
    requires fits { IsTrue (input_is_short me.now.member.monitors input.now) }
    ensures plans { (shared : List Entry) →
        PlansRow me.now now requester_is (IsMet me.now now (readings_of kv.now) view.now (λ s. s.requester) state.now)
        (row me.now shared now input.now) result }
    ensures leaves { IfOk result (λ plan. Leaves view.now.phase plan.next plan.tx) }
{
    let here = Here {
        alloc,
        kv,
        me,
        time: now,
    };
    match input {
        Input::Deliver(message) => hear(&here, view, state, message),
        Input::Timer(kind) => ring(&here, view, state, *kind),
        Input::Start | Input::Client(..) => unreachable!(),
    }
}
