//! What an elector does at each of its inputs.

ghost use Rattle.std.specs.Prelude.{List, IfOk, IsTrue};
ghost use Rattle.mon_bytes.specs.declared.entry.Entry.{Entry};
ghost use Rattle.mon_msg.specs.Protocol.Hearing.{hear};
ghost use Rattle.mon_msg.specs.Protocol.Readings.{readings_of};
ghost use Rattle.mon_msg.specs.Protocol.Table.{timer_comes};
ghost use Rattle.mon_plan.specs.Inputs.{row};
ghost use Rattle.mon_plan.specs.Leaves.{Leaves};
ghost use Rattle.mon_elector.specs.Rows.{is_role_message, is_rung, is_input, PlansElection, ByRow};

use crate::acks::{election_ends, hear_ack};
use crate::here::Here;
use crate::pings::{hear_ping, hear_ping_reply, ping};
use crate::proposals::hear_propose;
use crate::victories::hear_victory;
use mon_kv::Kv;
use mon_msg::input::Input;
use mon_msg::{Body, Elector, Me, Message, Plan, RoleStop, Timer, View};
use mon_stored::Stored;
use mon_types::Moment;
use std::alloc::Global;

/// Hears a PROPOSE, ACK, VICTORY, PING or PING_REPLY of another monitor.
fn hear(here: &Here<'_>, message: &Message) -> Result<Plan<Elector>, RoleStop>
    requires { IsTrue (is_role_message message.now.body) }
    ensures plans { (shared : List Entry) → ByRow here.now
        (hear here.now.me.now shared here.now.time message.now.from message.now.epoch message.now.body) result }
    ensures leaves { IfOk result (λ p. Leaves here.now.view.now.phase p.next p.tx) }
{
    let from = message.from;
    let epoch = message.epoch;
    match &message.body {
        Body::Propose { table } => hear_propose(here, from, epoch, table),
        Body::Ack => hear_ack(here, from, epoch),
        Body::Victory { quorum } => hear_victory(here, from, epoch, *quorum),
        Body::Ping { table } => hear_ping(here, from, table),
        Body::PingReply { table } => Ok(hear_ping_reply(here, from, table)),
        _ => unreachable!(),
    }
}

/// A timer of the elector fires. It was armed, and is disarmed already.
fn ring(here: &Here<'_>, timer: Timer) -> Result<Plan<Elector>, RoleStop>
    requires { IsTrue (is_rung timer) }
    ensures plans { ByRow here.now (timer_comes here.now.me.now here.now.time timer) result }
    ensures leaves { IfOk result (λ p. Leaves here.now.view.now.phase p.next p.tx) }
{
    match timer {
        Timer::Election => election_ends(here),
        Timer::Ping => ping(here),
        _ => unreachable!(),
    }
}

/// What an elector does at a PROPOSE, ACK, VICTORY, PING or PING_REPLY that is taken, and when the timer of an
/// election or the one to ping fires: its row of the protocol's table. What is dropped takes no memory. `Spent` names
/// the epoch that the monitor would lead in, if that would pass 2^62.
pub fn step(
    alloc: Global,
    kv: &Kv,
    me: &Me,
    view: &View,
    state: &Elector,
    input: &Input,
    now: Moment,
) -> Result<Plan<Elector>, RoleStop>
    requires { IsTrue (is_input input.now) }
    ensures plans { (shared : List Entry) → PlansElection me.now now (readings_of kv.now) view.now state.now
        (row me.now shared now input.now) result }
    ensures leaves { IfOk result (λ p. Leaves view.now.phase p.next p.tx) }
{
    let stored = Stored::of(alloc, kv);
    let here = Here {
        alloc,
        stored: &stored,
        me,
        view,
        state,
        time: now,
    };
    match input {
        Input::Deliver(message) => hear(&here, message),
        Input::Timer(timer) => ring(&here, *timer),
        Input::Start | Input::Client(..) => unreachable!(),
    }
}
