//! What a peon does at each of its inputs.

ghost use Rattle.std.specs.Prelude.{◌≡◌, ◌&&◌, ◌==◌, List, IfOk, IsTrue};
ghost use Rattle.mon_bytes.specs.declared.entry.Entry.{Entry};
ghost use Rattle.mon_msg.specs.Protocol.Course.{peon_is};
ghost use Rattle.mon_msg.specs.Protocol.Hearing.{hear};
ghost use Rattle.mon_msg.specs.Protocol.Length.{fits};
ghost use Rattle.mon_msg.specs.Protocol.Phases.{is_peon};
ghost use Rattle.mon_msg.specs.Protocol.Readings.{epoch_of, readings_of};
ghost use Rattle.mon_plan.specs.Inputs.{input_is_short, row};
ghost use Rattle.mon_plan.specs.Leaves.{Leaves};
ghost use Rattle.mon_plan.specs.Plans.{PlansRow};
ghost use Rattle.mon_plan.specs.Seen.{IsMet};
ghost use Rattle.paxos_peon.specs.Rows.{is_role_message, is_input};

use crate::collecting::collect;
use crate::here::Here;
use crate::leasing::lease;
use crate::values::{begin, commit};
use mon_kv::Kv;
use mon_msg::input::Input;
use mon_msg::{Body, Me, Message, Next, Peon, Plan, RoleStop, View};
use mon_plan::{planned, stay};
use mon_stored::Stored;
use mon_types::Moment;
use std::alloc::Global;

/// Whether a message is of the leader that the monitor follows, and of its epoch.
fn is_ours(here: &Here<'_>, view: &View, message: &Message) -> bool
    ensures { result ≡ (is_peon view.now.phase && message.now.epoch == epoch_of (readings_of here.now.stored.now)
        && message.now.from == here.now.state.now.leader) }
{
    view.phase.is_peon()
        && message.epoch.get() == here.stored.epoch().get()
        && message.from == here.state.leader
}

/// Hears a COLLECT, BEGIN, COMMIT or LEASE. It is dropped if it isn't from the leader, or isn't of this epoch.
fn hear(here: &Here<'_>, view: &View, message: &Message) -> Result<Plan<Peon>, RoleStop>
    requires input { IsTrue (is_role_message message.now.body) }
    requires fits { IsTrue (fits here.now.me.now.member.monitors message.now.body) }
    ensures plans { (shared : List Entry) → let me = here.now.me.now in let now = here.now.time in
        PlansRow me now peon_is
        (IsMet me now (readings_of here.now.stored.now) view.now (λ s. s.peon) here.now.state.now)
        (hear me shared now message.now.from message.now.epoch message.now.body) result }
    ensures leaves { IfOk result (λ p. Leaves view.now.phase p.next p.tx) }
{
    if !is_ours(here, view, message) {
        return Ok(stay(here.alloc, *here.state));
    }
    match &message.body {
        Body::Collect { pn, first, last } => collect(here, *pn, *first, *last),
        Body::Begin { pn, version, value } => begin(here, *pn, *version, value),
        Body::Commit { from, values } => commit(here, *from, values.as_slice()),
        Body::Lease { last } => lease(here, *last),
        _ => unreachable!(),
    }
}

/// What a peon does at a COLLECT, BEGIN, COMMIT or LEASE that is taken, and when its lease's timer fires: its row of
/// the protocol's table. A message that isn't of its leader in its epoch is dropped, and what is dropped takes no
/// memory. `Spent` names the version after the leader's last one, or the last one of those that are learned, if that
/// would pass 2^62.
pub fn step(
    alloc: Global,
    kv: &Kv,
    me: &Me,
    view: &View,
    state: &Peon,
    input: &Input,
    now: Moment,
) -> Result<Plan<Peon>, RoleStop>
    requires input { IsTrue (is_input input.now) }
    requires fits { IsTrue (input_is_short me.now.member.monitors input.now) }
    ensures plans { (shared : List Entry) → PlansRow me.now now peon_is
        (IsMet me.now now (readings_of kv.now) view.now (λ s. s.peon) state.now)
        (row me.now shared now input.now) result }
    ensures leaves { IfOk result (λ p. Leaves view.now.phase p.next p.tx) }
{
    match input {
        Input::Deliver(message) => {
            let stored = Stored::of(alloc, kv);
            let here = Here {
                alloc,
                stored: &stored,
                me,
                state,
                time: now,
            };
            hear(&here, view, message)
        }
        Input::Timer(_) => Ok(planned(alloc, *state, Next::Bootstrap)),
        Input::Start | Input::Client(..) => unreachable!(),
    }
}
