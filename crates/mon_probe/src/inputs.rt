//! What a prober does at each of its inputs.

ghost use Rattle.std.specs.Prelude.{◌≡◌, ℕ, List, IfOk, IsTrue};
ghost use Rattle.mon_bytes.specs.declared.entry.Entry.{Entry};
ghost use Rattle.mon_msg.specs.Protocol.Hearing.{hear};
ghost use Rattle.mon_msg.specs.Protocol.Readings.{readings_of};
ghost use Rattle.mon_plan.specs.Inputs.{row};
ghost use Rattle.mon_plan.specs.Leaves.{Leaves};
ghost use Rattle.mon_probe.specs.Rows.{is_role_message, is_input, ByRow, PlansProbe};

use crate::here::Here;
use crate::probes::{hear_probe, hear_probe_reply};
use mon_kv::Kv;
use mon_msg::input::Input;
use mon_msg::{Body, Me, Message, Next, Plan, Prober, RoleStop, View};
use mon_plan::planned;
use mon_stored::Stored;
use mon_types::Moment;
use std::alloc::Global;

/// Hears a PROBE or PROBE_REPLY of another monitor.
fn hear(here: &Here<'_>, message: &Message) -> Result<Plan<Prober>, RoleStop>
    requires { IsTrue (is_role_message message.now.body) }
    ensures plans { (shared : List Entry) (now : ℕ) → let m = message.now in
        ByRow here.now now (hear here.now.me.now shared now m.from m.epoch m.body) result }
    ensures leaves { IfOk result (λ p. Leaves here.now.view.now.phase p.next p.tx) }
{
    let from = message.from;
    match &message.body {
        Body::Probe => hear_probe(here, from),
        Body::ProbeReply {
            quorum,
            first,
            last,
        } => Ok(hear_probe_reply(here, from, *quorum, *first, *last)),
        _ => unreachable!(),
    }
}

/// What a prober does at a PROBE or PROBE_REPLY that is heard, and when the timer `Probe` fires: its row of the
/// protocol's table. The timer was armed, and is disarmed already. What is dropped takes no memory, and no number runs
/// out.
pub fn step(
    alloc: Global,
    kv: &Kv,
    me: &Me,
    view: &View,
    state: &Prober,
    input: &Input,
    now: Moment,
) -> Result<Plan<Prober>, RoleStop>
    requires { IsTrue (is_input input.now) }
    ensures plans { (shared : List Entry) → PlansProbe me.now now (readings_of kv.now) view.now state.now
        (row me.now shared now input.now) result }
    ensures leaves { IfOk result (λ p. Leaves view.now.phase p.next p.tx) }
{
    match input {
        Input::Deliver(message) => {
            let stored = Stored::of(alloc, kv);
            let here = Here {
                alloc,
                stored: &stored,
                me,
                view,
                state,
            };
            hear(&here, message)
        }
        Input::Timer(_) => Ok(planned(alloc, *state, Next::Bootstrap)),
        Input::Start | Input::Client(..) => unreachable!(),
    }
}
