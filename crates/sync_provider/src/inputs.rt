//! What a provider does at each of its inputs.

ghost use Rattle.std.specs.Prelude.{◌≡◌, ℕ, IfOk, IsTrue};
ghost use Rattle.mon_msg.specs.Protocol.Course.{provider_is};
ghost use Rattle.mon_msg.specs.Protocol.Hearing.{hear};
ghost use Rattle.mon_msg.specs.Protocol.Readings.{readings_of, shared_entries};
ghost use Rattle.mon_msg.specs.declared.plan.Next.TheVariants as next;
ghost use Rattle.mon_plan.specs.Inputs.{row};
ghost use Rattle.mon_plan.specs.Leaves.{Leaves};
ghost use Rattle.mon_plan.specs.Plans.{PlansRow};
ghost use Rattle.mon_plan.specs.Seen.{IsMet};
ghost use Rattle.sync_provider.specs.Rows.{is_asked, is_input, ByRow};

use crate::chunk::give_chunk;
use crate::cookies::{grant, grant_recent};
use crate::here::Here;
use mon_kv::Kv;
use mon_msg::input::Input;
use mon_msg::{Body, Me, Message, Plan, Provider, RoleStop, View};
use mon_plan::stay;
use mon_stored::Stored;
use mon_types::Moment;
use std::alloc::Global;

/// A message of a monitor that synchronizes, or is about to. A monitor that is marked itself drops it.
fn hear(here: &Here<'_>, message: &Message) -> Result<Plan<Provider>, RoleStop>
    requires { IsTrue (is_asked message.now.body) }
    ensures plans { (now : ℕ) → let m = message.now in ByRow here.now now
        (hear here.now.me.now (shared_entries here.now.kv.now) now m.from m.epoch m.body) result }
    ensures stays { IfOk result (λ plan. plan.next ≡ next.Stay) }
{
    let stored = Stored::of(here.alloc, here.kv);
    if stored.is_marked() {
        return Ok(stay(here.alloc, *here.state));
    }
    match &message.body {
        Body::GetCookieFull => grant(here, message.from, true),
        Body::GetCookieRecent { last } => grant_recent(here, message.from, *last),
        Body::GetChunk { cookie, place } => give_chunk(here, message.from, *cookie, place),
        _ => unreachable!(),
    }
}

/// What a provider does at a GET_COOKIE_FULL, GET_COOKIE_RECENT or GET_CHUNK that is taken: its row of the protocol's
/// table. A monitor that is marked drops them without taking memory. `Spent` names the cookie's number if that would
/// pass 2^62.
pub fn step(
    alloc: Global,
    kv: &Kv,
    me: &Me,
    view: &View,
    state: &Provider,
    input: &Input,
    now: Moment,
) -> Result<Plan<Provider>, RoleStop>
    requires { IsTrue (is_input input.now) }
    ensures plans { PlansRow me.now now provider_is
        (IsMet me.now now (readings_of kv.now) view.now (λ s. s.provider) state.now)
        (row me.now (shared_entries kv.now) now input.now) result }
    ensures leaves { IfOk result (λ plan. Leaves view.now.phase plan.next plan.tx) }
{
    match input {
        Input::Deliver(message) => {
            let here = Here {
                alloc,
                kv,
                me,
                state,
            };
            hear(&here, message)
        }
        Input::Start | Input::Timer(_) | Input::Client(..) => unreachable!(),
    }
}
