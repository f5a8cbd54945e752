//! Each role's part: it plans what its input does, the plan is carried out, and the act that it names is done.

ghost use Rattle.mon_core.specs.Acts.{Carried, MayCarry};
ghost use Rattle.mon_core.specs.Rows.{AnswersRow, IsFor, IsReady};

use crate::acts::act;
use mon_event::{Event, Role, RoleState, view};
use mon_msg::input::Input;
use mon_msg::{Plan, RoleStop};
use mon_stored::Here;

/// A role's plan is carried out, and then the act that it names is done.
fn carry<S: RoleState>(here: &Here<'_>, event: &mut Event, plan: Plan<S>) -> Result<(), RoleStop>
    requires { MayCarry S.put here.now.me.now here.now.kv.now event.old plan }
    ensures { Carried S.put here.now.me.now here.now.kv.now here.now.time event.old plan event.new result }
{
    let next = event.carry_out(here.alloc, plan)?;
    act(here, event, next)
}

/// Does the protocol's row of an input of this role: a message that is heard, a timer that is disarmed already, or a
/// request. The role plans what its input does, its plan is carried out, and the act that the plan names is done.
pub(crate) fn answer(
    here: &Here<'_>,
    event: &mut Event,
    role: Role,
    input: &Input,
) -> Result<(), RoleStop>
    requires input { IsFor here.now.me.now role input.now }
    requires ready { IsReady here.now.me.now event.old }
    ensures { AnswersRow here.now.me.now here.now.kv.now here.now.time event.old input.now event.new result }
{
    let (alloc, kv, me, time) = (here.alloc, here.kv, here.me, here.time);
    let view = view(alloc, kv, me, &event.state, time);
    match role {
        Role::Prober => {
            let plan = mon_probe::step(alloc, kv, me, &view, &event.state.prober, input, time)?;
            carry(here, event, plan)
        }
        Role::Elector => {
            let plan = mon_elector::step(alloc, kv, me, &view, &event.state.elector, input, time)?;
            carry(here, event, plan)
        }
        Role::Leader => {
            let leader = event.state.take_leader();
            let plan = paxos_leader::step_owned(here, &view, leader, input)?;
            carry(here, event, plan)
        }
        Role::Peon => {
            let plan = paxos_peon::step(alloc, kv, me, &view, &event.state.peon, input, time)?;
            carry(here, event, plan)
        }
        Role::Clients => {
            let clients = event.state.take_clients(alloc);
            let plan = mon_client::step_owned(here, &view, clients, input)?;
            carry(here, event, plan)
        }
        Role::Provider => {
            let provider = &event.state.provider;
            let plan = sync_provider::step(alloc, kv, me, &view, provider, input, time)?;
            carry(here, event, plan)
        }
        Role::Requester => {
            let requester = &event.state.requester;
            let plan = sync_requester::step(alloc, kv, me, &view, requester, input, time)?;
            carry(here, event, plan)
        }
    }
}
