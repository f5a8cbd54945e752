//! What a monitor does at each input that its clients' commands and reads are made of.

ghost use Rattle.std.specs.Prelude.{◌≡◌, List, IfOk, IsTrue};
ghost use Rattle.mon_bytes.specs.declared.entry.Entry.{Entry};
ghost use Rattle.mon_msg.specs.Protocol.Course.{clients_are};
ghost use Rattle.mon_msg.specs.Protocol.Hearing.{hear, hear_client};
ghost use Rattle.mon_msg.specs.Protocol.Readings.{readings_of};
ghost use Rattle.mon_plan.specs.Inputs.{input_is_short, row};
ghost use Rattle.mon_plan.specs.Leaves.{Leaves};
ghost use Rattle.mon_plan.specs.Plans.{PlansRow};
ghost use Rattle.mon_plan.specs.Seen.{IsMet};
ghost use Rattle.mon_client.specs.Rows.{ByRow, is_role_message, is_asked, is_input};

use crate::commands::{ask, propose_due};
use crate::handed_on::{forward, route};
use crate::here::Here;
use crate::reads::since;
use mon_bytes::{Command, OutOfMemory};
use mon_kv::Kv;
use mon_msg::input::Input;
use mon_msg::{Body, Clients, Me, Message, Plan, Request, RoleStop, Session, View};
use mon_types::Moment;
use std::alloc::Global;

/// Hears a FORWARD or ROUTE of another monitor.
fn hear(here: &Here<'_>, clients: Clients, message: &Message) -> Result<Plan<Clients>, RoleStop>
    requires { IsTrue (is_role_message message.now.body) }
    ensures plans { (shared : List Entry) → ByRow here.now clients
        (hear here.now.me.now shared here.now.time message.now.from message.now.epoch message.now.body) result }
    ensures leaves { IfOk result (λ plan. Leaves here.now.view.now.phase plan.next plan.tx) }
{
    let (from, epoch) = (message.from, message.epoch);
    match &message.body {
        Body::Forward { seq, command } => forward(here, clients, from, epoch, *seq, command),
        Body::Route { seq, reply } => route(here, clients, from, epoch, *seq, reply),
        _ => unreachable!(),
    }
}

/// A client's request: a command, or what changed a service's map after a version.
fn client(
    here: &Here<'_>,
    clients: Clients,
    session: Session,
    request: &Request,
) -> Result<Plan<Clients>, RoleStop>
    requires { IsTrue (is_asked request.now) }
    ensures plans { ByRow here.now clients
        (hear_client here.now.me.now here.now.time session request.now) result }
    ensures leaves { IfOk result (λ plan. Leaves here.now.view.now.phase plan.next plan.tx) }
{
    match request {
        Request::Set { key, value } => {
            let command = Command::Set {
                key: key.copy(here.alloc)?,
                value: value.copy(here.alloc)?,
            };
            ask(here, clients, session, command)
        }
        Request::Remove { key } => {
            let command = Command::Remove {
                key: key.copy(here.alloc)?,
            };
            ask(here, clients, session, command)
        }
        Request::Log { text } => {
            let command = Command::Log {
                text: text.copy(here.alloc)?,
            };
            ask(here, clients, session, command)
        }
        Request::Since { service, version } => { since(here, clients, session, *service, *version) }
        Request::Show { .. } => unreachable!(),
    }
}

/// What a monitor does if a client asks for a change or for what changed, at a FORWARD or ROUTE that is taken, and
/// when the timer that proposes fires: its row of the protocol's table. A FORWARD counts if it is of a member of the
/// quorum that the monitor leads, in its epoch, with a greater number than those before; a ROUTE if it is of the
/// leader that it follows, in its epoch. Otherwise nothing is done. `Spent` names the version of the command's
/// service after its last one, or the number of a forwarded command, if that would pass 2^62.
pub fn step(
    alloc: Global,
    kv: &Kv,
    me: &Me,
    view: &View,
    state: &Clients,
    input: &Input,
    now: Moment,
) -> Result<Plan<Clients>, RoleStop>
    requires input { IsTrue (is_input input.now) }
    requires fits { IsTrue (input_is_short me.now.member.monitors input.now) }
    ensures plans { (shared : List Entry) → PlansRow me.now now clients_are
        (IsMet me.now now (readings_of kv.now) view.now (λ s. s.clients) state.now)
        (row me.now shared now input.now) result }
    ensures leaves { IfOk result (λ plan. Leaves view.now.phase plan.next plan.tx) }
{
    let here = mon_stored::Here {
        alloc,
        kv,
        me,
        time: now,
    };
    step_owned(&here, view, state.copy(alloc)?, input)
}

/// The same as `step`, by value: what is remembered moves into the plan, and the commands that wait aren't copied.
pub fn step_owned(
    here: &mon_stored::Here<'_>,
    view: &View,
    clients: Clients,
    input: &Input,
) -> Result<Plan<Clients>, RoleStop>
    requires input { IsTrue (is_input input.now) }
    requires fits { IsTrue (input_is_short here.now.me.now.member.monitors input.now) }
    ensures plans { (shared : List Entry) → PlansRow here.now.me.now here.now.time clients_are
        (IsMet here.now.me.now here.now.time (readings_of here.now.kv.now) view.now (λ s. s.clients) clients)
        (row here.now.me.now shared here.now.time input.now) result }
    ensures leaves { IfOk result (λ plan. Leaves view.now.phase plan.next plan.tx) }
{
    let here = Here {
        alloc: here.alloc,
        kv: here.kv,
        me: here.me,
        view,
        time: here.time,
    };
    match input {
        Input::Deliver(message) => hear(&here, clients, message),
        Input::Client(session, request) => client(&here, clients, *session, request),
        Input::Timer(_) => propose_due(&here, clients),
        Input::Start => unreachable!(),
    }
}
