//! Commands become values.

ghost use Rattle.std.specs.Prelude.{◌≡◌, ◌+◌, ◌^◌, ◌≢◌, [], ◌∷◌, min, IfOk, OnOk};
ghost use Rattle.mon_msg.specs.Protocol.Proposing.{refusal, asked_of, propose};
ghost use Rattle.mon_msg.specs.Protocol.Readings.{epoch_of, readings_of};
ghost use Rattle.mon_msg.specs.Protocol.Sending.{answer_to};
ghost use Rattle.mon_msg.specs.Protocol.Timers.{length_of};
ghost use Rattle.mon_msg.specs.declared.plan.Arming.TheVariants as arming;
ghost use Rattle.mon_msg.specs.declared.plan.Next.TheVariants as next;
ghost use Rattle.mon_wire.specs.declared.phase.Phase.TheVariants as phase;
ghost use Rattle.mon_wire.specs.declared.phase.Timer.TheVariants as timer;
ghost use Rattle.mon_plan.specs.Leaves.{Leaves};
ghost use Rattle.mon_client.specs.Rows.{ByRowOnce};

use crate::here::Here;
use mon_bytes::{Command, CommandRefused, OutOfMemory};
use mon_msg::{Clients, Me, Next, Origin, Plan, Reply, RoleStop, Timer};
use mon_plan::{armed, one, planned};
use mon_tx::Transaction;
use mon_types::{GREATEST, Rank, Which};
use svc_core::{last_version, service_of, value};

/// The reply to a refused command. Out of memory is no refusal.
fn refusal(refused: CommandRefused) -> Result<Reply, OutOfMemory>
    ensures reply { IfOk result (λ reply. reply ≡ refusal refused) }
    ensures known { OnOk result (refused ≢ CommandRefused.OutOfMemory) }
{
    match refused {
        CommandRefused::NoSuch => Ok(Reply::NoSuch),
        CommandRefused::TooLong { len, most } => Ok(Reply::TooLong { len, most }),
        CommandRefused::MapFull { would_be } => Ok(Reply::MapFull { would_be }),
        CommandRefused::OutOfMemory => Err(OutOfMemory),
    }
}

/// The rank of the monitor that the client asked.
fn asked_of(me: &Me, origin: Origin) -> Rank
    ensures { result ≡ asked_of me.now origin }
{
    match origin {
        Origin::Session(_) => me.member.rank,
        Origin::Forwarded { rank, .. } => rank,
    }
}

/// The plan for a command that makes no version: it is answered, and `Propose` is armed for the command that waits
/// next.
fn refuse(
    here: &Here<'_>,
    clients: Clients,
    origin: Origin,
    reply: Reply,
) -> Result<Plan<Clients>, OutOfMemory>
    ensures { IfOk result (λ plan. plan ≡ record {
      tx = [];
      out = answer_to here.now.me.now (epoch_of (readings_of here.now.kv.now)) origin reply ∷ [];
      timers = arming.Arm timer.Propose (min (here.now.time + length_of timer.Propose) (2 ^ 62)) ∷ [];
      state = clients;
      next = next.Stay;
    }) }
{
    let timers = one(here.alloc, armed(here.time, Timer::Propose))?;
    let out = one(here.alloc, here.answer(origin, reply))?;
    Ok(Plan {
        tx: Transaction::new(here.alloc),
        out,
        timers,
        state: clients,
        next: Next::Stay,
    })
}

/// Names the act that begins a command's value, or refuses the command. `clients` is what the role remembers then.
/// `Spent` names the version of the command's service after its last one, if it would pass 2^62.
pub(crate) fn propose(
    here: &Here<'_>,
    clients: Clients,
    command: &Command,
    origin: Origin,
) -> Result<Plan<Clients>, RoleStop>
    ensures plans { ByRowOnce here.now clients (propose here.now.me.now here.now.time command.now origin) result }
    ensures leaves { IfOk result (λ plan. Leaves phase.Active plan.next plan.tx) }
{
    if last_version(here.kv, service_of(command)) >= GREATEST {
        return Err(RoleStop::Spent {
            which: Which::Version,
        });
    }
    match value(here.alloc, here.kv, command, asked_of(here.me, origin)) {
        Ok(value) => Ok(planned(here.alloc, clients, Next::Begin { value, origin })),
        Err(refused) => {
            let reply = refusal(refused)?;
            Ok(refuse(here, clients, origin, reply)?)
        }
    }
}
