//! The acts that plans name, each done by the role that enters it.

ghost use Rattle.std.specs.Prelude.{if◌then◌else◌};
ghost use Rattle.mon_msg.specs.declared.plan.Next.TheVariants as next;
ghost use Rattle.mon_core.specs.Acts.{Acts, IsLast, MayAct};

use mon_event::Event;
use mon_msg::{Next, Origin, Phase, RoleStop};
use mon_stored::Here;
use mon_tx::Transaction;
use mon_types::{Rank, RankSet};

/// Leads, if the monitor won as it began again, because it is alone in its quorum map.
fn lead_alone(here: &Here<'_>, event: &mut Event, next: Next) -> Result<(), RoleStop>
    requires last { IsLast next }
    requires may { MayAct here.now.me.now here.now.kv.now event.old next }
    ensures { Acts here.now.me.now here.now.kv.now here.now.time event.old next event.new result }
{
    match next {
        Next::Win { quorum } => reign(here, event, quorum),
        _ => Ok(()),
    }
}

/// The monitor begins again, and probes.
pub(crate) fn bootstrap(here: &Here<'_>, event: &mut Event) -> Result<(), RoleStop>
    requires { MayAct here.now.me.now here.now.kv.now event.old next.Bootstrap }
    ensures { Acts here.now.me.now here.now.kv.now here.now.time event.old next.Bootstrap event.new result }
{
    let epoch = event.epoch(here.alloc, here.kv)?;
    let plan = mon_probe::enter(here.alloc, here.kv, here.me, epoch, here.time)?;
    event.start_over(here.alloc, Phase::Probing);
    let next = event.carry_out(here.alloc, plan)?;
    lead_alone(here, event, next)
}

/// The monitor calls an election, and takes part in it.
fn elect(here: &Here<'_>, event: &mut Event) -> Result<(), RoleStop>
    ensures { Acts here.now.me.now here.now.kv.now here.now.time event.old next.Elect event.new result }
{
    let epoch = event.epoch(here.alloc, here.kv)?;
    let plan = mon_elector::enter(here.alloc, here.me, epoch, &event.state.elector, here.time)?;
    event.start_over(here.alloc, Phase::Electing);
    event.carry_out(here.alloc, plan)?;
    Ok(())
}

/// The monitor leads this quorum.
fn reign(here: &Here<'_>, event: &mut Event, quorum: RankSet) -> Result<(), RoleStop>
    requires { MayAct here.now.me.now here.now.kv.now event.old (next.Win quorum) }
    ensures { Acts here.now.me.now here.now.kv.now here.now.time event.old (next.Win quorum) event.new result }
{
    let epoch = event.epoch(here.alloc, here.kv)?;
    let plan = paxos_leader::enter(here.alloc, here.kv, here.me, epoch, quorum, here.time)?;
    event.enter_phase(Phase::Collecting);
    event.carry_out(here.alloc, plan)?;
    Ok(())
}

/// The monitor takes another's store: a whole copy, or the versions that its own lacks.
fn synchronize(here: &Here<'_>, event: &mut Event, from: Rank, full: bool) -> Result<(), RoleStop>
    requires { MayAct here.now.me.now here.now.kv.now event.old (if full then next.FullSync from else next.RecentSync from) }
    ensures { Acts here.now.me.now here.now.kv.now here.now.time event.old (if full then next.FullSync from
        else next.RecentSync from) event.new result }
{
    let epoch = event.epoch(here.alloc, here.kv)?;
    let plan = sync_requester::enter(here.alloc, here.kv, here.me, epoch, from, full, here.time)?;
    event.enter_phase(Phase::Synchronizing);
    event.carry_out(here.alloc, plan)?;
    Ok(())
}

/// The value of a command is begun.
fn begin(
    here: &Here<'_>,
    event: &mut Event,
    value: Transaction,
    origin: Origin,
) -> Result<(), RoleStop>
    requires { MayAct here.now.me.now here.now.kv.now event.old (next.Begin value origin) }
    ensures { Acts here.now.me.now here.now.kv.now here.now.time event.old (next.Begin value origin) event.new result }
{
    let leader = event.state.take_leader();
    let plan = paxos_leader::begin_owned(here, leader, value, origin)?;
    event.carry_out(here.alloc, plan)?;
    Ok(())
}

/// The act that a plan names, in the same event.
pub(crate) fn act(here: &Here<'_>, event: &mut Event, next: Next) -> Result<(), RoleStop>
    requires { MayAct here.now.me.now here.now.kv.now event.old next }
    ensures { Acts here.now.me.now here.now.kv.now here.now.time event.old next event.new result }
{
    match next {
        Next::Stay | Next::Electing | Next::Follow { .. } => Ok(()),
        Next::Bootstrap => bootstrap(here, event),
        Next::Elect => elect(here, event),
        Next::Win { quorum } => reign(here, event, quorum),
        Next::FullSync { from } => synchronize(here, event, from, true),
        Next::RecentSync { from } => synchronize(here, event, from, false),
        Next::Begin { value, origin } => begin(here, event, value, origin),
    }
}
