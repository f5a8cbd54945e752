//! What a monitor does at each input, except to show a map.

ghost use Rattle.std.specs.Prelude.{◌≡◌, ◌≤◌, ◌^◌, ◌++◌, false, is_some, IfOk, OnOk};
ghost use Rattle.std.specs.List.{AllByRecursion};
ghost use Rattle.mon_bounds.specs.Fitting.{IsValidInput};
ghost use Rattle.mon_msg.specs.Protocol.Changes.{encoded};
ghost use Rattle.mon_msg.specs.Protocol.Course.{arm_if};
ghost use Rattle.mon_msg.specs.Protocol.Entering.{scores_count};
ghost use Rattle.mon_msg.specs.Protocol.Phases.{same_phase};
ghost use Rattle.mon_msg.specs.Protocol.Played.{Fits};
ghost use Rattle.mon_msg.specs.Protocol.Readings.{readings_of, shared_entries};
ghost use Rattle.mon_msg.specs.Protocol.Table.{start, first_elector, before_start, running};
ghost use Rattle.mon_event.specs.Events.{Goes};
ghost use Rattle.mon_core.specs.Known.{asks_any_map};
ghost use Rattle.mon_core.specs.Rows.{AnswersInput, IsReady, ReachesFrom, first_changes, started};

use crate::acts::bootstrap;
use crate::roles::answer;
use election_rules::Scores;
use mon_bytes::OutOfMemory;
use mon_event::{Event, Role, hearer, is_heard, scores_count, woken_by};
use mon_msg::input::Input;
use mon_msg::{Elector, Me, Message, Phase, Reply, RoleStop, Timer};
use mon_plan::{armed, put_boot, put_epoch};
use mon_stored::{Here, Stored};
use mon_tx::Transaction;
use mon_types::{Epoch, GREATEST, Moment, RankSet, Which};
use std::alloc::Global;

// ---- the start

/// The start is counted, and an epoch that isn't there is put as 1.
fn first_changes(alloc: Global, stored: &Stored<'_>, boot: u64) -> Result<Transaction, OutOfMemory>
    requires { boot ≤ 2 ^ 62 }
    ensures changes { IfOk result (λ tx. tx ≡ encoded (first_changes boot (is_some (readings_of stored.now).epoch))) }
    ensures fit { AllByRecursion Fits (first_changes boot (is_some (readings_of stored.now).epoch)) }
{
    let mut tx = Transaction::new(alloc);
    put_boot(&mut tx, boot)?;
    if stored.has_epoch() {
        return Ok(tx);
    }
    put_epoch(&mut tx, Epoch::known(1))?;
    Ok(tx)
}

/// The elector's state after a start. Under connectivity the monitor begins to measure: every score is full.
fn measuring(me: &Me, elector: &Elector, boot: u64, now: Moment) -> Elector
    ensures { result ≡ first_elector me.now now boot elector.now }
{
    if !scores_count(&me.rule) {
        return *elector;
    }
    Elector {
        scores: Scores::start(me.member.rank, boot),
        heard: RankSet::empty(),
        pinged: now,
        ..*elector
    }
}

/// Under connectivity the monitor begins to ping.
fn begin_to_ping(me: &Me, event: &mut Event, now: Moment)
    ensures goes { Goes event.old event.new (arm_if (scores_count me.now.rule) now Timer.Ping) }
    ensures written { event.new.tx ≡ event.old.tx }
{
    if scores_count(&me.rule) {
        let arming = armed(now, Timer::Ping);
        event.state.set_timers(&[arming]);
    }
}

/// What a start does before the monitor bootstraps: it is counted, and under connectivity the monitor begins to measure
/// and to ping.
fn count_start(
    alloc: Global,
    stored: &Stored<'_>,
    me: &Me,
    event: &mut Event,
    boot: u64,
    now: Moment,
) -> Result<(), OutOfMemory>
    requires { boot ≤ 2 ^ 62 }
    ensures goes { OnOk result (Goes event.old event.new
        (started me.now now boot (is_some (readings_of stored.now).epoch) event.old.state.elector)) }
    ensures written { OnOk result (event.new.tx ≡ event.old.tx ++
        encoded (first_changes boot (is_some (readings_of stored.now).epoch))) }
{
    let elector = measuring(me, &event.state.elector, boot, now);
    let first = first_changes(alloc, stored, boot)?;
    event.write(first)?;
    event.state.elector = elector;
    begin_to_ping(me, event, now);
    Ok(())
}

/// The monitor starts, counts that, and bootstraps.
fn start(here: &Here<'_>, event: &mut Event) -> Result<(), RoleStop>
    requires { IsReady here.now.me.now event.old }
    ensures { ReachesFrom here.now.kv.now event.old (start here.now.me.now here.now.time) event.new result }
{
    let stored = Stored::of(here.alloc, here.kv);
    let boot = stored.boot() + 1;
    if boot > GREATEST {
        return Err(RoleStop::Spent { which: Which::Boot });
    }
    count_start(here.alloc, &stored, here.me, event, boot, here.time)?;
    bootstrap(here, event)
}

/// An input of a monitor that isn't started. The start starts it, and a client gets the reply `Unavailable`. Messages
/// and timers are dropped.
fn before_start(here: &Here<'_>, event: &mut Event, input: &Input) -> Result<(), RoleStop>
    requires { IsReady here.now.me.now event.old }
    ensures { ReachesFrom here.now.kv.now event.old (before_start here.now.me.now here.now.time input.now) event.new result }
{
    match input {
        Input::Start => start(here, event),
        Input::Deliver(_) | Input::Timer(_) => Ok(()),
        Input::Client(session, _) => {
            event.reply(*session, Reply::Unavailable)?;
            Ok(())
        }
    }
}

// ---- and then

/// A message. It is dropped if it isn't from another monitor of the same quorum map, or if it has a table of scores
/// although the rule counts none, or lacks one although the rule counts them.
fn deliver(
    here: &Here<'_>,
    event: &mut Event,
    message: &Message,
    input: &Input,
) -> Result<(), RoleStop>
    requires is { input.now ≡ Input.Deliver message.now }
    requires comes { IsValidInput input.now }
    requires ready { IsReady here.now.me.now event.old }
    ensures { ReachesFrom here.now.kv.now event.old (running here.now.me.now (shared_entries here.now.kv.now) here.now.time input.now) event.new result }
{
    let heard = is_heard(here.me, message);
    if !heard {
        return Ok(());
    }
    match hearer(&message.body) {
        Some(role) => answer(here, event, role, input),
        None => Ok(()),
    }
}

/// A timer, which is dropped if it isn't set, and disarmed if it is.
fn ring(here: &Here<'_>, event: &mut Event, kind: Timer, input: &Input) -> Result<(), RoleStop>
    requires is { input.now ≡ Input.Timer kind }
    requires ready { IsReady here.now.me.now event.old }
    ensures { ReachesFrom here.now.kv.now event.old (running here.now.me.now (shared_entries here.now.kv.now) here.now.time input.now) event.new result }
{
    if !event.state.timers.is_armed(kind) {
        return Ok(());
    }
    event.state.timers.disarm(kind);
    answer(here, event, woken_by(kind), input)
}

fn is_booting(phase: Phase) -> bool
    ensures { result ≡ same_phase phase Phase.Booting }
{
    matches!(phase, Phase::Booting)
}

/// Does what the protocol says at an input that asks for no map.
pub(crate) fn run(here: &Here<'_>, event: &mut Event, input: &Input) -> Result<(), RoleStop>
    requires asks { asks_any_map input.now ≡ false }
    requires comes { IsValidInput input.now }
    requires ready { IsReady here.now.me.now event.old }
    ensures { AnswersInput here.now.me.now here.now.kv.now here.now.time event.old input.now event.new result }
{
    if is_booting(event.state.phase) {
        return before_start(here, event, input);
    }
    match input {
        Input::Start => Ok(()),
        Input::Deliver(message) => deliver(here, event, message, input),
        Input::Timer(kind) => ring(here, event, *kind, input),
        Input::Client(..) => answer(here, event, Role::Clients, input),
    }
}
