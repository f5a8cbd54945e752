//! The summary of a made run.

ghost use Rattle.std.specs.Prelude.{◌≡◌, ◌+◌, ◌≤◌, ℕ, List, IfErr, IfOk, OnOk, length};
ghost use Rattle.serde_json.specs.Data.{put};
ghost use Rattle.serde_json.specs.View.{items_view, members_view, view};
ghost use Rattle.quorum_model.specs.Monitors.{Monitors};
ghost use Rattle.quorum_model.specs.Scenes.{Scene};
ghost use Rattle.schedule_text.specs.Encoding.{HasText};
ghost use Rattle.mon_world.specs.Represented.{RepresentsScene};
ghost use Rattle.cephmon_run.specs.Replay.{StopsAs};
ghost use Rattle.cephmon_run.specs.Summary.{AreNumbers, IsLine, and_step, last_versions, line_text, no_counts, object_of, summary};

use mon_bytes::OutOfMemory;
use mon_types::Rank;
use mon_world::{World, WorldStop};
use schedule_text::Schedule;
use serde_json::{Map, Value};
use std::alloc::Global;
use trace_text::StepLine;

/// What is counted in a run.
#[derive(Clone, Copy)]
pub struct Counts {
    /// Replies to clients.
    replies: u64,
    /// Messages among monitors.
    sent: u64,
    /// Events whose transaction isn't empty and is applied.
    stores: u64,
}

impl Counts {
    fn of_none() -> Counts
        ensures { result ≡ no_counts }
    {
        Counts {
            replies: 0,
            sent: 0,
            stores: 0,
        }
    }

    /// These counts plus those of a step. A count that would pass 2^64 - 1 is reported as out of memory: no run is
    /// that long.
    fn and(self, step: &StepLine) -> Result<Counts, OutOfMemory>
        ensures { IfOk result (λ k. k ≡ and_step step.now self) }
    {
        Ok(Counts {
            replies: sum(self.replies, step.replies.as_slice().len() as u64)?,
            sent: sum(self.sent, step.sent.as_slice().len() as u64)?,
            stores: sum(self.stores, u64::from(step.ops > 0))?,
        })
    }
}

/// The sum of two counts. One that would pass 2^64 - 1 is reported as out of memory.
fn sum(a: u64, b: u64) -> Result<u64, OutOfMemory>
    ensures { IfOk result (λ c. c ≡ a + b) }
{
    a.checked_add(b).ok_or(OutOfMemory)
}

/// The last versions of the first `monitors` monitors, as JSON numbers.
fn last_versions(alloc: Global, world: &World, monitors: u8) -> Result<Vec<Value>, OutOfMemory>
    requires there { monitors ≤ length world.now.monitors.items }
    requires most { monitors ≤ 15 }
    ensures { (ms : Monitors) (c : Scene) → RepresentsScene ms world.now c →
        IfOk result (λ list. AreNumbers list.items (last_versions c monitors)) }
{
    let mut last = Vec::new(alloc);
    for rank in 0..monitors {
        last.push(Value::from(world.last_of(Rank::known(rank)).get()))?;
    }
    Ok(last)
}

/// An object with one member more.
fn add(
    alloc: Global,
    members: &mut Map<String, Value>,
    name: &str,
    value: Value,
) -> Result<(), OutOfMemory>
    ensures { OnOk result (members_view members.new.entries ≡
        put name.now (view value) (members_view members.old.entries)) }
{
    let name = String::from_str(alloc, name)?;
    drop(members.insert(name, value)?);
    Ok(())
}

/// The JSON object of a summary.
fn object_of(
    alloc: Global,
    events: u64,
    last: Vec<Value>,
    log: u64,
    counts: Counts,
) -> Result<Value, OutOfMemory>
    ensures { IfOk result (λ v. view v ≡ object_of events (items_view last.items) log counts) }
{
    let mut members = Map::new(alloc);
    add(alloc, &mut members, "events", Value::from(events))?;
    add(alloc, &mut members, "last", Value::from(last))?;
    add(alloc, &mut members, "log", Value::from(log))?;
    add(alloc, &mut members, "replies", Value::from(counts.replies))?;
    add(alloc, &mut members, "sent", Value::from(counts.sent))?;
    add(alloc, &mut members, "stores", Value::from(counts.stores))?;
    Ok(Value::from(members))
}

/// The line of a summary.
fn line_of(
    alloc: Global,
    events: u64,
    last: Vec<Value>,
    log: u64,
    counts: Counts,
) -> Result<Vec<u8>, OutOfMemory>
    ensures { (ns : List ℕ) → AreNumbers last.items ns →
        IfOk result (λ line. line.items ≡ line_text events ns log counts) }
{
    let summary = object_of(alloc, events, last, log, counts)?;
    let mut line = summary.to_string(alloc)?;
    line.push_str("\n")?;
    Ok(line.into_bytes())
}

/// Runs a schedule to its end, and returns its summary line. If the run stops, it returns why.
pub fn summary_of(alloc: Global, schedule: &Schedule) -> Result<Vec<u8>, WorldStop>
    requires { HasText schedule.now }
    ensures line { (ms : Monitors) → ms.count ≡ schedule.now.monitors → ms.rule ≡ schedule.now.rule
        → IfOk result (λ line. IsLine (summary ms schedule.now.events) line.items) }
    ensures stops { (ms : Monitors) → ms.count ≡ schedule.now.monitors → ms.rule ≡ schedule.now.rule
        → IfErr result (λ e. StopsAs e (summary ms schedule.now.events).stop) }
{
    let mut world = World::new(alloc, schedule.monitors, schedule.rule)?;
    let mut counts = Counts::of_none();
    for event in schedule.events.as_slice() {
        counts = counts.and(&world.step(event)?)?;
    }
    let last = last_versions(alloc, &world, schedule.monitors)?;
    let events = schedule.events.as_slice().len() as u64;
    Ok(line_of(alloc, events, last, world.log_len(), counts)?)
}
