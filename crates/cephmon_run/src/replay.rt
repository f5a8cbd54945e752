//! Runs a schedule, and writes the lines of each event before the next one is run.

ghost use Rattle.std.specs.Prelude.{◌≡◌, ◌≤◌, Err, length};
ghost use Rattle.mon_types.specs.Faults.{Rose};
ghost use Rattle.quorum_model.specs.Monitors.{Monitors};
ghost use Rattle.quorum_model.specs.Scenes.{Scene, first_scene};
ghost use Rattle.schedule_text.specs.Encoding.{HasText};
ghost use Rattle.mon_world.specs.Represented.{Fits, IsWorld, RepresentsScene};
ghost use Rattle.mon_world.specs.Step.{step};
ghost use Rattle.cephmon_run.specs.Replay.{Did, Writes};
ghost use Rattle.cephmon_run.specs.Trace.{trace, trace_from};

use mon_bytes::OutOfMemory;
use mon_link::{Sink, write_all};
use mon_types::Stop;
use mon_world::{World, WorldStop};
use schedule_text::{Event, Schedule};
use std::alloc::Global;
use trace_text::{end_line, header_line, trace_line};

/// Why a replay stopped before its end.
#[derive(Clone, Copy, PartialEq, Eq)]
pub enum ReplayStop {
    /// Standard output couldn't be written.
    WriteFault,
    /// The run itself stopped.
    World(WorldStop),
}

impl From<WorldStop> for ReplayStop {
    ghost use Rattle.std.specs.Prelude.{◌≡◌};
    ghost use Rattle.cephmon_run.specs.declared.replay.ReplayStop.TheVariants as stop;

    ghost from_gives = { λ s e. e ≡ stop.World s };

    fn from(stop: WorldStop) -> ReplayStop {
        ReplayStop::World(stop)
    }
}

impl From<Stop> for ReplayStop {
    ghost use Rattle.std.specs.Prelude.{◌≡◌};
    ghost use Rattle.cephmon_run.specs.Replay.{fault_of};

    ghost from_gives = { λ s e. e ≡ fault_of s };

    fn from(stop: Stop) -> ReplayStop {
        match stop {
            Stop::Failed => ReplayStop::WriteFault,
            Stop::OutOfMemory => ReplayStop::World(WorldStop::OutOfMemory),
        }
    }
}

impl From<OutOfMemory> for ReplayStop {
    ghost use Rattle.std.specs.Prelude.{◌≡◌};
    ghost use Rattle.cephmon_run.specs.Replay.{no_memory};

    ghost from_gives = { λ _ e. e ≡ no_memory };

    fn from(_e: OutOfMemory) -> ReplayStop {
        ReplayStop::World(WorldStop::OutOfMemory)
    }
}

/// Does one event, and writes its lines.
fn do_event<K: Sink>(
    alloc: Global,
    sink: &mut K,
    world: &mut World,
    number: u32,
    event: &Event,
) -> Result<(), ReplayStop>
    requires fits { Fits (length world.old.monitors.items) event.now }
    requires world { IsWorld world.old }
    ensures writes { (ms : Monitors) (c : Scene) → RepresentsScene ms world.old c
        → Did ms result world.new (K.held sink.old) (K.held sink.new) number event.now (step ms c event.now) }
    ensures later { K.faults sink.old ≤ K.faults sink.new }
    ensures fault { result ≡ Err ReplayStop.WriteFault → Rose (K.faults sink.old) (K.faults sink.new) }
{
    let step = world.step(event)?;
    let lines = trace_line(alloc, number, event, &step)?;
    write_all(sink, lines.as_slice())?;
    Ok(())
}

/// Runs the events, and writes their lines and the last line.
fn do_events<K: Sink>(alloc: Global, sink: &mut K, schedule: &Schedule) -> Result<(), ReplayStop>
    requires { HasText schedule.now }
    ensures writes { (ms : Monitors) → ms.count ≡ schedule.now.monitors → ms.rule ≡ schedule.now.rule
        → Writes result (K.held sink.old) (K.held sink.new) (trace_from ms 0 first_scene schedule.now.events) }
    ensures later { K.faults sink.old ≤ K.faults sink.new }
    ensures fault { result ≡ Err ReplayStop.WriteFault → Rose (K.faults sink.old) (K.faults sink.new) }
{
    let mut world = World::new(alloc, schedule.monitors, schedule.rule)?;
    let mut number: u32 = 0;
    for event in schedule.events.as_slice() {
        number += 1;
        do_event(alloc, sink, &mut world, number, event)?;
    }
    let line = end_line(alloc, number, world.log_len())?;
    write_all(sink, line.as_slice())?;
    Ok(())
}

/// Runs a schedule, and writes its trace: the lines of each event after it was run.
pub fn replay<K: Sink>(alloc: Global, sink: &mut K, schedule: &Schedule) -> Result<(), ReplayStop>
    requires { HasText schedule.now }
    ensures writes { (ms : Monitors) → ms.count ≡ schedule.now.monitors → ms.rule ≡ schedule.now.rule
        → Writes result (K.held sink.old) (K.held sink.new) (trace ms schedule.now.events) }
    ensures later { K.faults sink.old ≤ K.faults sink.new }
    ensures fault { result ≡ Err ReplayStop.WriteFault → Rose (K.faults sink.old) (K.faults sink.new) }
{
    let line = header_line(alloc, schedule)?;
    write_all(sink, line.as_slice())?;
    do_events(alloc, sink, schedule)
}
