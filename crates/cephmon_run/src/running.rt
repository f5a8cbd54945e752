//! The top call.

ghost use Rattle.std.specs.Prelude.{◌≡◌, ◌≤◌, ℕ, List, Option, Err, IfErr, IfOk};
ghost use Rattle.mon_types.specs.Faults.{Rose};
ghost use Rattle.quorum_model.specs.Monitors.{Monitors};
ghost use Rattle.schedule_made.specs.Made.{made_schedule};
ghost use Rattle.schedule_text.specs.Encoding.{HasText, schedule_text};
ghost use Rattle.task_words.specs.Task.{HasWords};
ghost use Rattle.cephmon_run.specs.Run.{Ends, HasCause, MadeCause, ReplayCause, ReportsFault};
ghost use Rattle.cephmon_run.specs.Replay.{StopsAs, status_of};
ghost use Rattle.cephmon_run.specs.Summary.{IsLine, summary};
ghost use Rattle.cephmon_run.specs.Talking.{RunTalks, TaskTalks};

use crate::further::{run_compare, run_follow, run_import, run_text};
use crate::node::{Ended, run_node};
use crate::replay::{ReplayStop, replay};
use crate::summary::summary_of;
use mon_disk::{Disk, NodeDisks};
use mon_link::{Clock, Link, Sink, Source, read_all, write_all};
use mon_msg::Me;
use mon_types::Stop;
use mon_world::WorldStop;
use run_status::Status;
use schedule_made::made;
use schedule_text::{Schedule, ScheduleRefused, parse};
use std::alloc::Global;
use stopped_stores::StoreText;
use task_words::{Task, WordsStop, read_words};

/// One more byte than a schedule may have, to distinguish one that is too long.
const MOST_SCHEDULE_READ: usize = 16_777_217;

/// The schedule that the bytes encode, or the status that says why there is none.
fn schedule_of(alloc: Global, bytes: &[u8]) -> Result<Schedule, Status>
    ensures found { IfOk result (λ s. HasText s × (bytes.now ≡ schedule_text s)) }
    ensures fault { IfErr result (ReportsFault bytes.now) }
{
    match parse(alloc, bytes) {
        Ok(schedule) => Ok(schedule),
        Err(ScheduleRefused::At { line, kind }) => Err(Status::Schedule { line, kind }),
        Err(ScheduleRefused::OutOfMemory) => Err(Status::OutOfMemory),
    }
}

/// Runs the schedule that the source has, and writes its trace to the sink.
fn run_replay<S: Source, K: Sink>(alloc: Global, source: &mut S, sink: &mut K) -> Status
    ensures { ReplayCause
        (record { left = S.left source.old; held = K.held sink.old; read_faults = S.faults source.old; write_faults = K.faults sink.old })
        (record { left = S.left source.new; held = K.held sink.new; read_faults = S.faults source.new; write_faults = K.faults sink.new })
        result }
{
    let bytes = match read_all(alloc, source, MOST_SCHEDULE_READ) {
        Ok(bytes) => bytes,
        Err(Stop::Failed) => return Status::ReadFault,
        Err(Stop::OutOfMemory) => return Status::OutOfMemory,
    };
    let schedule = match schedule_of(alloc, bytes.as_slice()) {
        Ok(schedule) => schedule,
        Err(status) => return status,
    };
    match replay(alloc, sink, &schedule) {
        Ok(()) => Status::Done,
        Err(stop) => status_of(stop),
    }
}

/// The summary line of the schedule that is made of a number, or why its run stops.
fn made_summary(alloc: Global, number: u64, events: u32) -> Result<Vec<u8>, WorldStop>
    requires least { 1 ≤ events }
    requires most { events ≤ 100000 }
    ensures line { (ms : Monitors) → ms.count ≡ (made_schedule number events).monitors →
        ms.rule ≡ (made_schedule number events).rule
        → IfOk result (λ line. IsLine (summary ms (made_schedule number events).events) line.items) }
    ensures stops { (ms : Monitors) → ms.count ≡ (made_schedule number events).monitors →
        ms.rule ≡ (made_schedule number events).rule
        → IfErr result (λ e. StopsAs e (summary ms (made_schedule number events).events).stop) }
{
    let schedule = made(alloc, number, events)?;
    summary_of(alloc, &schedule)
}

/// Runs the schedule that is made of a number, and writes its summary to the sink.
fn run_made<K: Sink>(alloc: Global, sink: &mut K, number: u64, events: u32) -> Status
    requires least { 1 ≤ events }
    requires most { events ≤ 100000 }
    ensures { (left : Option (List ℕ)) (read_faults : ℕ) → MadeCause number events
        (record { left = left; held = K.held sink.old; read_faults = read_faults; write_faults = K.faults sink.old })
        (record { left = left; held = K.held sink.new; read_faults = read_faults; write_faults = K.faults sink.new })
        result }
{
    let line = match made_summary(alloc, number, events) {
        Ok(line) => line,
        Err(stop) => return status_of(ReplayStop::from(stop)),
    };
    match write_all(sink, line.as_slice()) {
        Ok(()) => Status::Done,
        Err(stop) => status_of(ReplayStop::from(stop)),
    }
}

/// The status of a replay that stopped.
fn status_of(stop: ReplayStop) -> Status
    ensures { result ≡ status_of stop }
{
    match stop {
        ReplayStop::WriteFault => Status::WriteFault,
        ReplayStop::World(WorldStop::Spent { which }) => Status::Spent { which },
        ReplayStop::World(WorldStop::Full { would_be }) => Status::Full { would_be },
        ReplayStop::World(WorldStop::OutOfMemory) => Status::OutOfMemory,
    }
}

/// Does a task.
fn run_task<S: Source, K: Sink, D: Disk, L: Link, C: Clock>(
    alloc: Global,
    task: &Task,
    source: &mut S,
    sink: &mut K,
    disks: NodeDisks<D>,
    link: &mut L,
    clock: &mut C,
) -> Ended<D>
    requires { HasWords task.now }
    ensures cause { HasCause D.state task.now
        (record { left = S.left source.old; held = K.held sink.old; read_faults = S.faults source.old; write_faults = K.faults sink.old })
        (record { left = S.left source.new; held = K.held sink.new; read_faults = S.faults source.new; write_faults = K.faults sink.new })
        (record { disks = disks; link = L.state link.old; clock = C.left clock.old })
        (record { disks = result.disks; link = L.state link.new; clock = C.left clock.new })
        result.status }
    ensures talks { TaskTalks D.state task.now
        (record { left = S.left source.old; held = K.held sink.old; read_faults = S.faults source.old; write_faults = K.faults sink.old })
        (record { left = S.left source.new; held = K.held sink.new; read_faults = S.faults source.new; write_faults = K.faults sink.new })
        (record { disks = disks; link = L.state link.old; clock = C.left clock.old })
        (record { disks = result.disks; link = L.state link.new; clock = C.left clock.new })
        result.status (L.history link.old) (L.history link.new) }
{
    match task {
        Task::Replay => Ended {
            status: run_replay(alloc, source, sink),
            disks,
        },
        Task::Made { number, events } => Ended {
            status: run_made(alloc, sink, *number, *events),
            disks,
        },
        Task::Node {
            member,
            rule,
            turns,
            ..
        } => {
            let me = Me {
                member: *member,
                rule: *rule,
            };
            run_node(alloc, disks, &me, link, clock, *turns)
        }
        Task::Follow {
            service,
            addresses,
            turns,
        } => {
            let monitors = addresses.as_slice().len() as u8;
            Ended {
                status: run_follow(alloc, *service, monitors, *turns, link, sink),
                disks,
            }
        }
        Task::Scrub { member, .. } => run_text(alloc, StoreText::Report, member, disks, sink),
        Task::ScrubCompare => Ended {
            status: run_compare(alloc, source, sink),
            disks,
        },
        Task::DumpKeys { member, .. } => run_text(alloc, StoreText::Keys, member, disks, sink),
        Task::DumpPaxos {
            member,
            from,
            to,
            ..
        } => {
            let what = StoreText::Versions {
                from: *from,
                to: *to,
            };
            run_text(alloc, what, member, disks, sink)
        }
        Task::StoreExport { member, .. } => run_text(alloc, StoreText::Export, member, disks, sink),
        Task::StoreImport { member, .. } => run_import(alloc, member, disks, source),
    }
}

/// Does what the arguments ask for. `replay` reads a schedule from the source, runs it, and writes its trace to the
/// sink. `made` runs the schedule of a number, and writes its summary. `node` serves as a monitor from the two disks,
/// over the link, and writes nothing. `follow` follows a service over the link, and writes a line for each newer
/// version. `scrub`, `dump-keys`, `dump-paxos` and `store-export` write a text of the store on the two disks.
/// `scrub-compare` reads two reports from the source, and writes where they differ. `store-import` reads an export from
/// the source, and makes a store of it on the two disks. Devices that a command doesn't use are left untouched. The
/// status says what was done, and why the command ended.
pub fn run<S: Source, K: Sink, D: Disk, L: Link, C: Clock>(
    alloc: Global,
    words: &[String],
    source: &mut S,
    sink: &mut K,
    disks: NodeDisks<D>,
    link: &mut L,
    clock: &mut C,
) -> Ended<D>
    // What the status says of what was asked, read, written and served, and which status comes if no device fails.
    // Each run that it describes is safe after each event.
    ensures ends { Ends D.state words.now
        (record { left = S.left source.old; held = K.held sink.old; read_faults = S.faults source.old; write_faults = K.faults sink.old })
        (record { left = S.left source.new; held = K.held sink.new; read_faults = S.faults source.new; write_faults = K.faults sink.new })
        (record { disks = disks; link = L.state link.old; clock = C.left clock.old })
        (record { disks = result.disks; link = L.state link.new; clock = C.left clock.new })
        result.status }

    // Each history of the link goes on with what was asked and sent.
    ensures talks { RunTalks D.state words.now
        (record { left = S.left source.old; held = K.held sink.old; read_faults = S.faults source.old; write_faults = K.faults sink.old })
        (record { left = S.left source.new; held = K.held sink.new; read_faults = S.faults source.new; write_faults = K.faults sink.new })
        (record { disks = disks; link = L.state link.old; clock = C.left clock.old })
        (record { disks = result.disks; link = L.state link.new; clock = C.left clock.new })
        result.status (L.history link.old) (L.history link.new) }
{
    match read_words(alloc, words) {
        Ok(task) => run_task(alloc, &task, source, sink, disks, link, clock),
        Err(WordsStop::Refused) => Ended {
            status: Status::Words,
            disks,
        },
        Err(WordsStop::OutOfMemory) => Ended {
            status: Status::OutOfMemory,
            disks,
        },
    }
}
