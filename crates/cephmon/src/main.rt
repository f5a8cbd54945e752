//! A quorum of monitors: replays its schedules, serves as one of its monitors, follows its maps, and works on the stores of stopped monitors.
#![tactic(auto)]

mod words;

ghost use Rattle.std.specs.Prelude.{◌≡◌, ◌⊎◌};
ghost use Rattle.cephmon_links.specs.Devices.{AreAsked};
ghost use Rattle.cephmon_links.specs.declared.devices.Devices.{Devices as DeviceSet};
ghost use Rattle.cephmon.specs.Program.{IsWithoutDevices, LivesOver, Runs, RunsOn};

use crate::words::words_of;
use cephmon_links::{
    Channel, CountedDisk, Devices, FileDisks, MonitorClock, NoDevices, RecordedLives, devices_of,
    print, print_of,
};
use cephmon_run::{Ended, Status, run, run_lives};
use mon_disk::Disk;
use mon_link::{Link, Lives, RunClock, StdinSource, StdoutSink, UdpLink};
use std::process::ExitCode;

fn main(rt: HostRuntime) -> ExitCode {
    let status = match words_of(&rt) {
        Ok(words) => run_words(&rt, words.as_slice()),
        Err(status) => status,
    };
    print_status(&rt, &status);
    ExitCode::from(status.number())
}

/// Does what the arguments ask for, on the streams, files, sockets and the clock of the system.
fn run_words(rt: &HostRuntime, words: &[String]) -> Status
    ensures runs { ((devices : DeviceSet) × AreAsked words.now devices
        × RunsOn ⟦<CountedDisk as Disk>⟧.state ⟦<RecordedLives as Link>⟧.state
        ⟦<RecordedLives as Link>⟧.history ⟦<RecordedLives as Lives>⟧.stood words.now devices.disks devices.channel result)
        ⊎ IsWithoutDevices result }
{
    match devices_of(rt, words) {
        Ok(devices) => run_on_devices(rt, words, devices),
        Err(why) => status_without(why),
    }
}

/// How the program ends without devices.
fn status_without(why: NoDevices) -> Status
    ensures { IsWithoutDevices result }
{
    match why {
        NoDevices::Name => Status::Words,
        NoDevices::NoLife => Status::LinkFault,
        NoDevices::OutOfMemory => Status::OutOfMemory,
    }
}

/// Does what the arguments ask for, on these devices.
// Each arm hands its link on as a whole: a link that goes out of scope in an arm is proved part by part there.
fn run_on_devices(rt: &HostRuntime, words: &[String], devices: Devices) -> Status
    ensures runs { RunsOn ⟦<CountedDisk as Disk>⟧.state ⟦<RecordedLives as Link>⟧.state
        ⟦<RecordedLives as Link>⟧.history ⟦<RecordedLives as Lives>⟧.stood words.now devices.disks devices.channel result }
{
    let Devices { disks, channel } = devices;
    match channel {
        Channel::Monitor { link, clock } => run_as_monitor(rt, words, disks, link, clock),
        Channel::Client(link) => run_over(rt, words, disks, link),
        Channel::Unused(link) => run_over(rt, words, disks, link),
    }
}

/// Serves as a monitor over this link, and again in a new life each time after the machine stood still.
fn run_as_monitor(
    rt: &HostRuntime,
    words: &[String],
    disks: FileDisks,
    mut link: RecordedLives,
    mut clock: MonitorClock,
) -> Status
    ensures lives { LivesOver ⟦<CountedDisk as Disk>⟧.state ⟦<RecordedLives as Link>⟧.state
        ⟦<RecordedLives as Link>⟧.history ⟦<RecordedLives as Lives>⟧.stood words.now disks link result }
{
    let mut source = StdinSource::new(rt);
    let mut sink = StdoutSink::new(rt);
    let ended = run_lives(
        rt.alloc(),
        words,
        &mut source,
        &mut sink,
        disks,
        &mut link,
        &mut clock,
    );
    link.ends(ended.status.number());
    print_link_failure(rt, link.inner.socket());
    drop(link);
    status_of(rt, ended)
}

/// Does what the arguments ask for over this link. A task that needs no link makes no call of it.
fn run_over(
    rt: &HostRuntime,
    words: &[String],
    disks: FileDisks,
    mut link: UdpLink<HostRuntime>,
) -> Status
    ensures runs { Runs ⟦<CountedDisk as Disk>⟧.state ⟦<RecordedLives as Link>⟧.state
        ⟦<RecordedLives as Link>⟧.history ⟦<RecordedLives as Lives>⟧.stood words.now disks (⟦<UdpLink<HostRuntime> as Link>⟧.state link) result }
{
    let mut source = StdinSource::new(rt);
    let mut sink = StdoutSink::new(rt);
    let mut clock = RunClock::new(rt);
    let ended = run(
        rt.alloc(),
        words,
        &mut source,
        &mut sink,
        disks,
        &mut link,
        &mut clock,
    );
    print_link_failure(rt, &link);
    drop(link);
    status_of(rt, ended)
}

/// Says on standard error which disks failed. Returns how the program ends.
fn status_of(rt: &HostRuntime, ended: Ended<CountedDisk>) -> Status
    ensures { result ≡ ended.status }
{
    print_disk_failures(rt, &ended.disks);
    let status = ended.status;
    drop(ended);
    status
}

/// Prints on standard error, for each disk, the error that the system gave to its first call that failed.
fn print_disk_failures(rt: &HostRuntime, disks: &FileDisks) {
    if let Some(said) = disks.a.inner.failure() {
        print_of(rt, "disk a", said);
    }
    if let Some(said) = disks.b.inner.failure() {
        print_of(rt, "disk b", said);
    }
}

/// Prints on standard error the error that the system gave to the first call of the link that failed.
fn print_link_failure(rt: &HostRuntime, link: &UdpLink<HostRuntime>) {
    if let Some(said) = link.failure() {
        print_of(rt, "link", said);
    }
}

/// Prints on standard error how the program ends. If that can't be written within a second, the status alone says it.
fn print_status(rt: &HostRuntime, status: &Status) {
    match status {
        Status::Done => {}
        _ => {
            print(rt, status);
        }
    }
}
