//! The devices of the system that arguments name.

ghost use Rattle.std.specs.Prelude.{◌≡◌, [], IfOk, string_bytes};
ghost use Rattle.cephmon_links.specs.Devices.{AreAsked, AreFor, AreUnused, HaveFiles, IsClientOf, IsMonitorOf, IsUnused};

use crate::living::MonitorLives;
use crate::naming::{greeting, new_life, room_line};
use crate::recording::{MonitorClock, Recorded, RecordedLives, begun, record_of};
use crate::refused::NoDevices;
use crate::standard_error::print;
use crate::watching::{Times, lines_of, share, watch};
use election_rules::Rule;
use mon_bytes::{Items, Text};
use mon_disk::{FileDisk, NodeDisks};
use mon_link::{Address, RunClock, UdpLink};
use mon_record::Recording;
use mon_types::{Member, Rank};
use mon_watch::Timed;
use std::alloc::Global;
use task_words::{Task, WordsStop, read_words};

/// A disk in a file, whose calls are counted.
pub type CountedDisk = Timed<FileDisk<HostRuntime>, RunClock<HostRuntime>>;

/// The disks in two files.
pub type FileDisks = NodeDisks<CountedDisk>;

/// A link to monitors.
#[derive(Drop)]
pub enum Channel {
    /// The link of a monitor, which names its quorum and sends some datagrams again.
    Monitor {
        link: RecordedLives,
        clock: MonitorClock,
    },
    /// The link of a client, on a port that the system chooses.
    Client(UdpLink<HostRuntime>),
    /// A link that is never called.
    Unused(UdpLink<HostRuntime>),
}

/// The disks and the link that arguments name. Each opens at its first call.
#[derive(Drop)]
pub struct Devices {
    pub disks: FileDisks,
    pub channel: Channel,
}

fn path(alloc: Global, name: &Text) -> Result<String, NoDevices>
    ensures { IfOk result (λ path. string_bytes path ≡ name.now) }
{
    match String::from_str(alloc, name.as_str()) {
        Ok(path) => Ok(path),
        Err(_) => Err(NoDevices::OutOfMemory),
    }
}

/// The addresses of all monitors, as a link takes them.
pub fn peers(alloc: Global, addresses: &Items<Address>) -> Result<Vec<Address>, NoDevices>
    ensures { IfOk result (λ peers. peers.items ≡ addresses.now) }
{
    match addresses.as_slice().to_vec(alloc) {
        Ok(peers) => Ok(peers),
        Err(_) => Err(NoDevices::OutOfMemory),
    }
}

/// The disks in two files, whose calls are added to these counts.
fn counted_disks(rt: &HostRuntime, a: String, b: String, times: Times) -> FileDisks
    ensures a { result.a.inner.path ≡ a }
    ensures b { result.b.inner.path ≡ b }
{
    NodeDisks {
        a: Timed::new(FileDisk::named(rt, a), RunClock::new(rt), times.a),
        b: Timed::new(FileDisk::named(rt, b), RunClock::new(rt), times.b),
    }
}

/// The disks in these two files.
fn disks_in(rt: &HostRuntime, disk_a: &Text, disk_b: &Text) -> Result<FileDisks, NoDevices>
    ensures a { IfOk result (λ d. string_bytes d.a.inner.path ≡ disk_a.now) }
    ensures b { IfOk result (λ d. string_bytes d.b.inner.path ≡ disk_b.now) }
{
    let a = path(rt.alloc(), disk_a)?;
    let b = path(rt.alloc(), disk_b)?;
    let times = Times::new(rt)?;
    Ok(counted_disks(rt, a, b, times))
}

/// Disks that are never called.
fn no_disks(rt: &HostRuntime) -> Result<FileDisks, NoDevices>
    ensures a { IfOk result (λ d. string_bytes d.a.inner.path ≡ []) }
    ensures b { IfOk result (λ d. string_bytes d.b.inner.path ≡ []) }
{
    let times = Times::new(rt)?;
    let (a, b) = (String::new(rt.alloc()), String::new(rt.alloc()));
    Ok(counted_disks(rt, a, b, times))
}

/// The link of a monitor to the monitors at these addresses. Its watch reads these counts of the disks.
// The number of the life comes first: where a call can fail, nothing larger than it is to be dropped.
fn monitor_channel(
    rt: &HostRuntime,
    member: Member,
    rule: Rule,
    addresses: &Items<Address>,
    times: Times,
    recorded: Recorded,
) -> Result<Channel, NoDevices>
    ensures { IfOk result (IsMonitorOf member rule addresses.now) }
{
    let life = new_life(rt)?;
    let lines = lines_of(rt)?;
    let watch = watch(rt, member, times, share(&lines)?)?;
    let link = greeting(rt, member, rule, addresses, lines)?;
    let Recorded { recorder, clock } = recorded;
    let recorder = begun(recorder, link.own.tag, life);
    let lives = MonitorLives::first(rt, link, life, watch);
    Ok(Channel::Monitor {
        link: Recording::new(lives, recorder),
        clock,
    })
}

fn client_channel(rt: &HostRuntime, addresses: Vec<Address>) -> Channel
    ensures { IsClientOf addresses.items result }
{
    let mut link = UdpLink::client(rt, addresses);
    print_short_room(rt, &mut link);
    Channel::Client(link)
}

/// Prints on standard error if the socket of a client has too little room for a long message.
fn print_short_room(rt: &HostRuntime, link: &mut UdpLink<HostRuntime>)
    ensures own { link.new.own ≡ link.old.own }
    ensures addresses { link.new.addresses ≡ link.old.addresses }
{
    if let Some(room) = link.short_room()
        && let Ok(line) = room_line(rt.alloc(), room)
    {
        print(rt, &line);
    }
}

fn no_channel(rt: &HostRuntime) -> Channel
    ensures { IsUnused result }
{
    Channel::Unused(UdpLink::named(rt, Rank::known(0), Vec::new(rt.alloc())))
}

/// The devices of a monitor whose store is in two files.
// Paths and times come first: where a call can fail, nothing larger than they are is to be dropped.
fn monitor_devices(
    rt: &HostRuntime,
    member: Member,
    rule: Rule,
    addresses: &Items<Address>,
    disk_a: &Text,
    disk_b: &Text,
) -> Result<Devices, NoDevices>
    ensures files { IfOk result (HaveFiles disk_a.now disk_b.now) }
    ensures link { IfOk result (λ d. IsMonitorOf member rule addresses.now d.channel) }
{
    let a = path(rt.alloc(), disk_a)?;
    let b = path(rt.alloc(), disk_b)?;
    let times = Times::new(rt)?;
    let recorded = record_of(rt, member, rule, disk_a, disk_b)?;
    let channel = monitor_channel(rt, member, rule, addresses, times.share()?, recorded)?;
    let disks = counted_disks(rt, a, b, times);
    Ok(Devices { disks, channel })
}

/// The devices of a client.
fn client_devices(rt: &HostRuntime, addresses: &Items<Address>) -> Result<Devices, NoDevices>
    ensures files { IfOk result (HaveFiles [] []) }
    ensures link { IfOk result (λ d. IsClientOf addresses.now d.channel) }
{
    let disks = no_disks(rt)?;
    let addresses = peers(rt.alloc(), addresses)?;
    Ok(Devices {
        disks,
        channel: client_channel(rt, addresses),
    })
}

/// The devices of a command on the store in two files.
fn store_devices(rt: &HostRuntime, disk_a: &Text, disk_b: &Text) -> Result<Devices, NoDevices>
    ensures files { IfOk result (HaveFiles disk_a.now disk_b.now) }
    ensures link { IfOk result (λ d. IsUnused d.channel) }
{
    let disks = disks_in(rt, disk_a, disk_b)?;
    Ok(Devices {
        disks,
        channel: no_channel(rt),
    })
}

/// Devices that are never called.
fn no_devices(rt: &HostRuntime) -> Result<Devices, NoDevices>
    ensures { IfOk result AreUnused }
{
    let disks = no_disks(rt)?;
    Ok(Devices {
        disks,
        channel: no_channel(rt),
    })
}

/// The devices that a task names. This fails if memory runs out; and for a monitor also if the name of its quorum is
/// refused, or if the system gives no number of a life.
fn devices_for(rt: &HostRuntime, task: &Task) -> Result<Devices, NoDevices>
    ensures { IfOk result (AreFor task.now) }
{
    match task {
        Task::Node {
            member,
            rule,
            addresses,
            disk_a,
            disk_b,
            ..
        } => monitor_devices(rt, *member, *rule, addresses, disk_a, disk_b),
        Task::Follow { addresses, .. } => client_devices(rt, addresses),
        Task::Scrub { disk_a, disk_b, .. } => store_devices(rt, disk_a, disk_b),
        Task::DumpKeys { disk_a, disk_b, .. } => store_devices(rt, disk_a, disk_b),
        Task::DumpPaxos { disk_a, disk_b, .. } => store_devices(rt, disk_a, disk_b),
        Task::StoreExport { disk_a, disk_b, .. } => store_devices(rt, disk_a, disk_b),
        Task::StoreImport { disk_a, disk_b, .. } => store_devices(rt, disk_a, disk_b),
        Task::Replay | Task::Made { .. } | Task::ScrubCompare => no_devices(rt),
    }
}

/// The devices that arguments name; devices that are never called, if the arguments are refused. This fails if memory
/// runs out, and as `devices_for` does.
pub fn devices_of(rt: &HostRuntime, words: &[String]) -> Result<Devices, NoDevices>
    ensures { IfOk result (AreAsked words.now) }
{
    match read_words(rt.alloc(), words) {
        Ok(task) => {
            let devices = devices_for(rt, &task);
            drop(task);
            devices
        }
        Err(WordsStop::Refused) => no_devices(rt),
        Err(WordsStop::OutOfMemory) => Err(NoDevices::OutOfMemory),
    }
}
