//! The link of a monitor: it names its quorum, numbers its life, and is closed after its machine stood still.

ghost use Rattle.std.specs.Prelude.{◌≡◌, ◌<◌, ◌^◌, Some, IfOk};
ghost use Rattle.mon_hello.specs.Formats.{tag_of};
ghost use Rattle.cephmon_links.specs.Lives.{next_most};

use crate::devices::peers;
use crate::living::FIRST_STANDSTILL;
use crate::refused::NoDevices;
use crate::standard_error::print_of;
use crate::watching::Lines;
use election_rules::Rule;
use mon_bytes::{Items, OutOfMemory};
use mon_hello::{Greeting, Heard, MOST_QUORUM_NAME, Own, QuorumName};
use mon_link::{Address, RunClock, UdpLink};
use mon_name::{Awake, BootClock, Life, Named, framed};
use mon_resend::Resending;
use mon_types::Member;
use mon_watch::{LineReceiver, Watched};
use std::alloc::{AllocError, Global};
use std::env::{Env, FillError};
use std::fmt::Write;

/// The environment variable with the name of a monitor's quorum.
const QUORUM: &str = "CEPHMON_QUORUM";

/// Why a name is refused.
const REFUSED_NAME: &str = "more than 255 bytes, or not UTF-8";

/// For how many milliseconds the machine may stand still in any life at most.
pub(crate) const MOST_STANDSTILL: u64 = 120_000;

/// A socket whose monitors greet one another.
pub type GreetingLink = Greeting<UdpLink<HostRuntime>, RunClock<HostRuntime>, Lines>;

/// A link whose datagrams name the quorum, and go again if they seem lost.
pub type NamedLink = Resending<Awake<Named<GreetingLink>, BootClock>, RunClock<HostRuntime>>;

/// The link of a monitor.
pub type MonitorLink = Watched<NamedLink, RunClock<HostRuntime>, Lines>;

/// The name of the quorum in the environment; empty if there is none.
fn quorum_name(rt: &HostRuntime) -> Result<QuorumName, NoDevices> {
    let mut bytes = [0; MOST_QUORUM_NAME];
    let count = match rt.var(QUORUM, &mut bytes) {
        Ok(count) => count,
        Err(FillError::TooLong) => return Err(NoDevices::Name),
        Err(FillError::NotPresent) => 0,
    };
    let Ok(name) = Vec::from_slice(rt.alloc(), &bytes[..count]) else {
        return Err(NoDevices::OutOfMemory);
    };
    match QuorumName::new(name) {
        Some(name) => Ok(name),
        None => Err(NoDevices::Name),
    }
}

/// The name of the quorum. A name that is refused is reported on standard error.
fn named_quorum(rt: &HostRuntime) -> Result<QuorumName, NoDevices> {
    let name = quorum_name(rt);
    if let Err(NoDevices::Name) = &name {
        print_of(rt, QUORUM, &REFUSED_NAME);
    }
    name
}

/// The number of a new life. If the system gives neither random bits nor the time, that is reported on standard error.
pub(crate) fn new_life(rt: &HostRuntime) -> Result<Life, NoDevices>
    ensures { IfOk result (λ life. life < 2 ^ 62) }
{
    match mon_name::new_life(rt) {
        Ok(life) => Ok(life),
        Err(said) => {
            print_of(rt, "link: no random bits and no time", &said);
            Err(NoDevices::NoLife)
        }
    }
}

/// What a monitor says of itself.
fn own(
    rt: &HostRuntime,
    member: Member,
    rule: Rule,
    addresses: &Items<Address>,
) -> Result<Own, NoDevices>
    ensures member { IfOk result (λ own. own.member ≡ member) }
    ensures rank { IfOk result (λ own. own.hello.rank ≡ member.rank) }
    ensures monitors { IfOk result (λ own. own.hello.identity.monitors ≡ member.monitors) }
    ensures rule { IfOk result (λ own. own.hello.identity.rule ≡ rule) }
    ensures addresses { IfOk result (λ own. own.hello.addresses ≡ addresses.now) }
    ensures tag { IfOk result (λ own. own.tag ≡ tag_of own.hello.identity) }
{
    let name = named_quorum(rt)?;
    let addresses = Items::from_vec(peers(rt.alloc(), addresses)?);
    match Own::new(rt.alloc(), member, name, rule, addresses) {
        Ok(own) => Ok(own),
        Err(OutOfMemory) => Err(NoDevices::OutOfMemory),
    }
}

/// What a monitor hears of the others of its quorum.
fn heard(rt: &HostRuntime, monitors: u8, tag: u64) -> Result<Heard, OutOfMemory> {
    let frame = framed(rt.alloc(), tag, &[])?;
    Heard::new(rt.alloc(), monitors, frame)
}

/// The socket of a monitor, over which the monitors greet one another. It reports if it has too little room for a long
/// message.
pub(crate) fn greeting(
    rt: &HostRuntime,
    member: Member,
    rule: Rule,
    addresses: &Items<Address>,
    mut lines: Lines,
) -> Result<GreetingLink, NoDevices>
    ensures socket { IfOk result (λ link. link.inner.own ≡ Some member.rank) }
    ensures peers { IfOk result (λ link. link.inner.addresses.items ≡ addresses.now) }
    ensures member { IfOk result (λ link. link.own.member ≡ member) }
    ensures rank { IfOk result (λ link. link.own.hello.rank ≡ member.rank) }
    ensures monitors { IfOk result (λ link. link.own.hello.identity.monitors ≡ member.monitors) }
    ensures rule { IfOk result (λ link. link.own.hello.identity.rule ≡ rule) }
    ensures addresses { IfOk result (λ link. link.own.hello.addresses ≡ addresses.now) }
    ensures tag { IfOk result (λ link. link.own.tag ≡ tag_of link.own.hello.identity) }
{
    let (rank, monitors) = (member.rank, member.monitors);
    let own = own(rt, member, rule, addresses)?;
    let Ok(heard) = heard(rt, monitors, own.tag) else {
        drop(own);
        return Err(NoDevices::OutOfMemory);
    };
    let Ok(addresses) = peers(rt.alloc(), addresses) else {
        drop(own);
        drop(heard);
        return Err(NoDevices::OutOfMemory);
    };
    let mut socket = UdpLink::named(rt, rank, addresses);
    report_room(rt.alloc(), &mut socket, &mut lines);
    Ok(Greeting::new(socket, RunClock::new(rt), lines, own, heard))
}

/// The bound on a standstill in the next life, in milliseconds, after a life with the bound `most` that lasted `lived`
/// milliseconds. It doubles, up to `MOST_STANDSTILL`, if that life was shorter than `MOST_STANDSTILL`: then each
/// iteration may be slower than the bound. Otherwise it is `FIRST_STANDSTILL` again.
fn next_most(most: u64, lived: u64) -> u64
    ensures { result ≡ next_most most lived }
{
    if lived < MOST_STANDSTILL {
        most.saturating_mul(2).min(MOST_STANDSTILL)
    } else {
        FIRST_STANDSTILL
    }
}

fn standstill_line(alloc: Global, most: u64, next: u64) -> Result<String, AllocError> {
    let (seconds, then) = (most / 1000, next / 1000);
    let mut line = String::new(alloc);
    write!(
        line,
        "the machine stood still for more than {seconds} s: serving anew, with a bound of {then} s"
    )?;
    Ok(line)
}

/// Reports that the machine stood still. Returns the bound on a standstill in the next life, in milliseconds.
pub(crate) fn report_standstill(lines: &mut Lines, alloc: Global, most: u64, lived: u64) -> u64
    ensures { result ≡ next_most most lived }
{
    let next = next_most(most, lived);
    if let Ok(line) = standstill_line(alloc, most, next) {
        lines.take_line(line.as_str());
    }
    next
}

/// The line that a socket has room for this many bytes, which is too little for a long message. Returns an error if memory
/// runs out.
pub(crate) fn room_line(alloc: Global, room: u32) -> Result<String, AllocError> {
    let mut line = String::new(alloc);
    write!(
        line,
        "link: room for {room} bytes, less than a long message takes: raise net.core.rmem_max"
    )?;
    Ok(line)
}

/// Reports if a socket has too little room for a long message.
fn report_room(alloc: Global, socket: &mut UdpLink<HostRuntime>, lines: &mut Lines)
    ensures own { socket.new.own ≡ socket.old.own }
    ensures addresses { socket.new.addresses ≡ socket.old.addresses }
{
    if let Some(room) = socket.short_room()
        && let Ok(line) = room_line(alloc, room)
    {
        lines.take_line(line.as_str());
    }
}
