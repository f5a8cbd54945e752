//! The events that schedules are made of.

ghost use Rattle.std.specs.Prelude.{◌≡◌, ◌+◌, ◌^◌, ◌<◌, ◌≤◌, ◌++◌, codes, decimal, string_bytes, IfOk, OnOk};
ghost use Rattle.mon_wire.specs.declared.phase.TheConstants.Timer.{COUNT};
ghost use Rattle.schedule_made.specs.Made.{start, deliver, timer, ask, set, log, deliveries, opening};

use mon_bytes::{Name, OutOfMemory, Text};
use mon_types::{Moment, Rank};
use mon_wire::{Request, Session, Timer};
use schedule_text::{Event, Plain};
use std::alloc::Global;

pub(crate) fn start(rank: u8, at: u64) -> Event
    requires rank { rank ≤ 14 }
    requires at { at ≤ 2 ^ 62 }
    ensures { result ≡ start rank at }
{
    Event::Plain(Plain::Start {
        rank: Rank::known(rank),
        at: Moment::known(at),
    })
}

pub(crate) fn deliver(message: u64, at: u64) -> Event
    requires { at ≤ 2 ^ 62 }
    ensures { result ≡ deliver message at }
{
    Event::Plain(Plain::Deliver {
        message,
        at: Moment::known(at),
    })
}

/// The timer of this number, in the order of timers that are due together.
pub(crate) fn timer(rank: u8, kind: u32, at: u64) -> Event
    requires rank { rank ≤ 14 }
    requires kind { kind < COUNT }
    requires at { at ≤ 2 ^ 62 }
    ensures { result ≡ timer rank kind at }
{
    Event::Plain(Plain::Timer {
        rank: Rank::known(rank),
        kind: Timer::ALL[kind as usize],
        at: Moment::known(at),
    })
}

pub(crate) fn ask(rank: u8, at: u64, session: Session, request: Request) -> Event
    requires rank { rank ≤ 14 }
    requires at { at ≤ 2 ^ 62 }
    ensures { result ≡ ask rank at session.client session.id request }
{
    Event::Plain(Plain::Client {
        rank: Rank::known(rank),
        at: Moment::known(at),
        session,
        request,
    })
}

fn key(alloc: Global, n: u32) -> Result<Name, OutOfMemory>
    ensures { IfOk result (λ key. key ≡ codes "k" ++ decimal n) }
{
    let text = format!(in alloc; "k{n}")?;
    match Name::new(text.into_bytes()) {
        Some(key) => Ok(key),
        None => unreachable!(),
    }
}

fn text(text: String) -> Text
    ensures { result ≡ string_bytes text }
{
    let _utf8 = text.as_str();
    match Text::new(text.into_bytes()) {
        Some(text) => text,
        None => unreachable!(),
    }
}

pub(crate) fn set(alloc: Global, n: u32, value: u32) -> Result<Request, OutOfMemory>
    ensures { IfOk result (λ request. request ≡ set n value) }
{
    let key = key(alloc, n)?;
    let value = text(format!(in alloc; "v{value}")?);
    Ok(Request::Set { key, value })
}

pub(crate) fn log(alloc: Global, n: u32) -> Result<Request, OutOfMemory>
    ensures { IfOk result (λ request. request ≡ log n) }
{
    let text = text(format!(in alloc; "t{n}")?);
    Ok(Request::Log { text })
}

/// Appends this many messages, from this one on.
pub(crate) fn put_deliveries(
    events: &mut Vec<Event>,
    first: u64,
    count: u64,
    at: u64,
) -> Result<(), OutOfMemory>
    requires last { first + count < 2 ^ 64 }
    requires at { at ≤ 2 ^ 62 }
    ensures { OnOk result (events.new.items ≡ events.old.items ++ deliveries first count at) }
{
    for message in first..first + count {
        events.push(deliver(message, at))?;
    }
    Ok(())
}

/// Appends the events that each schedule begins with.
#[tactic(auto, unfolding(crate::specs::Made::opening))]
pub(crate) fn put_opening(events: &mut Vec<Event>) -> Result<(), OutOfMemory>
    ensures { OnOk result (events.new.items ≡ events.old.items ++ opening) }
{
    events.push(start(0, 0))?;
    events.push(start(1, 0))?;
    events.push(start(2, 0))?;
    put_deliveries(events, 1, 30, 0)
}
