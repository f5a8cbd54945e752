//! The line of an event.

ghost use Rattle.std.specs.Prelude.{◌≡◌, ◌≤◌};
ghost use Rattle.schedule_text.specs.declared.event.Event.TheVariants as event;
ghost use Rattle.schedule_text.specs.Fields.{Is};
ghost use Rattle.schedule_text.specs.Lines.{start_at, deliver_at, timer_at, client_at, plain_by, plain_at, injected_at, event_by, fields_event, event_at, Gives};

use crate::event::{Event, Plain};
use crate::fields::{Fields, all_printable};
use crate::refusal::{LineRefused, ScheduleKind};
use crate::request::request_at;
use mon_types::GREATEST;
use mon_wire::Session;
use std::alloc::Global;

#[tactic(auto, unfolding(crate::specs::Lines::start_at))]
fn start_at(monitors: u8, fields: &mut Fields<'_>) -> Result<Plain, ScheduleKind>
    requires { monitors ≤ 15 }
    ensures { Is (λ y. y) result (start_at monitors fields.old) }
{
    let rank = fields.rank(monitors)?;
    let at = fields.moment()?;
    fields.end(Plain::Start { rank, at })
}

#[tactic(auto, unfolding(crate::specs::Lines::deliver_at))]
fn deliver_at(fields: &mut Fields<'_>) -> Result<Plain, ScheduleKind>
    ensures { Is (λ y. y) result (deliver_at fields.old) }
{
    let message = fields.number(1, u64::MAX)?;
    let at = fields.moment()?;
    fields.end(Plain::Deliver { message, at })
}

#[tactic(auto, unfolding(crate::specs::Lines::timer_at))]
fn timer_at(monitors: u8, fields: &mut Fields<'_>) -> Result<Plain, ScheduleKind>
    requires { monitors ≤ 15 }
    ensures { Is (λ y. y) result (timer_at monitors fields.old) }
{
    let rank = fields.rank(monitors)?;
    let kind = fields.timer()?;
    let at = fields.moment()?;
    fields.end(Plain::Timer { rank, kind, at })
}

#[tactic(auto, unfolding(crate::specs::Lines::client_at))]
fn client_at(alloc: Global, monitors: u8, fields: &mut Fields<'_>) -> Result<Plain, LineRefused>
    requires { monitors ≤ 15 }
    ensures { Gives (λ y. y) result (client_at monitors fields.old) }
{
    let rank = fields.rank(monitors)?;
    let at = fields.moment()?;
    let client = fields.number(0, 4294967295)?;
    let id = fields.number(0, GREATEST)?;
    let request = request_at(alloc, fields)?;
    let session = Session {
        client: client as u32,
        id,
    };
    Ok(Plain::Client {
        rank,
        at,
        session,
        request,
    })
}

#[tactic(auto, unfolding(crate::specs::Lines::plain_by))]
fn plain_by(
    alloc: Global,
    monitors: u8,
    word: &[u8],
    fields: &mut Fields<'_>,
) -> Result<Plain, LineRefused>
    requires { monitors ≤ 15 }
    ensures { Gives (λ y. y) result (plain_by monitors word.now fields.old) }
{
    if word == b"start".as_slice() {
        return Ok(start_at(monitors, fields)?);
    }
    if word == b"deliver".as_slice() {
        return Ok(deliver_at(fields)?);
    }
    if word == b"timer".as_slice() {
        return Ok(timer_at(monitors, fields)?);
    }
    if word == b"client".as_slice() {
        return client_at(alloc, monitors, fields);
    }
    Err(LineRefused::Kind(ScheduleKind::Word))
}

#[tactic(auto, unfolding(crate::specs::Lines::plain_at))]
fn plain_at(alloc: Global, monitors: u8, fields: &mut Fields<'_>) -> Result<Plain, LineRefused>
    requires { monitors ≤ 15 }
    ensures { Gives (λ y. y) result (plain_at monitors fields.old) }
{
    let word = fields.next()?;
    plain_by(alloc, monitors, word, fields)
}

/// Reads a crash, after its word.
#[tactic(auto, unfolding(crate::specs::Lines::injected_at))]
fn crash_at(alloc: Global, monitors: u8, fields: &mut Fields<'_>) -> Result<Event, LineRefused>
    requires { monitors ≤ 15 }
    ensures { Gives (λ y. y) result (injected_at event.Crash monitors fields.old) }
{
    let disk = fields.side()?;
    let call = fields.number(1, 1000)?;
    let image = fields.number(0, 3)?;
    let event = plain_at(alloc, monitors, fields)?;
    Ok(Event::Crash {
        disk,
        call: call as u16,
        image: image as u8,
        event,
    })
}

/// Reads a disk's fault, after its word.
#[tactic(auto, unfolding(crate::specs::Lines::injected_at))]
fn fail_at(alloc: Global, monitors: u8, fields: &mut Fields<'_>) -> Result<Event, LineRefused>
    requires { monitors ≤ 15 }
    ensures { Gives (λ y. y) result (injected_at event.Fail monitors fields.old) }
{
    let disk = fields.side()?;
    let call = fields.number(1, 1000)?;
    let image = fields.number(0, 3)?;
    let event = plain_at(alloc, monitors, fields)?;
    Ok(Event::Fail {
        disk,
        call: call as u16,
        image: image as u8,
        event,
    })
}

#[tactic(auto, unfolding(crate::specs::Lines::event_by))]
fn event_by(
    alloc: Global,
    monitors: u8,
    word: &[u8],
    fields: &mut Fields<'_>,
) -> Result<Event, LineRefused>
    requires { monitors ≤ 15 }
    ensures { Gives (λ y. y) result (event_by monitors word.now fields.old) }
{
    if word == b"crash".as_slice() {
        return crash_at(alloc, monitors, fields);
    }
    if word == b"fail".as_slice() {
        return fail_at(alloc, monitors, fields);
    }
    let plain = plain_by(alloc, monitors, word, fields)?;
    Ok(Event::Plain(plain))
}

/// The event that the fields of the line represent.
fn fields_event(alloc: Global, monitors: u8, line: &[u8]) -> Result<Event, LineRefused>
    requires { monitors ≤ 15 }
    ensures { Gives (λ y. y) result (fields_event monitors line.now) }
{
    let mut fields = Fields::new(line);
    let word = fields.next()?;
    event_by(alloc, monitors, word, &mut fields)
}

/// The event that the line represents, for this many monitors.
#[tactic(auto, unfolding(crate::specs::Lines::event_at))]
pub fn event_at(alloc: Global, monitors: u8, line: &[u8]) -> Result<Event, LineRefused>
    requires { monitors ≤ 15 }
    ensures { Gives (λ y. y) result (event_at monitors line.now) }
{
    match fields_event(alloc, monitors, line) {
        Ok(event) => Ok(event),
        Err(LineRefused::Kind(kind)) => {
            if all_printable(line) {
                Err(LineRefused::Kind(kind))
            } else {
                Err(LineRefused::Kind(ScheduleKind::Word))
            }
        }
        Err(LineRefused::OutOfMemory) => Err(LineRefused::OutOfMemory),
    }
}
