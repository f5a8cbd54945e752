ghost use Rattle.std.specs.Prelude.{◌≡◌, ℕ, ◌≤◌, ◌<◌, ◌+◌, length, Ok, IfOk};
ghost use Rattle.schedule_text.specs.declared.schedule.Schedule.{Schedule};
ghost use Rattle.schedule_text.specs.Encoding.{HasText, most_events, schedule_text};
ghost use Rattle.schedule_text.specs.Schedule.{lines_of, on_first_line, header_at, event_line_at, events_at, whole_at, schedule_at, Gives};

use crate::event::Event;
use crate::fields::cut;
use crate::header::header_at;
use crate::line::event_at;
use crate::refusal::{LineRefused, ScheduleKind, ScheduleRefused};
use crate::schedule::{MOST_EVENTS, MOST_SCHEDULE, Schedule};
use election_rules::Rule;
use memchr::memchr_iter;
use mon_bytes::{Items, OutOfMemory};
use std::alloc::Global;

fn at(line: u32, kind: ScheduleKind) -> ScheduleRefused
    ensures { result ≡ ScheduleRefused.At line kind }
{
    ScheduleRefused::At { line, kind }
}

/// Reads the line of one more event, after `count` events.
#[tactic(auto, unfolding(crate::specs::Schedule::event_line_at))]
fn event_line_at(
    alloc: Global,
    monitors: u8,
    count: u32,
    line: &[u8],
) -> Result<Event, ScheduleRefused>
    requires monitors { monitors ≤ 15 }
    requires count { count ≤ most_events }
    ensures value { Gives (λ e. e) result (event_line_at monitors count line.now) }
    ensures count { IfOk result (λ _. count < most_events) }
{
    if count >= MOST_EVENTS {
        return Err(at(count + 2, ScheduleKind::TooMany));
    }
    match event_at(alloc, monitors, line) {
        Ok(event) => Ok(event),
        Err(LineRefused::Kind(kind)) => Err(at(count + 2, kind)),
        Err(LineRefused::OutOfMemory) => Err(ScheduleRefused::OutOfMemory),
    }
}

/// The number of lines, at most `MOST_EVENTS`: the room that the list of events has from the start.
fn room_of(body: &[u8]) -> usize
    ensures { result ≤ most_events }
{
    memchr_iter(b'\n', body).count().min(MOST_EVENTS as usize)
}

/// The events of the lines after the first.
fn events_of(alloc: Global, monitors: u8, body: &[u8]) -> Result<Items<Event>, ScheduleRefused>
    requires { monitors ≤ 15 }
    ensures { Gives (λ es. es) result (events_at monitors 0 (lines_of body.now).0 (lines_of body.now).1) }
{
    let room = Vec::with_capacity(alloc, room_of(body)).map_err(OutOfMemory::from)?;
    let mut events = Items::from_vec(room);
    let mut count: u32 = 0;
    let mut rest = body;
    loop {
        let (line, after) = cut(b'\n', rest);
        let Some(after) = after else {
            break;
        };
        let event = event_line_at(alloc, monitors, count, line)?;
        count += 1;
        events.push(event)?;
        rest = after;
    }
    if rest.is_empty() {
        Ok(events)
    } else {
        Err(at(count + 2, ScheduleKind::End))
    }
}

/// The number of monitors and the rule that the first line names.
fn first_line(line: &[u8]) -> Result<(u8, Rule), ScheduleRefused>
    ensures value { Gives (λ x. x) result (on_first_line (header_at line.now)) }
    ensures most { IfOk result (λ x. x.0 ≤ 15) }
{
    match header_at(line) {
        Ok(header) => Ok(header),
        Err(_) => Err(at(1, ScheduleKind::Header)),
    }
}

/// The schedule that the lines represent.
fn whole(alloc: Global, bytes: &[u8]) -> Result<Schedule, ScheduleRefused>
    ensures { Gives (λ s. s) result (whole_at (lines_of bytes.now).0 (lines_of bytes.now).1) }
{
    if bytes.is_empty() {
        return Err(at(1, ScheduleKind::Header));
    }
    let (first, body) = cut(b'\n', bytes);
    let Some(body) = body else {
        return Err(at(1, ScheduleKind::End));
    };
    let (monitors, rule) = first_line(first)?;
    let events = events_of(alloc, monitors, body)?;
    Ok(Schedule {
        monitors,
        rule,
        events,
    })
}

#[tactic(auto, unfolding(crate::specs::Schedule::schedule_at))]
fn read(alloc: Global, bytes: &[u8]) -> Result<Schedule, ScheduleRefused>
    ensures { Gives (λ s. s) result (schedule_at bytes.now) }
{
    if bytes.len() > MOST_SCHEDULE {
        return Err(at(0, ScheduleKind::TooLong));
    }
    whole(alloc, bytes)
}

/// Parses a schedule from all of the bytes. The first faulty line is refused, with its fault; line 0 means more
/// than 16,777,216 bytes, which is tested first.
pub fn parse(alloc: Global, bytes: &[u8]) -> Result<Schedule, ScheduleRefused>
    // What is read is the schedule whose text the bytes are.
    ensures found { IfOk result (λ s. HasText s × (bytes.now ≡ schedule_text s)) }

    // A schedule's text is read, unless memory runs out.
    ensures only { (s : Schedule) → HasText s → bytes.now ≡ schedule_text s → Gives (λ s. s) result (Ok s) }

    // Which line is refused, and as what.
    ensures exact { Gives (λ s. s) result (schedule_at bytes.now) }
{
    read(alloc, bytes)
}
