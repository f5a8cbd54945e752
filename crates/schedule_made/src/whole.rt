//! The schedule of a number.

ghost use Rattle.std.specs.Prelude.{◌≡◌, ◌≤◌, ◌++◌, take, length, IfOk};
ghost use Rattle.schedule_text.specs.Encoding.{HasText};
ghost use Rattle.schedule_made.specs.Made.{opening, later, made_schedule};

use crate::draws::generator_of;
use crate::events::put_opening;
use crate::made_events::put_made_events;
use crate::rounds::put_rounds;
use election_rules::Rule;
use mon_bytes::{Items, OutOfMemory};
use schedule_text::{Event, Schedule};
use std::alloc::Global;

/// The events of the number's schedule.
#[tactic(auto, unfolding(crate::specs::Made::later))]
fn events_of(alloc: Global, number: u64, events: u32) -> Result<Items<Event>, OutOfMemory>
    requires { events ≤ 100000 }
    ensures { IfOk result (λ list. list ≡ take events (opening ++ later number events)) }
{
    let mut generator = generator_of(number);
    let mut list = Vec::new(alloc);
    put_opening(&mut list)?;
    if number % 2 == 0 {
        put_rounds(alloc, &mut list, &mut generator, events)?;
    } else {
        put_made_events(alloc, &mut list, &mut generator, events)?;
    }
    list.truncate(events as usize);
    Ok(Items::from_vec(list))
}

/// The schedule of a number, with this many events, 1 to 100,000: three monitors form a quorum. Then, if the number
/// is even, it takes commands of clients in rounds. If it is odd, messages arrive late, twice or never, and commands,
/// timers and starts come between them. It is the same at each call.
#[tactic(auto, unfolding(crate::specs::Made::made_schedule))]
pub fn made(alloc: Global, number: u64, events: u32) -> Result<Schedule, OutOfMemory>
    requires least { 1 ≤ events }
    requires most { events ≤ 100000 }
    ensures value { IfOk result (λ schedule. schedule ≡ made_schedule number events) }
    ensures count { IfOk result (λ schedule. length schedule.events ≡ events) }

    // It has a text, so `print` may print it.
    ensures text { IfOk result (λ schedule. HasText schedule) }
{
    let events = events_of(alloc, number, events)?;
    Ok(Schedule {
        monitors: 3,
        rule: Rule::Classic,
        events,
    })
}
