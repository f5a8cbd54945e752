//! What follows the opening if the number is odd.

ghost use Rattle.std.specs.Prelude.{◌≡◌, ◌+◌, ◌%◌, ◌^◌, ◌<◌, ◌≤◌, ◌++◌, take, IfOk, OnOk};
ghost use Rattle.schedule_made.specs.Draws.{passed};
ghost use Rattle.schedule_made.specs.Made.{made_event, made_events};

use crate::draws::draw;
use crate::events::{ask, deliver, set, start, timer};
use mon_bytes::OutOfMemory;
use mon_wire::Session;
use rand_pcg::Lcg64Xsh32;
use schedule_text::Event;
use std::alloc::Global;

/// One of the three monitors.
fn rank_of(draw: u32) -> u8
    ensures { result ≡ draw % 3 }
{
    (draw % 3) as u8
}

/// Makes event i, if `next` is the number of the next message in order.
#[tactic(auto, unfolding(crate::specs::Made::made_event))]
fn made_event(
    alloc: Global,
    generator: &mut Lcg64Xsh32,
    i: u32,
    next: &mut u64,
) -> Result<Event, OutOfMemory>
    requires least { 31 ≤ next.old }
    requires most { next.old < 2 ^ 32 }
    ensures value { IfOk result (λ event. event ≡ (made_event i next.old generator.old).event) }
    ensures after { OnOk result (generator.new ≡ passed (made_event i next.old generator.old).draws generator.old) }
    ensures next { OnOk result (next.new ≡ (made_event i next.old generator.old).next) }
{
    let id = u64::from(i);
    let at = 10 * id;
    let kind = draw(generator) % 16;
    if kind < 10 {
        let message = *next;
        *next += 1;
        return Ok(deliver(message, at));
    }
    let y = draw(generator);
    if kind < 12 {
        return Ok(deliver(1 + u64::from(y) % (*next - 1), at));
    }
    if kind < 14 {
        let z = draw(generator);
        let w = draw(generator);
        let request = set(alloc, z % 20, w)?;
        return Ok(ask(rank_of(y), at, Session { client: 3, id }, request));
    }
    if kind == 14 {
        let z = draw(generator);
        return Ok(timer(rank_of(y), z % 11, at));
    }
    Ok(start(rank_of(y), at))
}

/// Appends events until there are `most` in all.
pub(crate) fn put_made_events(
    alloc: Global,
    events: &mut Vec<Event>,
    generator: &mut Lcg64Xsh32,
    most: u32,
) -> Result<(), OutOfMemory>
    requires { most ≤ 100000 }
    ensures { OnOk result
        (take most events.new.items ≡ take most (events.old.items ++ made_events most 34 31 generator.old)) }
{
    let mut next: u64 = 31;
    for i in 34..34 + most {
        if events.len() >= most as usize {
            return Ok(());
        }
        events.push(made_event(alloc, generator, i, &mut next)?)?;
    }
    Ok(())
}
