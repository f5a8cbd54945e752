//! What follows the opening if the number is even.

ghost use Rattle.std.specs.Prelude.{◌≡◌, ◌+◌, ◌<◌, ◌≤◌, ◌++◌, take, IfOk, OnOk};
ghost use Rattle.schedule_made.specs.Draws.{passed};
ghost use Rattle.schedule_made.specs.Made.{command, round, rounds};

use crate::draws::draw;
use crate::events::{ask, deliver, log, put_deliveries, set};
use mon_bytes::OutOfMemory;
use mon_wire::{Request, Service, Session};
use rand_pcg::Lcg64Xsh32;
use schedule_text::Event;
use std::alloc::Global;

/// The command of a round.
fn command(alloc: Global, generator: &mut Lcg64Xsh32) -> Result<Request, OutOfMemory>
    ensures value { IfOk result (λ request. request ≡ command generator.old) }
    ensures after { generator.new ≡ passed 3 generator.old }
{
    let x = draw(generator);
    let y = draw(generator);
    let z = draw(generator);
    if x % 4 < 3 {
        set(alloc, y % 20, z)
    } else {
        log(alloc, z)
    }
}

/// Appends round j.
#[tactic(auto, unfolding(crate::specs::Made::round))]
fn put_round(
    alloc: Global,
    events: &mut Vec<Event>,
    generator: &mut Lcg64Xsh32,
    j: u32,
) -> Result<(), OutOfMemory>
    requires { j < 100000 }
    ensures value { OnOk result (events.new.items ≡ events.old.items ++ round j generator.old) }
    ensures after { OnOk result (generator.new ≡ passed 5 generator.old) }
{
    let id = u64::from(j) + 1;
    let at = 1000 * id;
    let first = 31 + 10 * u64::from(j);
    let command = command(alloc, generator)?;
    events.push(ask(0, at, Session { client: 1, id }, command))?;
    put_deliveries(events, first, 10, at)?;
    let show = Request::Show {
        service: Service::Kv,
    };
    let w = draw(generator);
    events.push(ask((w % 3) as u8, at, Session { client: 2, id }, show))?;
    let u = draw(generator);
    events.push(deliver(first + 4 + u64::from(u % 2), at))?;
    Ok(())
}

/// Appends rounds until there are `most` events in all, or a few more.
pub(crate) fn put_rounds(
    alloc: Global,
    events: &mut Vec<Event>,
    generator: &mut Lcg64Xsh32,
    most: u32,
) -> Result<(), OutOfMemory>
    requires { most ≤ 100000 }
    ensures { OnOk result
        (take most events.new.items ≡ take most (events.old.items ++ rounds most 0 generator.old)) }
{
    for j in 0..most {
        if events.len() >= most as usize {
            return Ok(());
        }
        put_round(alloc, events, generator, j)?;
    }
    Ok(())
}
