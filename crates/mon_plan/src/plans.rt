//! Plans, part by part.

ghost use Rattle.std.specs.Prelude.{◌≡◌, ◌+◌, ◌≤◌, ◌^◌, [], ◌∷◌, min, IfOk};
ghost use Rattle.mon_msg.specs.Protocol.Sending.{message_to};
ghost use Rattle.mon_msg.specs.Protocol.Timers.{length_of};
ghost use Rattle.mon_msg.specs.declared.plan.Next.TheVariants as next;

use mon_bytes::OutOfMemory;
use mon_msg::plan::Sent;
use mon_msg::{Arming, Body, Items, Me, Message, Next, Plan, Timer};
use mon_tx::Transaction;
use mon_types::{Epoch, GREATEST, Moment, Rank};
use std::alloc::Global;

/// A plan that writes, sends and arms nothing. It takes no memory.
pub fn planned<S: Drop>(alloc: Global, state: S, next: Next) -> Plan<S>
    ensures { result ≡ record { tx = []; out = []; timers = []; state = state; next = next } }
{
    Plan {
        tx: Transaction::new(alloc),
        out: Items::new(alloc),
        timers: Items::new(alloc),
        state,
        next,
    }
}

/// A plan that does nothing and names no act. It takes no memory.
pub fn stay<S: Drop>(alloc: Global, state: S) -> Plan<S>
    ensures { result ≡ record { tx = []; out = []; timers = []; state = state; next = next.Stay } }
{
    planned(alloc, state, Next::Stay)
}

/// A plan that only sends, and names no act. It takes no memory.
pub fn sending<S: Drop>(alloc: Global, out: Items<Sent>, state: S) -> Plan<S>
    ensures { result ≡ record { tx = []; out = out; timers = []; state = state; next = next.Stay } }
{
    Plan {
        tx: Transaction::new(alloc),
        out,
        timers: Items::new(alloc),
        state,
        next: Next::Stay,
    }
}

/// A plan that only writes, and then names an act. It takes no memory.
pub fn writing<S: Drop>(alloc: Global, tx: Transaction, state: S, next: Next) -> Plan<S>
    ensures { result ≡ record { tx = tx; out = []; timers = []; state = state; next = next } }
{
    Plan {
        tx,
        out: Items::new(alloc),
        timers: Items::new(alloc),
        state,
        next,
    }
}

/// The list of one item, as a part of a plan.
pub fn one<T: Drop>(alloc: Global, item: T) -> Result<Items<T>, OutOfMemory>
    ensures { IfOk result (λ items. items ≡ item ∷ []) }
{
    let mut items = Items::new(alloc);
    items.push(item)?;
    Ok(items)
}

/// A message of this monitor in an epoch.
pub fn message(me: &Me, epoch: Epoch, body: Body, to: Rank) -> Sent
    ensures { result ≡ message_to me.now epoch body to }
{
    Sent::Message {
        to,
        message: Message {
            from: me.member.rank,
            monitors: me.member.monitors,
            epoch,
            body,
        },
    }
}

/// How long a timer takes, in milliseconds.
fn length_of(kind: Timer) -> u64
    ensures value { result ≡ length_of kind }
    ensures most { result ≤ 60000 }
{
    match kind {
        Timer::Probe => 2_000,
        Timer::Election => 5_000,
        Timer::Collect => 10_000,
        Timer::Accept => 10_000,
        Timer::Renew => 3_000,
        Timer::LeaseAck => 10_000,
        Timer::Lease => 10_000,
        Timer::Sync => 60_000,
        Timer::Step => 0,
        Timer::Propose => 0,
        Timer::Ping => 2_000,
    }
}

/// Sets a timer that ends when its length is over, but at 2^62 milliseconds at the latest.
pub fn armed(now: Moment, kind: Timer) -> Arming
    ensures { result ≡ Arming.Arm kind (min (now + length_of kind) (2 ^ 62)) }
{
    let end = (now.get() + length_of(kind)).min(GREATEST);
    Arming::Arm {
        kind,
        end: Moment::known(end),
    }
}

/// Disarms a timer.
pub fn disarmed(kind: Timer) -> Arming
    ensures { result ≡ Arming.Disarm kind }
{
    Arming::Disarm { kind }
}
