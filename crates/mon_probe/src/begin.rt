//! A monitor bootstraps.

ghost use Rattle.std.specs.Prelude.{◌≡◌, ◌+◌, ◌^◌, [], ◌∷◌, min, map, IfOk};
ghost use Rattle.mon_msg.specs.Protocol.Changes.{Epoch as ToEpoch, encoded};
ghost use Rattle.mon_msg.specs.Protocol.Course.{prober_is};
ghost use Rattle.mon_msg.specs.Protocol.Played.{Fits};
ghost use Rattle.mon_msg.specs.Protocol.Readings.{readings_of};
ghost use Rattle.mon_msg.specs.Protocol.Sending.{others, message_to};
ghost use Rattle.mon_msg.specs.Protocol.Sets.{only};
ghost use Rattle.mon_msg.specs.declared.plan.Arming.TheVariants as arming;
ghost use Rattle.mon_msg.specs.declared.plan.Next.TheVariants as next;
ghost use Rattle.mon_plan.specs.Leaves.{Ends};
ghost use Rattle.mon_plan.specs.Plans.{PlansAct};
ghost use Rattle.mon_wire.specs.declared.body.Body.TheVariants as body;
ghost use Rattle.mon_wire.specs.declared.phase.Timer.TheVariants as timer;
ghost use Rattle.mon_probe.specs.Rows.{IsBegun};

use crate::seen::{has_others, may_lead, next_even};
use mon_bytes::{Items, OutOfMemory};
use mon_kv::Kv;
use mon_msg::plan::Sent;
use mon_msg::{Body, Me, Next, Plan, Prober, RoleStop, Timer};
use mon_plan::{armed, one, others, put_epoch, send_each, stay, writing};
use mon_tx::Transaction;
use mon_types::{Epoch, Moment, RankSet, Which};
use std::alloc::Global;

/// The prober's state that counts this monitor alone.
fn alone(me: &Me) -> Prober
    ensures { result ≡ record { outside = only me.now.member.rank } }
{
    Prober {
        outside: RankSet::empty().with(me.member.rank),
    }
}

/// A PROBE to each of the others.
fn probes(alloc: Global, me: &Me, epoch: Epoch) -> Result<Items<Sent>, OutOfMemory>
    ensures { IfOk result (λ out. out ≡ map (message_to me.now epoch body.Probe) (others me.now)) }
{
    let ranks = others(alloc, me)?;
    let mut out = Items::new(alloc);
    send_each(alloc, &mut out, me, epoch, ranks.as_slice(), &Body::Probe)?;
    Ok(out)
}

/// The plan that sends a PROBE to all others, and arms `Probe`.
fn ask(alloc: Global, me: &Me, epoch: Epoch, now: Moment) -> Result<Plan<Prober>, OutOfMemory>
    ensures { IfOk result (λ p. p ≡ record {
      tx = [];
      out = map (message_to me.now epoch body.Probe) (others me.now);
      timers = arming.Arm timer.Probe (min (now + 2000) (2 ^ 62)) ∷ [];
      state = record { outside = only me.now.member.rank };
      next = next.Stay;
    }) }
{
    let out = probes(alloc, me, epoch)?;
    let timers = one(alloc, armed(now, Timer::Probe))?;
    Ok(Plan {
        tx: Transaction::new(alloc),
        out,
        timers,
        state: alone(me),
        next: Next::Stay,
    })
}

/// The plan of a monitor alone in its map: it puts the epoch, and wins it.
fn lead(alloc: Global, me: &Me, epoch: Epoch) -> Result<Plan<Prober>, OutOfMemory>
    ensures plan { IfOk result (λ p. p ≡ record {
      tx = encoded (ToEpoch epoch ∷ []);
      out = [];
      timers = [];
      state = record { outside = only me.now.member.rank };
      next = next.Win (only me.now.member.rank);
    }) }
    ensures fit { Fits (ToEpoch epoch) }
{
    let mut tx = Transaction::new(alloc);
    put_epoch(&mut tx, epoch)?;
    let quorum = RankSet::empty().with(me.member.rank);
    Ok(writing(alloc, tx, alone(me), Next::Win { quorum }))
}

/// What a prober does if its monitor bootstraps. `epoch` is the epoch after the earlier acts of the event, and `kv` is
/// the store before the event. A monitor of several asks the others. One that is alone wins the next even epoch if it
/// may lead and isn't marked; otherwise it waits. `Spent` names that epoch if it would pass 2^62.
pub fn enter(
    alloc: Global,
    kv: &Kv,
    me: &Me,
    epoch: Epoch,
    now: Moment,
) -> Result<Plan<Prober>, RoleStop>
    ensures plans { PlansAct me.now now prober_is (IsBegun me.now (readings_of kv.now) epoch) next.Bootstrap result }
    ensures ends { IfOk result (λ p. Ends me.now p.next p.tx) }
{
    if has_others(me) {
        return Ok(ask(alloc, me, epoch, now)?);
    }
    if !may_lead(alloc, kv, me) {
        return Ok(stay(alloc, alone(me)));
    }
    let Some(even) = next_even(epoch) else {
        return Err(RoleStop::Spent {
            which: Which::Epoch,
        });
    };
    Ok(lead(alloc, me, even)?)
}
