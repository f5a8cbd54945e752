//! The monitor calls an election.

ghost use Rattle.std.specs.Prelude.{◌≡◌, ◌+◌, ◌^◌, [], ◌∷◌, None, true, min, map, IfOk};
ghost use Rattle.mon_msg.specs.Protocol.Course.{elector_is};
ghost use Rattle.mon_msg.specs.Protocol.Sending.{others, message_to};
ghost use Rattle.mon_msg.specs.Protocol.Sets.{only};
ghost use Rattle.mon_msg.specs.declared.plan.Arming.TheVariants as arming;
ghost use Rattle.mon_msg.specs.declared.plan.Next.TheVariants as next;
ghost use Rattle.mon_plan.specs.Plans.{PlansAct};
ghost use Rattle.mon_wire.specs.declared.body.Body.TheVariants as body;
ghost use Rattle.mon_wire.specs.declared.phase.Timer.TheVariants as timer;
ghost use Rattle.mon_elector.specs.Rows.{IsCalled, sent_table};

use crate::seen::{is_even, sent_table};
use crate::steps::{plan_until, send_to_others, to_epoch};
use mon_bytes::OutOfMemory;
use mon_msg::{Body, Elector, Me, Plan, RoleStop, Timer};
use mon_plan::armed;
use mon_tx::Transaction;
use mon_types::{Epoch, Moment, RankSet, Which};
use std::alloc::Global;

/// The elector's state as a candidate to which only itself has deferred.
fn as_candidate(me: &Me, state: &Elector) -> Elector
    ensures { result ≡ record state.now { candidate = true; acked = only me.now.member.rank; deferred = None } }
{
    Elector {
        candidate: true,
        acked: RankSet::empty().with(me.member.rank),
        deferred: None,
        ..*state
    }
}

/// The plan of a candidate: it proposes itself to all others, and arms `Election`.
fn call(
    alloc: Global,
    me: &Me,
    tx: Transaction,
    epoch: Epoch,
    state: &Elector,
    now: Moment,
) -> Result<Plan<Elector>, OutOfMemory>
    ensures { IfOk result (λ p. p ≡ record {
      tx = tx;
      out = map (message_to me.now epoch (body.Propose (sent_table me.now.rule state.now.scores))) (others me.now);
      timers = arming.Arm timer.Election (min (now + 5000) (2 ^ 62)) ∷ [];
      state = record state.now { candidate = true; acked = only me.now.member.rank; deferred = None };
      next = next.Stay;
    }) }
{
    let table = sent_table(alloc, &me.rule, &state.scores)?;
    let out = send_to_others(alloc, me, epoch, Body::Propose { table })?;
    let arming = armed(now, Timer::Election);
    plan_until(alloc, tx, out, as_candidate(me, state), arming)
}

/// What an elector does if its monitor calls an election. `epoch` is the epoch after the earlier acts of the event. If
/// it is even, the election is in the next one. `Spent` names that next epoch if it would pass 2^62.
pub fn enter(
    alloc: Global,
    me: &Me,
    epoch: Epoch,
    state: &Elector,
    now: Moment,
) -> Result<Plan<Elector>, RoleStop>
    ensures plans { PlansAct me.now now elector_is (IsCalled epoch state.now) next.Elect result }
    ensures stays { IfOk result (λ p. p.next ≡ next.Stay) }
{
    if !is_even(epoch) {
        return Ok(call(alloc, me, Transaction::new(alloc), epoch, state, now)?);
    }
    let Some(odd) = epoch.plus_one() else {
        return Err(RoleStop::Spent {
            which: Which::Epoch,
        });
    };
    Ok(call(alloc, me, to_epoch(alloc, odd)?, odd, state, now)?)
}
