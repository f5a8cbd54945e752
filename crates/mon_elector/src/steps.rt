//! The steps of which an elector's plans are made.

ghost use Rattle.std.specs.Prelude.{◌≡◌, [], ◌∷◌, Some, None, false, map, IfOk};
ghost use Rattle.mon_msg.specs.Protocol.Changes.{Epoch as ToEpoch, encoded};
ghost use Rattle.mon_msg.specs.Protocol.Elections.{merged_if_sent};
ghost use Rattle.mon_msg.specs.Protocol.Played.{Fits};
ghost use Rattle.mon_msg.specs.Protocol.Readings.{epoch_of, readings_of};
ghost use Rattle.mon_msg.specs.Protocol.Sending.{message_to, others};
ghost use Rattle.mon_msg.specs.declared.plan.Arming.TheVariants as arming;
ghost use Rattle.mon_msg.specs.declared.plan.Next.TheVariants as next;
ghost use Rattle.mon_types.specs.Ranks.{no_ranks};
ghost use Rattle.mon_wire.specs.declared.body.Body.TheVariants as body;
ghost use Rattle.mon_wire.specs.declared.phase.Phase.{Phase};
ghost use Rattle.mon_plan.specs.Leaves.{Leaves};
ghost use Rattle.mon_elector.specs.Rows.{Wins};

use mon_bytes::{Items, OutOfMemory};
use mon_msg::plan::Sent;
use mon_msg::{Arming, Body, Elector, Me, Next, Plan, RoleStop, ScoreTable};
use mon_plan::{message, one, others, put_epoch, send_each, sending, writing};
use mon_stored::Stored;
use mon_tx::Transaction;
use mon_types::{Epoch, Rank, RankSet, Which};
use std::alloc::Global;

/// The elector's state with the table of a message, if it has one, merged into its own.
pub(crate) fn merged(table: &Option<ScoreTable>, state: &Elector) -> Elector
    ensures { result ≡ record state.now { scores = merged_if_sent table.now state.now.scores } }
{
    let mut scores = state.scores;
    if let Some(table) = table {
        scores.merge(table.scores());
    }
    Elector { scores, ..*state }
}

/// The elector's state in an election that another monitor called, before it defers to anybody.
pub(crate) fn joining(state: &Elector) -> Elector
    ensures { result ≡ record state.now { candidate = false; acked = no_ranks; deferred = None } }
{
    Elector {
        candidate: false,
        acked: RankSet::empty(),
        deferred: None,
        ..*state
    }
}

/// The elector's state once it defers to a candidate.
fn deferring(state: &Elector, from: Rank) -> Elector
    ensures { result ≡ record state.now { candidate = false; acked = no_ranks; deferred = Some from } }
{
    Elector {
        candidate: false,
        acked: RankSet::empty(),
        deferred: Some(from),
        ..*state
    }
}

/// The transaction that puts an epoch.
pub(crate) fn to_epoch(alloc: Global, epoch: Epoch) -> Result<Transaction, OutOfMemory>
    ensures changes { IfOk result (λ tx. tx ≡ encoded (ToEpoch epoch ∷ [])) }
    ensures fit { Fits (ToEpoch epoch) }
{
    let mut tx = Transaction::new(alloc);
    put_epoch(&mut tx, epoch)?;
    Ok(tx)
}

/// The plan that puts an epoch, and then names an act.
pub(crate) fn enter_epoch(
    alloc: Global,
    epoch: Epoch,
    state: Elector,
    next: Next,
) -> Result<Plan<Elector>, OutOfMemory>
    ensures plan { IfOk result
        (λ p. p ≡ record { tx = encoded (ToEpoch epoch ∷ []); out = []; timers = []; state = state; next = next }) }
    ensures fit { Fits (ToEpoch epoch) }
{
    let tx = to_epoch(alloc, epoch)?;
    Ok(writing(alloc, tx, state, next))
}

/// The plan that puts an epoch, sets a timer, and then names an act.
pub(crate) fn enter_epoch_until(
    alloc: Global,
    epoch: Epoch,
    state: Elector,
    arming: Arming,
    next: Next,
) -> Result<Plan<Elector>, OutOfMemory>
    ensures plan { IfOk result
        (λ p. p ≡ record {
          tx = encoded (ToEpoch epoch ∷ []);
          out = [];
          timers = arming ∷ [];
          state = state;
          next = next;
        }) }
    ensures fit { Fits (ToEpoch epoch) }
{
    let tx = to_epoch(alloc, epoch)?;
    let timers = one(alloc, arming)?;
    Ok(Plan {
        tx,
        out: Items::new(alloc),
        timers,
        state,
        next,
    })
}

/// A copy of a message for each other monitor of the map.
fn send_copies(
    alloc: Global,
    me: &Me,
    epoch: Epoch,
    body: &Body,
) -> Result<Items<Sent>, OutOfMemory>
    ensures { IfOk result (λ out. out ≡ map (message_to me.now epoch body.now) (others me.now)) }
{
    let ranks = others(alloc, me)?;
    let mut out = Items::new(alloc);
    send_each(alloc, &mut out, me, epoch, ranks.as_slice(), body)?;
    Ok(out)
}

/// A message for each other monitor of the map.
pub(crate) fn send_to_others(
    alloc: Global,
    me: &Me,
    epoch: Epoch,
    body: Body,
) -> Result<Items<Sent>, OutOfMemory>
    ensures { IfOk result (λ out. out ≡ map (message_to me.now epoch body) (others me.now)) }
{
    let out = send_copies(alloc, me, epoch, &body);
    drop(body);
    out
}

/// The plan with these changes and messages, which sets one timer and names no act.
pub(crate) fn plan_until(
    alloc: Global,
    tx: Transaction,
    out: Items<Sent>,
    state: Elector,
    arming: Arming,
) -> Result<Plan<Elector>, OutOfMemory>
    ensures { IfOk result (λ p. p ≡ record {
      tx = tx;
      out = out;
      timers = arming ∷ [];
      state = state;
      next = next.Stay;
    }) }
{
    let timers = one(alloc, arming)?;
    Ok(Plan {
        tx,
        out,
        timers,
        state,
        next: Next::Stay,
    })
}

/// The monitor defers to a candidate of its own epoch.
pub(crate) fn defer(
    alloc: Global,
    me: &Me,
    epoch: Epoch,
    state: &Elector,
    from: Rank,
) -> Result<Plan<Elector>, OutOfMemory>
    ensures { IfOk result (λ p. p ≡ record {
      tx = [];
      out = message_to me.now epoch body.Ack from ∷ [];
      timers = [];
      state = record state.now { candidate = false; acked = no_ranks; deferred = Some from };
      next = next.Stay;
    }) }
{
    let out = one(alloc, message(me, epoch, Body::Ack, from))?;
    Ok(sending(alloc, out, deferring(state, from)))
}

/// The monitor joins the election of a later epoch, and defers to the candidate whose message it heard.
pub(crate) fn join_and_defer(
    alloc: Global,
    me: &Me,
    epoch: Epoch,
    state: &Elector,
    from: Rank,
    arming: Arming,
) -> Result<Plan<Elector>, OutOfMemory>
    ensures plan { IfOk result (λ p. p ≡ record {
      tx = encoded (ToEpoch epoch ∷ []);
      out = message_to me.now epoch body.Ack from ∷ [];
      timers = arming ∷ [];
      state = record state.now { candidate = false; acked = no_ranks; deferred = Some from };
      next = next.Electing;
    }) }
    ensures fit { Fits (ToEpoch epoch) }
{
    let tx = to_epoch(alloc, epoch)?;
    let out = one(alloc, message(me, epoch, Body::Ack, from))?;
    let timers = one(alloc, arming)?;
    Ok(Plan {
        tx,
        out,
        timers,
        state: deferring(state, from),
        next: Next::Electing,
    })
}

/// The monitor wins, and leads those that deferred to it, in the next epoch. `Spent` names that epoch if it would pass
/// 2^62.
pub(crate) fn win(
    alloc: Global,
    stored: &Stored<'_>,
    state: Elector,
    acked: RankSet,
) -> Result<Plan<Elector>, RoleStop>
    ensures wins { Wins (epoch_of (readings_of stored.now)) state acked result }
    ensures leaves { (at : Phase) → IfOk result (λ p. Leaves at p.next p.tx) }
{
    let Some(epoch) = stored.epoch().plus_one() else {
        return Err(RoleStop::Spent {
            which: Which::Epoch,
        });
    };
    Ok(enter_epoch(alloc, epoch, state, Next::Win { quorum: acked })?)
}
