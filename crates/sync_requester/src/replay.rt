//! The versions after the beginning of a whole copy are learned again.

ghost use Rattle.std.specs.Prelude.{◌≡◌, suc, ◌+◌, ◌-◌, ◌≤◌, ◌^◌, [], ◌∷◌, ◌++◌, length, min, IfOk};
ghost use Rattle.std.specs.List.{AllByRecursion};
ghost use Rattle.std.specs.Option.{option_map};
ghost use Rattle.mon_tx.specs.Text.{text, most};
ghost use Rattle.mon_msg.specs.Protocol.Changes.{Last, Unmark, ops_of, encoded};
ghost use Rattle.mon_msg.specs.Protocol.Course.{requester_is};
ghost use Rattle.mon_msg.specs.Protocol.Learning.{learn_changes};
ghost use Rattle.mon_msg.specs.Protocol.Played.{Fits};
ghost use Rattle.mon_msg.specs.Protocol.Readings.{readings_of};
ghost use Rattle.mon_msg.specs.Protocol.Replay.{more_of, step_of, step_in};
ghost use Rattle.mon_msg.specs.Protocol.Timers.{length_of};
ghost use Rattle.mon_msg.specs.declared.plan.Arming.TheVariants as arming;
ghost use Rattle.mon_wire.specs.declared.phase.Phase.TheVariants as phase;
ghost use Rattle.mon_plan.specs.Leaves.{Leaves};
ghost use Rattle.mon_plan.specs.Plans.{PlansRow};
ghost use Rattle.sync_requester.specs.Rows.{Holds};

use mon_bytes::{Items, OutOfMemory};
use mon_msg::{
    MOST_REPLAYED, MOST_REPLAYED_BYTES, Next, Plan, Requester, RoleStop, SyncStage, Timer,
};
use mon_plan::{armed, one, planned, put_last, put_learned, put_unmark, writing};
use mon_stored::{Here, Stored};
use mon_tx::Transaction;
use mon_types::Version;
use std::alloc::Global;

/// Appends the values of the versions from `from` up to but not including `to`, as long as their texts fit into `room`
/// bytes. `None` if a record is missing among them, or right after them and before `to`.
fn with_more(
    alloc: Global,
    stored: &Stored<'_>,
    values: Items<Transaction>,
    from: u64,
    to: u64,
    room: u64,
) -> Result<Option<Items<Transaction>>, OutOfMemory>
    ensures { IfOk result (λ all. all ≡ option_map
        (λ more. values ++ more) (more_of (readings_of stored.now).record_of (to - from) room from)) }
{
    let mut all = values;
    let mut left = room;
    for v in from..to {
        let Some(value) = stored.record_at(alloc, v)? else {
            return Ok(None);
        };
        let size = value.text_len();
        if size > left {
            return Ok(Some(all));
        }
        left -= size;
        all.push(value)?;
    }
    Ok(Some(all))
}

/// The values of the next step in a replay of the versions from `next` to `end`, or `None` if a record of them is
/// missing.
fn step_values(
    alloc: Global,
    stored: &Stored<'_>,
    next: Version,
    end: Version,
) -> Result<Option<Items<Transaction>>, OutOfMemory>
    ensures { IfOk result (λ values. values ≡ step_of (readings_of stored.now).record_of (suc end - next) next) }
{
    let from = next.get();
    let past = end.get() + 1;
    let mut values = Items::new(alloc);
    if from >= past {
        return Ok(Some(values));
    }
    let Some(value) = stored.record_at(alloc, from)? else {
        return Ok(None);
    };
    let room = MOST_REPLAYED_BYTES.saturating_sub(value.text_len());
    values.push(value)?;
    let to = past.min(from + MOST_REPLAYED);
    with_more(alloc, stored, values, from + 1, to, room)
}

/// The transaction that learns these values, of the versions from `from` on.
fn to_learn(
    alloc: Global,
    from: Version,
    values: &[Transaction],
) -> Result<Transaction, OutOfMemory>
    requires { AllByRecursion (λ ops. length (text ops) ≤ most) values.now }
    ensures { IfOk result (λ tx. tx ≡ encoded (learn_changes from values.now)) }
{
    let mut tx = Transaction::new(alloc);
    put_learned(&mut tx, from.get(), values)?;
    Ok(tx)
}

/// The plan of the last step: it makes these changes, notes the last version, removes the mark, and bootstraps.
fn end_with(
    alloc: Global,
    kept: Requester,
    mut tx: Transaction,
    end: Version,
) -> Result<Plan<Requester>, OutOfMemory>
    ensures plan { IfOk result (λ p. p ≡ record {
      tx = (tx ++ ops_of (Last end)) ++ ops_of Unmark;
      out = [];
      timers = [];
      state = kept;
      next = Next.Bootstrap;
    }) }
    ensures fit { Fits (Last end) }
{
    put_last(&mut tx, end)?;
    put_unmark(&mut tx)?;
    Ok(writing(alloc, tx, kept, Next::Bootstrap))
}

/// The plan of a step that isn't the last one: it makes these changes, and arms `Step`.
fn go_on(here: &Here<'_>, kept: Requester, tx: Transaction) -> Result<Plan<Requester>, OutOfMemory>
    ensures { IfOk result (λ p. p ≡ record {
      tx = tx;
      out = [];
      timers = arming.Arm Timer.Step (min (here.now.time + length_of Timer.Step) (2 ^ 62)) ∷ [];
      state = kept;
      next = Next.Stay;
    }) }
{
    let timers = one(here.alloc, armed(here.time, Timer::Step))?;
    Ok(Plan {
        tx,
        out: Items::new(here.alloc),
        timers,
        state: kept,
        next: Next::Stay,
    })
}

/// A step of the replay of the versions from `next` to `end`. After the last of them the copy is complete. If a record
/// is missing, nothing of the step is written. In both cases the monitor bootstraps.
pub(crate) fn replay(
    here: &Here<'_>,
    state: &Requester,
    next: Version,
    end: Version,
) -> Result<Plan<Requester>, RoleStop>
    ensures plans { PlansRow here.now.me.now here.now.time requester_is
        (Holds (readings_of here.now.kv.now) state.now)
        (step_in here.now.me.now here.now.time (SyncStage.Replay next end)) result }
    ensures leaves { IfOk result (λ plan. Leaves phase.Synchronizing plan.next plan.tx) }
{
    let stored = Stored::of(here.alloc, here.kv);
    let values = step_values(here.alloc, &stored, next, end)?;
    let mut kept = state.copy(here.alloc)?;
    let Some(values) = values else {
        return Ok(planned(here.alloc, kept, Next::Bootstrap));
    };
    let tx = to_learn(here.alloc, next, values.as_slice())?;
    let after = next.get() + values.len() as u64;
    if after > end.get() {
        return Ok(end_with(here.alloc, kept, tx, end)?);
    }
    kept.stage = SyncStage::Replay {
        next: Version::known(after),
        end,
    };
    Ok(go_on(here, kept, tx)?)
}
