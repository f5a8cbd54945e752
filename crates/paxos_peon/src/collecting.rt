//! The leader asks what was accepted.

ghost use Rattle.std.specs.Prelude.{◌≡◌, ℕ, ◌++◌, nat_lt, None, IfOk, OnOk, if◌then◌else◌};
ghost use Rattle.std.specs.List.{AllByRecursion};
ghost use Rattle.mon_msg.specs.Protocol.Changes.{encoded};
ghost use Rattle.mon_msg.specs.Protocol.Peon.{hear_collect};
ghost use Rattle.mon_msg.specs.Protocol.Played.{Fits};
ghost use Rattle.mon_plan.specs.Leaves.{Leaves};
ghost use Rattle.mon_wire.specs.declared.phase.Phase.{Phase};
ghost use Rattle.paxos_peon.specs.Rows.{ByRow, promised};

use crate::answer::answer;
use crate::here::Here;
use mon_bytes::{Items, OutOfMemory};
use mon_lease::Lease;
use mon_msg::{Next, Peon, Plan, RoleStop};
use mon_plan::{message, one, planned, put_promise};
use mon_tx::Transaction;
use mon_types::{Pn, Version, Which};

/// The peon's state without a lease.
pub(crate) fn without_lease(state: &Peon) -> Peon
    ensures { result ≡ record state.now { lease = None } }
{
    Peon {
        lease: Lease::none(),
        ..*state
    }
}

/// Promises a number that is above the own one. Returns the number that is promised then.
fn promised(tx: &mut Transaction, old: Pn, pn: Pn) -> Result<Pn, OutOfMemory>
    ensures number { IfOk result (λ n. n ≡ if nat_lt old pn then pn else old) }
    ensures changes { OnOk result (tx.new ≡ tx.old ++ encoded (promised old pn)) }
    ensures fit { AllByRecursion Fits (promised old pn) }
{
    if pn.get() > old.get() {
        put_promise(tx, pn)?;
        return Ok(pn);
    }
    Ok(old)
}

/// The leader collects under a number, and keeps the versions from `leader_first` to `leader_last`. A peon that lacks
/// the version before them bootstraps. `Spent` names the version after `leader_last` if it would pass 2^62.
pub(crate) fn collect(
    here: &Here<'_>,
    pn: Pn,
    leader_first: Version,
    leader_last: Version,
) -> Result<Plan<Peon>, RoleStop>
    ensures plans { (e : ℕ) → ByRow here.now e
        (hear_collect here.now.me.now here.now.time here.now.state.now.leader e pn leader_first leader_last) result }
    ensures leaves { (at : Phase) → IfOk result (λ p. Leaves at p.next p.tx) }
{
    if leader_first.get() > here.stored.last().get() + 1 {
        return Ok(planned(here.alloc, *here.state, Next::Bootstrap));
    }
    let Some(next) = leader_last.plus_one() else {
        return Err(RoleStop::Spent {
            which: Which::Version,
        });
    };
    let mut tx = Transaction::new(here.alloc);
    let promise = promised(&mut tx, here.stored.promise(), pn)?;
    let answer = answer(here.alloc, here.stored, promise, next)?;
    let sent = message(here.me, here.stored.epoch(), answer, here.state.leader);
    let out = one(here.alloc, sent)?;
    Ok(Plan {
        tx,
        out,
        timers: Items::new(here.alloc),
        state: without_lease(here.state),
        next: Next::Stay,
    })
}
