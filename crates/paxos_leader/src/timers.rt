//! Timers of a leader.

ghost use Rattle.std.specs.Prelude.{◌≡◌, IfOk};
ghost use Rattle.paxos_leader.specs.Drafts.{lease_timers as timers_of_leases, value_timers as timers_of_values};

use mon_bytes::{Items, OutOfMemory};
use mon_msg::{Arming, Timer};
use mon_plan::{armed, disarmed};
use mon_types::Moment;
use std::alloc::Global;

/// The timers of a leader that has given a lease. If it is alone in its quorum, it awaits no acknowledgements. When the
/// plan is carried out, `Propose` is armed only if a command waits, and a `LeaseAck` that is armed keeps its end.
pub(crate) fn lease_timers(
    alloc: Global,
    alone: bool,
    now: Moment,
) -> Result<Items<Arming>, OutOfMemory>
    ensures { IfOk result (λ timers. timers ≡ timers_of_leases alone now) }
{
    let renew = armed(now, Timer::Renew);
    let propose = armed(now, Timer::Propose);
    if alone {
        return Ok(Items::from_vec(vec![in alloc; renew, propose]?));
    }
    let acks = armed(now, Timer::LeaseAck);
    Ok(Items::from_vec(vec![in alloc; renew, acks, propose]?))
}

/// The timers of a leader whose value awaits acceptances.
pub(crate) fn value_timers(alloc: Global, now: Moment) -> Result<Items<Arming>, OutOfMemory>
    ensures { IfOk result (λ timers. timers ≡ timers_of_values now) }
{
    let renew = disarmed(Timer::Renew);
    let acks = disarmed(Timer::LeaseAck);
    let accept = armed(now, Timer::Accept);
    Ok(Items::from_vec(vec![in alloc; renew, acks, accept]?))
}
