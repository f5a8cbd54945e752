//! The leader gives a lease.

ghost use Rattle.std.specs.Prelude.{◌≡◌, ℕ, ◌==◌, ◌||◌, not, is_some, IfOk};
ghost use Rattle.mon_msg.specs.Protocol.Peon.{hear_lease};
ghost use Rattle.mon_msg.specs.Protocol.Readings.{readings_of};
ghost use Rattle.mon_msg.specs.Protocol.Records.{pending};
ghost use Rattle.mon_lease.specs.Lease.{extended};
ghost use Rattle.mon_plan.specs.Leaves.{Leaves};
ghost use Rattle.mon_wire.specs.declared.phase.Phase.{Phase};
ghost use Rattle.paxos_peon.specs.Rows.{ByRow};

use crate::here::Here;
use mon_lease::Lease;
use mon_msg::{Body, Next, Peon, Plan, RoleStop, Timer};
use mon_plan::{armed, message, one, stay};
use mon_stored::Stored;
use mon_tx::Transaction;
use mon_types::{Moment, Version};

/// The peon's state with a lease that is given at `now`.
fn with_lease(state: &Peon, now: Moment) -> Peon
    ensures { result ≡ record state.now { lease = extended now } }
{
    let mut lease = Lease::none();
    lease.extend(now);
    Peon { lease, ..*state }
}

/// Whether a lease for a version is refused: it isn't for the last version, or a value is pending.
fn is_refused(stored: &Stored<'_>, version: Version) -> bool
    ensures { result ≡ (not (version == (readings_of stored.now).last) || is_some (pending (readings_of stored.now))) }
{
    version.get() != stored.last().get() || stored.has_pending()
}

/// The leader gives a lease for a version. The peon takes and acknowledges it, or drops it.
pub(crate) fn lease(here: &Here<'_>, version: Version) -> Result<Plan<Peon>, RoleStop>
    ensures plans { (e : ℕ) → ByRow here.now e
        (hear_lease here.now.me.now here.now.time here.now.state.now.leader e version) result }
    ensures leaves { (at : Phase) → IfOk result (λ p. Leaves at p.next p.tx) }
{
    if is_refused(here.stored, version) {
        return Ok(stay(here.alloc, *here.state));
    }
    let timers = one(here.alloc, armed(here.time, Timer::Lease))?;
    let taken = Body::LeaseAck {
        last: here.stored.last(),
    };
    let sent = message(here.me, here.stored.epoch(), taken, here.state.leader);
    let out = one(here.alloc, sent)?;
    Ok(Plan {
        tx: Transaction::new(here.alloc),
        out,
        timers,
        state: with_lease(here.state, here.time),
        next: Next::Stay,
    })
}
