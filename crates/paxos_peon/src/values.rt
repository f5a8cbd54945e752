//! The leader asks to accept a value, or sends values that are committed.

ghost use Rattle.std.specs.Prelude.{◌≡◌, ℕ, suc, ◌≤◌, ◌==◌, ◌&&◌, nat_lt, length, IfOk};
ghost use Rattle.std.specs.List.{AllByRecursion};
ghost use Rattle.mon_tx.specs.Text.{text, most};
ghost use Rattle.mon_msg.specs.Protocol.Peon.{hear_begin, hear_commit};
ghost use Rattle.mon_msg.specs.Protocol.Readings.{readings_of, promise_of};
ghost use Rattle.mon_plan.specs.Leaves.{Leaves};
ghost use Rattle.mon_wire.specs.declared.phase.Phase.{Phase};
ghost use Rattle.mon_wire.specs.declared.write_lists.TheConstants.{MOST_ITEMS};
ghost use Rattle.paxos_peon.specs.Rows.{ByRow};

use crate::collecting::without_lease;
use crate::here::Here;
use mon_bytes::Items;
use mon_msg::{Body, Next, Peon, Plan, RoleStop};
use mon_plan::{learn, message, one, put_vote, stay, writing};
use mon_stored::Stored;
use mon_tx::Transaction;
use mon_types::{Pn, Version};

/// Whether a value is accepted: it comes under the number that is promised, for the version after the last one.
fn is_accepted(stored: &Stored<'_>, pn: Pn, version: Version) -> bool
    ensures { result ≡ (pn == promise_of (readings_of stored.now) && version == suc (readings_of stored.now).last) }
{
    pn.get() == stored.promise().get() && version.get() == stored.last().get() + 1
}

/// The leader asks to accept a value for a version. The peon votes for it and gives up its lease, or drops the request.
pub(crate) fn begin(
    here: &Here<'_>,
    pn: Pn,
    version: Version,
    value: &Transaction,
) -> Result<Plan<Peon>, RoleStop>
    requires { length (text value.now) ≤ most }
    ensures plans { (e : ℕ) → ByRow here.now e
        (hear_begin here.now.me.now here.now.state.now.leader e pn version value.now) result }
    ensures leaves { (at : Phase) → IfOk result (λ p. Leaves at p.next p.tx) }
{
    if !is_accepted(here.stored, pn, version) {
        return Ok(stay(here.alloc, *here.state));
    }
    let mut tx = Transaction::new(here.alloc);
    put_vote(&mut tx, version, pn, value)?;
    let accepted = Body::Accept { pn, version };
    let sent = message(here.me, here.stored.epoch(), accepted, here.state.leader);
    let out = one(here.alloc, sent)?;
    Ok(Plan {
        tx,
        out,
        timers: Items::new(here.alloc),
        state: without_lease(here.state),
        next: Next::Stay,
    })
}

/// Whether values from version `from` on would leave a gap after the last version.
fn is_ahead(stored: &Stored<'_>, from: Version) -> bool
    ensures { result ≡ nat_lt (suc (readings_of stored.now).last) from }
{
    from.get() > stored.last().get() + 1
}

/// The leader sends the values of the versions from `from` on, which are committed.
pub(crate) fn commit(
    here: &Here<'_>,
    from: Version,
    values: &[Transaction],
) -> Result<Plan<Peon>, RoleStop>
    requires short { AllByRecursion (λ ops. length (text ops) ≤ most) values.now }
    requires few { length values.now ≤ MOST_ITEMS }
    ensures plans { (e : ℕ) → ByRow here.now e (hear_commit here.now.state.now.leader e from values.now) result }
    ensures leaves { (at : Phase) → IfOk result (λ p. Leaves at p.next p.tx) }
{
    if is_ahead(here.stored, from) {
        return Ok(stay(here.alloc, *here.state));
    }
    let next = here.stored.last().get() + 1;
    let known = (next - from.get()).min(values.len() as u64) as usize;
    let mut tx = Transaction::new(here.alloc);
    learn(&mut tx, next, &values[known..])?;
    Ok(writing(here.alloc, tx, *here.state, Next::Stay))
}
