//! A monitor begins to synchronize.

ghost use Rattle.std.specs.Prelude.{◌≡◌, IfOk, if◌then◌else◌};
ghost use Rattle.mon_msg.specs.Protocol.Course.{requester_is};
ghost use Rattle.mon_msg.specs.Protocol.Readings.{readings_of};
ghost use Rattle.mon_msg.specs.Protocol.State.{start_requester};
ghost use Rattle.mon_msg.specs.Protocol.Synchronizing.{floor_of};
ghost use Rattle.mon_msg.specs.declared.plan.Next.TheVariants as next;
ghost use Rattle.mon_plan.specs.Plans.{PlansAct};
ghost use Rattle.sync_requester.specs.Rows.{IsEntering};

use crate::cookies::ask;
use mon_bytes::KeyPlace;
use mon_kv::Kv;
use mon_msg::{Body, Me, Place, Plan, Requester, RoleStop, SyncStage};
use mon_plan::put_mark;
use mon_stored::{Here, Stored};
use mon_tx::Transaction;
use mon_types::{Epoch, Moment, Rank, Version};
use std::alloc::Global;

/// The version that a whole copy must reach, so that the monitor doesn't forget what it has committed or accepted.
fn floor_of(stored: &Stored<'_>) -> Version
    ensures { result ≡ floor_of (readings_of stored.now) }
{
    let last = stored.last();
    let reached = stored.floor().get().max(last.get());
    if stored.has_pending() {
        return Version::known(reached.max(last.plus_one_saturating().get()));
    }
    Version::known(reached)
}

/// The state of a requester that awaits a cookie from this provider.
fn awaiting(from: Rank, full: bool) -> Requester
    ensures { result ≡ start_requester from full }
{
    Requester {
        provider: from,
        full,
        stage: SyncStage::Cookie,
        cookie: None,
        start: Version::known(0),
        place: Place {
            version: Version::known(0),
            key: KeyPlace::Start,
        },
    }
}

/// Begins to synchronize from another monitor. If `full`, the monitor gives up its shared keys and asks for a whole
/// copy. It keeps its own numbers, and notes the version that the copy must reach. Otherwise it asks for the versions
/// that it lacks. `epoch` is its epoch now. `Spent` is never returned.
pub fn enter(
    alloc: Global,
    kv: &Kv,
    me: &Me,
    epoch: Epoch,
    from: Rank,
    full: bool,
    now: Moment,
) -> Result<Plan<Requester>, RoleStop>
    ensures plans { PlansAct me.now now requester_is (IsEntering epoch (readings_of kv.now))
        (if full then next.FullSync from else next.RecentSync from) result }
    ensures stays { IfOk result (λ plan. plan.next ≡ next.Stay) }
{
    let here = Here {
        alloc,
        kv,
        me,
        time: now,
    };
    let stored = Stored::of(alloc, kv);
    let mut tx = Transaction::new(alloc);
    if !full {
        let last = stored.last();
        drop(stored);
        let asked = Body::GetCookieRecent { last };
        return Ok(ask(&here, epoch, tx, asked, awaiting(from, false))?);
    }
    let floor = floor_of(&stored);
    let last_pn = stored.last_pn();
    let promised = stored.promised();
    drop(stored);
    put_mark(&mut tx, floor, last_pn, promised)?;
    Ok(ask(&here, epoch, tx, Body::GetCookieFull, awaiting(from, true))?)
}
