//! The provider grants a cookie, or knows of none.

ghost use Rattle.std.specs.Prelude.{◌≡◌, ℕ, ◌+◌, ◌^◌, ◌&&◌, ◌||◌, ◌∷◌, [], not, nat_lt, min, Some, IfOk};
ghost use Rattle.mon_msg.specs.Protocol.Copying.{awaits_cookie, first_place, hear_cookie, hear_no_cookie, same_flag};
ghost use Rattle.mon_msg.specs.Protocol.Places.{is_cookie, no_cookie, same_cookie};
ghost use Rattle.mon_msg.specs.Protocol.Readings.{readings_of};
ghost use Rattle.mon_msg.specs.Protocol.Sending.{message_to};
ghost use Rattle.mon_msg.specs.Protocol.Timers.{length_of};
ghost use Rattle.mon_msg.specs.declared.plan.Arming.TheVariants as arming;
ghost use Rattle.mon_msg.specs.declared.plan.Next.TheVariants as next;
ghost use Rattle.mon_wire.specs.declared.body.Body.TheVariants as body;
ghost use Rattle.mon_wire.specs.declared.phase.Phase.TheVariants as phase;
ghost use Rattle.mon_plan.specs.Leaves.{Leaves};
ghost use Rattle.sync_requester.specs.Rows.{ByHeard};

use crate::places::first_place;
use mon_bytes::OutOfMemory;
use mon_msg::{Body, Cookie, Next, Place, Plan, Requester, RoleStop, SyncStage, Timer};
use mon_plan::{armed, message, one, planned, stay};
use mon_stored::{Here, Stored};
use mon_tx::Transaction;
use mon_types::{Epoch, Version};

/// The cookie in the NO_COOKIE of a provider that can't serve a recent synchronization.
const NO_COOKIE: Cookie = Cookie { boot: 0, seq: 0 };

fn awaits_cookie(stage: SyncStage) -> bool
    ensures { result ≡ awaits_cookie stage }
{
    match stage {
        SyncStage::Cookie => true,
        SyncStage::Chunks | SyncStage::Replay { .. } => false,
    }
}

/// Whether a COOKIE is dropped: none is awaited, it is of the other kind, or it is for a whole copy and the provider's
/// last version is below the floor.
fn is_refused(stored: &Stored<'_>, state: &Requester, full: bool, last: Version) -> bool
    ensures { result ≡ (not (awaits_cookie state.now.stage && same_flag full state.now.full) ||
        (full && nat_lt last (readings_of stored.now).floor)) }
{
    if !awaits_cookie(state.stage) || full != state.full {
        return true;
    }
    full && last.get() < stored.floor().get()
}

/// The requester's state as it begins to take chunks under a cookie, from a place on.
fn with_cookie(state: &Requester, cookie: Cookie, place: Place) -> Requester
    ensures { result ≡ record state.now {
      stage = SyncStage.Chunks;
      cookie = Some cookie;
      start = place.version;
      place = place;
    } }
{
    Requester {
        provider: state.provider,
        full: state.full,
        stage: SyncStage::Chunks,
        cookie: Some(cookie),
        start: place.version,
        place,
    }
}

/// The plan that makes these changes, sends the provider a request, and arms `Sync`, which limits the wait for its
/// answer.
pub(crate) fn ask(
    here: &Here<'_>,
    epoch: Epoch,
    tx: Transaction,
    body: Body,
    state: Requester,
) -> Result<Plan<Requester>, OutOfMemory>
    ensures { IfOk result (λ p. p ≡ record {
      tx = tx;
      out = message_to here.now.me.now epoch body state.provider ∷ [];
      timers = arming.Arm Timer.Sync (min (here.now.time + length_of Timer.Sync) (2 ^ 62)) ∷ [];
      state = state;
      next = next.Stay;
    }) }
{
    let out = one(here.alloc, message(here.me, epoch, body, state.provider))?;
    let timers = one(here.alloc, armed(here.time, Timer::Sync))?;
    Ok(Plan {
        tx,
        out,
        timers,
        state,
        next: Next::Stay,
    })
}

/// The plan that makes these changes, and asks for the chunk after the requester's place.
pub(crate) fn ask_chunk(
    here: &Here<'_>,
    epoch: Epoch,
    tx: Transaction,
    cookie: Cookie,
    state: Requester,
) -> Result<Plan<Requester>, OutOfMemory>
    ensures { IfOk result (λ p. p ≡ record {
      tx = tx;
      out = message_to here.now.me.now epoch (body.GetChunk cookie state.place) state.provider ∷ [];
      timers = arming.Arm Timer.Sync (min (here.now.time + length_of Timer.Sync) (2 ^ 62)) ∷ [];
      state = state;
      next = next.Stay;
    }) }
{
    let place = state.place.copy(here.alloc)?;
    ask(here, epoch, tx, Body::GetChunk { cookie, place }, state)
}

/// The provider grants a cookie for a whole copy, if `full`, or for the versions that this monitor lacks.
pub(crate) fn hear_cookie(
    here: &Here<'_>,
    state: &Requester,
    full: bool,
    cookie: Cookie,
    last: Version,
) -> Result<Plan<Requester>, RoleStop>
    ensures plans { (f : ℕ) → ByHeard here.now state.now f
        (hear_cookie here.now.me.now here.now.time f full cookie last) result }
    ensures leaves { IfOk result (λ plan. Leaves phase.Synchronizing plan.next plan.tx) }
{
    let stored = Stored::of(here.alloc, here.kv);
    if is_refused(&stored, state, full, last) {
        return Ok(stay(here.alloc, state.copy(here.alloc)?));
    }
    let place = first_place(full, last, stored.last());
    let taking = with_cookie(state, cookie, place);
    let tx = Transaction::new(here.alloc);
    Ok(ask_chunk(here, stored.epoch(), tx, cookie, taking)?)
}

/// Whether a cookie that the provider doesn't know is the own one.
pub(crate) fn is_own_cookie(state: &Requester, cookie: Cookie) -> bool
    ensures { result ≡ is_cookie cookie state.now.cookie }
{
    match state.cookie {
        None => false,
        Some(own) => cookie == own,
    }
}

/// Whether a NO_COOKIE ends the synchronization. It names the own cookie, or it answers the request for a recent
/// synchronization that the provider can't serve.
fn is_lost(state: &Requester, cookie: Cookie) -> bool
    ensures { result ≡ (is_cookie cookie state.now.cookie ||
        (awaits_cookie state.now.stage && not state.now.full && same_cookie cookie no_cookie)) }
{
    is_own_cookie(state, cookie)
        || (awaits_cookie(state.stage) && !state.full && cookie == NO_COOKIE)
}

/// The provider doesn't know a cookie, or can't grant one. If that ends the synchronization, the monitor bootstraps.
pub(crate) fn hear_no_cookie(
    here: &Here<'_>,
    state: &Requester,
    cookie: Cookie,
) -> Result<Plan<Requester>, RoleStop>
    ensures plans { (f : ℕ) → ByHeard here.now state.now f
        (hear_no_cookie here.now.me.now here.now.time f cookie) result }
    ensures leaves { IfOk result (λ plan. Leaves phase.Synchronizing plan.next plan.tx) }
{
    let kept = state.copy(here.alloc)?;
    if is_lost(state, cookie) {
        return Ok(planned(here.alloc, kept, Next::Bootstrap));
    }
    Ok(stay(here.alloc, kept))
}
