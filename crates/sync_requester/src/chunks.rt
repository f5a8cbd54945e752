//! The provider gives a chunk of its store.

ghost use Rattle.std.specs.Prelude.{◌≡◌, ℕ, ◌+◌, ◌≤◌, ◌^◌, ◌&&◌, ◌++◌, length, true, false, Some, IfOk, OnOk};
ghost use Rattle.std.specs.List.{AllByRecursion};
ghost use Rattle.mon_tx.specs.Text.{text, most};
ghost use Rattle.mon_msg.specs.Protocol.Changes.{encoded};
ghost use Rattle.mon_msg.specs.Protocol.Chunks.{hear_chunk, hear_last_chunk, take_last, takes_chunks};
ghost use Rattle.mon_msg.specs.Protocol.Places.{is_cookie, same_place};
ghost use Rattle.mon_msg.specs.Protocol.Played.{Fits};
ghost use Rattle.mon_wire.specs.declared.phase.Phase.TheVariants as phase;
ghost use Rattle.mon_wire.specs.declared.write_lists.TheConstants.{MOST_ITEMS};
ghost use Rattle.mon_plan.specs.Leaves.{Leaves};
ghost use Rattle.sync_requester.specs.Copied.{copied, Copies, Takes};
ghost use Rattle.sync_requester.specs.Rows.{ByHeard};

use crate::cookies::{ask_chunk, is_own_cookie};
use crate::places::{is_same_place, next_key_place};
use mon_bytes::{Entry, Items, OutOfMemory};
use mon_msg::{Cookie, Next, Place, Plan, Requester, RoleStop, SyncStage, Timer};
use mon_plan::{armed, disarmed, learn, planned, put_copies, put_records, stay, writing};
use mon_stored::{Here, epoch_after};
use mon_tx::Transaction;
use mon_types::{Version, Which};
use std::alloc::Global;

/// What a chunk holds, and the place that it follows.
#[derive(Clone, Copy)]
pub(crate) struct Chunk<'a> {
    pub(crate) place: &'a Place,
    pub(crate) values: &'a [Transaction],
    pub(crate) entries: &'a [Entry],
}

fn takes_chunks(stage: SyncStage) -> bool
    ensures { result ≡ takes_chunks stage }
{
    match stage {
        SyncStage::Chunks => true,
        SyncStage::Cookie | SyncStage::Replay { .. } => false,
    }
}

/// Whether a chunk is the one that was asked for: under the own cookie, for the own place.
fn is_awaited(state: &Requester, cookie: Cookie, place: &Place) -> bool
    ensures { result ≡ (takes_chunks state.now.stage && is_cookie cookie state.now.cookie &&
        same_place place.now state.now.place) }
{
    takes_chunks(state.stage) && is_own_cookie(state, cookie) && is_same_place(place, &state.place)
}

/// Writes what a chunk holds. A whole copy puts the records and the entries as they are; a recent synchronization
/// learns the values.
fn write(tx: &mut Transaction, full: bool, from: u64, chunk: &Chunk<'_>) -> Result<(), RoleStop>
    requires short { AllByRecursion (λ ops. length (text ops) ≤ most) chunk.now.values.now }
    requires from { 1 ≤ from }
    requires room { from + length chunk.now.values.now ≤ 2 ^ 63 }
    ensures copy { Copies full from chunk.now.values.now chunk.now.entries.now result }
    ensures changes { OnOk result
        (tx.new ≡ tx.old ++ encoded (copied full from chunk.now.values.now chunk.now.entries.now)) }
    ensures fit { OnOk result (AllByRecursion Fits (copied full from chunk.now.values.now chunk.now.entries.now)) }
{
    if !full {
        return learn(tx, from, chunk.values);
    }
    put_records(tx, from, chunk.values)?;
    put_copies(tx, chunk.entries)?;
    Ok(())
}

/// What a chunk writes when it is taken, and the place from which the next one goes on.
#[derive(Drop)]
struct Taken {
    tx: Transaction,
    place: Place,
}

/// Takes a chunk, and moves the place past it. `Spent` names the version of the new place if it would pass 2^62.
fn take(alloc: Global, state: &Requester, chunk: &Chunk<'_>, done: bool) -> Result<Taken, RoleStop>
    requires short { AllByRecursion (λ ops. length (text ops) ≤ most) chunk.now.values.now }
    requires few { length chunk.now.values.now ≤ MOST_ITEMS }
    ensures { Takes state.now chunk.now.place.now chunk.now.values.now chunk.now.entries.now done result }
{
    let place = chunk.place;
    let count = chunk.values.len() as u64;
    let Some(version) = Version::new(place.version.get() + count) else {
        return Err(RoleStop::Spent {
            which: Which::Version,
        });
    };
    let mut tx = Transaction::new(alloc);
    let from = place.version.get() + 1;
    write(&mut tx, state.full, from, chunk)?;
    let key = next_key_place(alloc, chunk.entries, done, &place.key)?;
    Ok(Taken {
        tx,
        place: Place { version, key },
    })
}

/// The requester's state once it has reached a place.
fn at_place(state: &Requester, place: Place) -> Requester
    ensures { result ≡ record state.now { place = place } }
{
    Requester {
        provider: state.provider,
        full: state.full,
        stage: state.stage,
        cookie: state.cookie,
        start: state.start,
        place,
    }
}

/// The provider gives a chunk that isn't the last one. If it is the awaited one, it is taken and the next one is asked
/// for.
pub(crate) fn hear_chunk(
    here: &Here<'_>,
    state: &Requester,
    cookie: Cookie,
    chunk: &Chunk<'_>,
    done: bool,
) -> Result<Plan<Requester>, RoleStop>
    requires short { AllByRecursion (λ ops. length (text ops) ≤ most) chunk.now.values.now }
    requires few { length chunk.now.values.now ≤ MOST_ITEMS }
    ensures plans { (f : ℕ) → ByHeard here.now state.now f (hear_chunk here.now.me.now here.now.time f cookie
        chunk.now.place.now chunk.now.values.now chunk.now.entries.now done) result }
    ensures leaves { IfOk result (λ plan. Leaves phase.Synchronizing plan.next plan.tx) }
{
    if !is_awaited(state, cookie, chunk.place) {
        return Ok(stay(here.alloc, state.copy(here.alloc)?));
    }
    let Taken { tx, place } = take(here.alloc, state, chunk, done)?;
    let epoch = epoch_after(here.alloc, here.kv, &tx)?;
    Ok(ask_chunk(here, epoch, tx, cookie, at_place(state, place))?)
}

/// The requester's state as it begins to replay the versions from `next` to `end`.
fn replaying(state: &Requester, place: Place, next: Version, end: Version) -> Requester
    ensures { result ≡ record state.now { place = place; stage = SyncStage.Replay next end } }
{
    Requester {
        provider: state.provider,
        full: state.full,
        stage: SyncStage::Replay { next, end },
        cookie: state.cookie,
        start: state.start,
        place,
    }
}

/// The last chunk of a whole copy. The versions from the one after the copy's beginning up to the provider's last one
/// are replayed next.
fn end_copy(
    here: &Here<'_>,
    state: &Requester,
    chunk: &Chunk<'_>,
    last: Version,
) -> Result<Plan<Requester>, RoleStop>
    requires full { state.now.full ≡ true }
    requires short { AllByRecursion (λ ops. length (text ops) ≤ most) chunk.now.values.now }
    requires few { length chunk.now.values.now ≤ MOST_ITEMS }
    ensures plans { (f : ℕ) → ByHeard here.now state.now f (take_last here.now.me.now here.now.time
        chunk.now.place.now chunk.now.values.now chunk.now.entries.now last) result }
    ensures leaves { IfOk result (λ plan. Leaves phase.Synchronizing plan.next plan.tx) }
{
    let Taken { tx, place } = take(here.alloc, state, chunk, true)?;
    let Some(next) = state.start.plus_one() else {
        return Err(RoleStop::Spent {
            which: Which::Version,
        });
    };
    let mut timers = Items::new(here.alloc);
    timers.push(disarmed(Timer::Sync))?;
    timers.push(armed(here.time, Timer::Step))?;
    Ok(Plan {
        tx,
        out: Items::new(here.alloc),
        timers,
        state: replaying(state, place, next, last),
        next: Next::Stay,
    })
}

/// The last chunk of the missing versions. The monitor takes them and bootstraps.
fn end_recent(
    here: &Here<'_>,
    state: &Requester,
    chunk: &Chunk<'_>,
) -> Result<Plan<Requester>, RoleStop>
    requires recent { state.now.full ≡ false }
    requires short { AllByRecursion (λ ops. length (text ops) ≤ most) chunk.now.values.now }
    requires few { length chunk.now.values.now ≤ MOST_ITEMS }
    ensures plans { (f last : ℕ) → ByHeard here.now state.now f (take_last here.now.me.now here.now.time
        chunk.now.place.now chunk.now.values.now chunk.now.entries.now last) result }
    ensures leaves { IfOk result (λ plan. Leaves phase.Synchronizing plan.next plan.tx) }
{
    let Taken { tx, place } = take(here.alloc, state, chunk, true)?;
    Ok(writing(here.alloc, tx, at_place(state, place), Next::Bootstrap))
}

/// The provider gives the last chunk, with its last version.
pub(crate) fn hear_last_chunk(
    here: &Here<'_>,
    state: &Requester,
    cookie: Cookie,
    chunk: &Chunk<'_>,
    last: Version,
) -> Result<Plan<Requester>, RoleStop>
    requires short { AllByRecursion (λ ops. length (text ops) ≤ most) chunk.now.values.now }
    requires few { length chunk.now.values.now ≤ MOST_ITEMS }
    ensures plans { (f : ℕ) → ByHeard here.now state.now f (hear_last_chunk here.now.me.now here.now.time f cookie
        chunk.now.place.now chunk.now.values.now chunk.now.entries.now last) result }
    ensures leaves { IfOk result (λ plan. Leaves phase.Synchronizing plan.next plan.tx) }
{
    if !is_awaited(state, cookie, chunk.place) {
        return Ok(stay(here.alloc, state.copy(here.alloc)?));
    }
    if state.full {
        return end_copy(here, state, chunk, last);
    }
    end_recent(here, state, chunk)
}
